// The text of the Linear of whole functions, worked out by hand from the rules in `docs/INTERMEDIATE.md`: the nodes of RTL, the
// blocks made from them with a slot for each register, and the order of the blocks.

use super::helpers::text_of_function;
use std::alloc::Global;
use std::test::Fail;
use tests_texts::verdict::row_passes;

/// A text, the number of a function, and the text of its Linear.
type Row = (&'static str, usize, &'static str);

static SHOWN: [Row; 4] = [
    // one block after the other; what comes after the return is never reached
    (
        "int f(int a,int b){return a-b;}int main(void){}",
        0,
        "f0 slots 3
  slot0 = x10
  slot1 = x11
  x28 = slot0
  x29 = slot1
  x28 = sub x28, x29
  slot2 = x28
  x10 = slot2
  return
",
    ),
    // the test of a loop, which is executed first, comes after the loop's body: RTL is 0: nop -> 4, 1: branch r0 -> 2, 5, 2: r1
    // = 1 -> 3, 3: r0 = sub r0, r1 -> 4, 4: nop -> 1, 5: return r0
    (
        "int f(int n){while(n)n=n-1;return n;}int main(void){}",
        0,
        "f0 slots 2
  slot0 = x10
  jump 1
2:
  x28 = 1
  slot1 = x28
  x28 = slot0
  x29 = slot1
  x28 = sub x28, x29
  slot0 = x28
1:
  x28 = slot0
  branch x28 != 0 -> 2
  x10 = slot0
  return
",
    ),
    // an endless loop that does nothing is kept; its two empty blocks, the entry and the way back to its head, are skipped
    (
        "int main(void){for(;;);write_word(1);}",
        0,
        "f0 slots 2
1:
  x28 = 1
  slot1 = x28
  x28 = slot1
  branch x28 != 0 -> 1
  x28 = 1
  slot1 = x28
  x10 = slot1
  write
  x28 = 0
  slot0 = x28
  x28 = 0
  slot1 = x28
  x10 = slot1
  return
",
    ),
    // the way for a word that is 0 follows the branch, unless it follows another block, just as what comes after an `if`
    // follows the body of the `if`
    (
        "int f(int n){if(n)return f(n-1);return 7;}int main(void){}",
        0,
        "f0 slots 4
  slot0 = x10
  x28 = slot0
  branch x28 != 0 -> 2
  x28 = 7
  slot2 = x28
  x10 = slot2
  return
2:
  x28 = 1
  slot3 = x28
  x28 = slot0
  x29 = slot3
  x28 = sub x28, x29
  slot2 = x28
  x10 = slot2
  call 0
  slot1 = x10
  x10 = slot1
  return
",
    ),
];

fn is_shown(alloc: Global, row: &Row) -> Result<bool, Fail> {
    Ok(text_of_function(alloc, row.0.as_bytes(), row.1)?.as_str() == row.2)
}

#[test]
fn texts_of_functions(rt: HostRuntime) -> Result<(), Fail> {
    for number in 0..SHOWN.len() {
        row_passes(number, is_shown(rt.alloc(), &SHOWN[number]))?;
    }
    Ok(())
}
