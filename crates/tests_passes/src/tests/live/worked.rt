// Live sets worked out by hand from the rule (what a node reads, and what is live after it except its result), and which nodes
// are dropped because their result is not live. `tests/rows/stages_rtl.rows` has what is left without faint nodes.

use super::helpers::{has_sets, without_dead};
use std::alloc::Global;
use std::test::Fail;
use tests_texts::verdict::row_passes;

/// A text, and the registers that are live before each node of its first function.
type Sets = (&'static str, &'static [&'static [u32]]);

static SETS: [Sets; 3] = [
    // a parameter that is returned; after the return comes the value that a function returns when it runs off its end
    (
        "int f(int x){return x;}int main(void){}",
        &[&[0], &[0], &[], &[1]],
    ),
    // a branch: one way needs the parameter, the other needs nothing; a call takes its result out and puts its arguments in
    (
        "int f(int n){if(n)return f(n-1);return 7;}int main(void){write_word(f(1022));}",
        &[&[0], &[0], &[0], &[0, 3], &[2], &[1], &[], &[2], &[], &[2]],
    ),
    // a loop: the sum and the count are live all around it
    (
        "int f(int n){int s=0;while(n){s=s+n;n=n-1;}return s;}int main(void){}",
        &[
            &[0],
            &[0],
            &[0],
            &[0, 1],
            &[0, 1],
            &[0, 1],
            &[0, 1, 2],
            &[0, 1],
            &[1],
            &[],
            &[2],
        ],
    ),
];

#[test]
fn live_sets(rt: HostRuntime) -> Result<(), Fail> {
    for number in 0..SETS.len() {
        let (text, wanted) = SETS[number];
        row_passes(number, has_sets(rt.alloc(), text.as_bytes(), wanted))?;
    }
    Ok(())
}

/// A text, and the RTL of its first function without dead nodes.
type Row = (&'static str, &'static str);

static LEFT: [Row; 4] = [
    // the 0 of a declaration whose value is set at once
    (
        "int f(int n){int s=0;while(n){s=s+n;n=n-1;}return s;}int main(void){}",
        "parameters 1, entry 0
0: nop -> 1
1: nop -> 2
2: r1 = 0 -> 7
3: branch r0 -> 4, 8
4: r1 = add r1, r0 -> 5
5: r2 = 1 -> 6
6: r0 = sub r0, r2 -> 7
7: nop -> 3
8: return r1
9: r2 = 0 -> 10
10: return r2
",
    ),
    // a product that nothing reads is dropped; its factor stays at first
    (
        "int main(void){int x=read_word();int y=x*7;write_word(x);}",
        "parameters 0, entry 0
0: nop -> 1
1: nop -> 2
2: r1 = read -> 3
3: r0 = r1 -> 4
4: nop -> 5
5: r3 = 7 -> 6
6: nop -> 7
7: write r0 -> 8
8: nop -> 9
9: r3 = 0 -> 10
10: return r3
",
    ),
    // in a chain of products, one is dropped at a time
    (
        "int f(int x){int a=x*2;int b=a*3;int c=b*5;return x;}int main(void){}",
        "parameters 1, entry 0
0: nop -> 1
1: nop -> 2
2: r4 = 2 -> 3
3: r1 = mul r0, r4 -> 4
4: nop -> 5
5: r4 = 3 -> 6
6: r2 = mul r1, r4 -> 7
7: nop -> 8
8: r4 = 5 -> 9
9: nop -> 10
10: return r0
11: r4 = 0 -> 12
12: return r4
",
    ),
    // two moves in a loop that are read only by each other are live
    (
        "int f(int n){int a=1;int b=2;while(n){a=b;b=a;n=n-1;}return n;}int main(void){}",
        "parameters 1, entry 0
0: nop -> 1
1: nop -> 2
2: nop -> 3
3: nop -> 4
4: r2 = 2 -> 10
5: branch r0 -> 6, 11
6: r1 = r2 -> 7
7: r2 = r1 -> 8
8: r3 = 1 -> 9
9: r0 = sub r0, r3 -> 10
10: nop -> 5
11: return r0
12: r3 = 0 -> 13
13: return r3
",
    ),
];

fn is_left(alloc: Global, row: &Row) -> Result<bool, Fail> {
    Ok(without_dead(alloc, row.0.as_bytes())?.as_str() == row.1)
}

#[test]
fn dead_nodes(rt: HostRuntime) -> Result<(), Fail> {
    for number in 0..LEFT.len() {
        row_passes(number, is_left(rt.alloc(), &LEFT[number]))?;
    }
    Ok(())
}
