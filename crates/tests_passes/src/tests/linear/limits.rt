// The largest functions go through.

use super::helpers::all_go_through;
use std::alloc::Global;
use std::test::Fail;
use tests_texts::parts::{Part, text_of};
use tests_texts::verdict::row_passes;

/// The parts of functions with some 4,000 nodes, and how many functions the text has. In the first one, 1,364 writes and a read
/// make 4,096 nodes, the most that a function may have.
type Large = (&'static [Part<'static>], usize);

static LARGEST: [Large; 4] = [
    (
        &[
            ("int main(void){", 1),
            ("write_word(0);", 1_364),
            ("read_word();", 1),
            ("}", 1),
        ],
        1,
    ),
    // branches one after the other
    (
        &[
            ("int x;int main(void){", 1),
            ("if(x)x--;else x++;", 250),
            ("}", 1),
        ],
        1,
    ),
    // loops one after the other
    (
        &[
            ("int x;int main(void){", 1),
            ("while(x)x--;", 400),
            ("}", 1),
        ],
        1,
    ),
    // nested loops, each with a head that does nothing
    (
        &[("int main(void){", 1), ("for(;;)", 60), (";", 1), ("}", 1)],
        1,
    ),
];

fn goes_through(alloc: Global, row: &Large) -> Result<bool, Fail> {
    let text = text_of(alloc, row.0)?;
    all_go_through(alloc, text.as_slice(), row.1)
}

#[test]
fn largest_functions(rt: HostRuntime) -> Result<(), Fail> {
    for number in 0..LARGEST.len() {
        row_passes(number, goes_through(rt.alloc(), &LARGEST[number]))?;
    }
    Ok(())
}
