// A text leads to one program or one fault.

use cc_link::verdicts_are_determined;
use tests_texts::parts::Part;

/// A text with three functions, of which the second and the third have too many nodes.
pub const TWO_LARGE: &[Part<'static>] = &[
    ("int x;int f(void){return x;}void first(void){", 1),
    ("x++;", 5_000),
    ("}int main(void){", 1),
    ("x++;", 5_001),
    ("}", 1),
];

// The contract is the law; the call does nothing.
#[test]
fn a_text_has_one_verdict() {
    verdicts_are_determined();
}
