// What surrounds a statement.

use cc_ast::Scalar;

/// The result type of the statement's function, `None` for `void`, and whether the statement is in a loop.
#[derive(Clone, Copy)]
pub struct Surroundings {
    pub result: Option<Scalar>,
    pub in_loop: bool,
}
