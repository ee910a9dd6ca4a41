// Whether the end of a statement is never reached.

use cc_syntax::{Expression, Statement};

// Whether a condition is a constant that always holds.
fn always_holds(test: &Expression) -> bool {
    match test {
        Expression::Number(_, word) => *word != 0,
        _ => false,
    }
}

// Whether any of these statements leaves the loop around it by `break`.
#[cycle(breaks)]
fn one_breaks(trees: &[Statement]) -> bool {
    for tree in trees {
        if breaks(tree) {
            return true;
        }
    }
    false
}

// Whether a statement leaves the loop around it by `break`.
#[cycle(breaks)]
fn breaks(tree: &Statement) -> bool {
    match tree {
        Statement::Break(_) => true,
        Statement::Block(all) => one_breaks(all.as_slice()),
        Statement::If(_, held) => breaks(held),
        Statement::IfElse(_, held, other) => breaks(held) || breaks(other),
        _ => false,
    }
}

/// Whether the end of a list of statements is never reached: the list returns before its end, or loops for ever.
#[cycle(ends)]
pub fn never_left(trees: &[Statement]) -> bool {
    match trees.last() {
        Some(tree) => is_never_left(tree),
        None => false,
    }
}

#[cycle(ends)]
fn is_never_left(tree: &Statement) -> bool {
    match tree {
        Statement::Return(_, _) => true,
        Statement::Block(all) => never_left(all.as_slice()),
        Statement::IfElse(_, held, other) => is_never_left(held) && is_never_left(other),
        Statement::While(test, body) | Statement::DoWhile(body, test) => {
            always_holds(test) && !breaks(body)
        }
        Statement::For(_, Some(test), _, body) => always_holds(test) && !breaks(body),
        Statement::For(_, None, _, body) => !breaks(body),
        _ => false,
    }
}
