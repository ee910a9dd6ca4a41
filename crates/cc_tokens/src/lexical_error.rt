// Why a text has no tokens.

/// What can be wrong at a byte that begins no white space, comment or token, or inside a comment.
#[derive(Clone, Copy)]
pub enum LexicalError {
    /// A byte that begins no token, or a line splice in a comment.
    BadByte,
    /// A comment that is never closed.
    UnclosedComment,
    /// A number that is not a constant of the profile.
    BadConstant,
    /// A constant that is too large: above 2147483647 if it is decimal and has no suffix, or above 4294967295.
    ConstantTooLarge,
}
