// The rules and limits that a unit may break, and the place where one is broken.

/// A rule of scope or type, or a limit.
#[derive(Clone, Copy)]
pub enum Rule {
    Unknown,
    Redeclared,
    WrongKind,
    WrongCount,
    VoidValue,
    BadReturn,
    BadAssign,
    BadBreak,
    Undefined,
    TooMany,
}

/// A rule that is broken, and the offset in the text of the token that breaks it.
#[derive(Clone, Copy)]
pub struct RuleError {
    pub rule: Rule,
    pub at: usize,
}
