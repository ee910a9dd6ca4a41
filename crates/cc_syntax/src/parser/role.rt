// The role of a token in the grammar.

ghost use Rattle.std.specs.Prelude.{◌≡◌};
ghost use Rattle.cc_syntax.specs.internal.Roles.{role_of, keyword_role, punctuator_role};

use cc_ast::{AssignmentOperator, BinaryOperator, StepOperator, UnaryOperator};
use cc_tokens::{Keyword, Punctuator, Scalar, TokenKind};

/// The role of a token in the grammar.
#[derive(Clone, Copy)]
pub enum Role {
    Identifier,
    Number(Scalar, u32),
    Int,
    Char,
    /// `signed` or `unsigned`, which `int` may follow.
    SignWord(Scalar),
    Void,
    Return,
    Break,
    Continue,
    If,
    Else,
    While,
    Do,
    For,
    OpenParenthesis,
    CloseParenthesis,
    OpenBracket,
    CloseBracket,
    OpenBrace,
    CloseBrace,
    Semicolon,
    Comma,
    Question,
    Colon,
    /// `+`, as a unary or a binary operator.
    Plus,
    /// `-`, as a unary or a binary operator.
    Minus,
    /// `~` or `!`.
    Prefix(UnaryOperator),
    /// Any other binary operator.
    Infix(BinaryOperator),
    Assignment(AssignmentOperator),
    /// `++` or `--`.
    Step(StepOperator),
    /// A token that occurs in no unit.
    Other,
}

fn of_keyword(keyword: Keyword) -> Role
    ensures { result ≡ keyword_role keyword }
{
    match keyword {
        Keyword::Int => Role::Int,
        Keyword::Char => Role::Char,
        Keyword::Signed => Role::SignWord(Scalar::Int),
        Keyword::Unsigned => Role::SignWord(Scalar::Unsigned),
        Keyword::Void => Role::Void,
        Keyword::Return => Role::Return,
        Keyword::Break => Role::Break,
        Keyword::Continue => Role::Continue,
        Keyword::If => Role::If,
        Keyword::Else => Role::Else,
        Keyword::While => Role::While,
        Keyword::Do => Role::Do,
        Keyword::For => Role::For,
        _ => Role::Other,
    }
}

fn of_punctuator(punctuator: Punctuator) -> Role
    ensures { result ≡ punctuator_role punctuator }
{
    // ORDER BinaryOperator
    match punctuator {
        Punctuator::OpenParenthesis => Role::OpenParenthesis,
        Punctuator::CloseParenthesis => Role::CloseParenthesis,
        Punctuator::OpenBracket => Role::OpenBracket,
        Punctuator::CloseBracket => Role::CloseBracket,
        Punctuator::OpenBrace => Role::OpenBrace,
        Punctuator::CloseBrace => Role::CloseBrace,
        Punctuator::Semicolon => Role::Semicolon,
        Punctuator::Comma => Role::Comma,
        Punctuator::Question => Role::Question,
        Punctuator::Colon => Role::Colon,
        Punctuator::Plus => Role::Plus,
        Punctuator::Minus => Role::Minus,
        Punctuator::Star => Role::Infix(BinaryOperator::Multiply),
        Punctuator::Slash => Role::Infix(BinaryOperator::Divide),
        Punctuator::Percent => Role::Infix(BinaryOperator::Remainder),
        Punctuator::ShiftLeft => Role::Infix(BinaryOperator::ShiftLeft),
        Punctuator::ShiftRight => Role::Infix(BinaryOperator::ShiftRight),
        Punctuator::Less => Role::Infix(BinaryOperator::Less),
        Punctuator::Greater => Role::Infix(BinaryOperator::Greater),
        Punctuator::LessOrEqual => Role::Infix(BinaryOperator::LessOrEqual),
        Punctuator::GreaterOrEqual => Role::Infix(BinaryOperator::GreaterOrEqual),
        Punctuator::Equal => Role::Infix(BinaryOperator::Equal),
        Punctuator::NotEqual => Role::Infix(BinaryOperator::NotEqual),
        Punctuator::Ampersand => Role::Infix(BinaryOperator::And),
        Punctuator::Bar => Role::Infix(BinaryOperator::Or),
        Punctuator::Caret => Role::Infix(BinaryOperator::Xor),
        Punctuator::Tilde => Role::Prefix(UnaryOperator::Complement),
        Punctuator::Exclamation => Role::Prefix(UnaryOperator::Not),
        Punctuator::AndAnd => Role::Infix(BinaryOperator::LogicalAnd),
        Punctuator::OrOr => Role::Infix(BinaryOperator::LogicalOr),
        Punctuator::Assign => Role::Assignment(AssignmentOperator::Plain),
        Punctuator::PlusAssign => Role::Assignment(AssignmentOperator::Add),
        Punctuator::MinusAssign => Role::Assignment(AssignmentOperator::Subtract),
        Punctuator::StarAssign => Role::Assignment(AssignmentOperator::Multiply),
        Punctuator::SlashAssign => Role::Assignment(AssignmentOperator::Divide),
        Punctuator::PercentAssign => Role::Assignment(AssignmentOperator::Remainder),
        Punctuator::ShiftLeftAssign => Role::Assignment(AssignmentOperator::ShiftLeft),
        Punctuator::ShiftRightAssign => Role::Assignment(AssignmentOperator::ShiftRight),
        Punctuator::AmpersandAssign => Role::Assignment(AssignmentOperator::And),
        Punctuator::BarAssign => Role::Assignment(AssignmentOperator::Or),
        Punctuator::CaretAssign => Role::Assignment(AssignmentOperator::Xor),
        Punctuator::PlusPlus => Role::Step(StepOperator::Increment),
        Punctuator::MinusMinus => Role::Step(StepOperator::Decrement),
    }
}

/// The role of a token of this kind in the grammar.
pub fn of_kind(kind: TokenKind) -> Role
    ensures { result ≡ role_of kind }
{
    match kind {
        TokenKind::Identifier => Role::Identifier,
        TokenKind::Number(scalar, word) => Role::Number(scalar, word),
        TokenKind::Keyword(keyword) => of_keyword(keyword),
        TokenKind::Punctuator(punctuator) => of_punctuator(punctuator),
    }
}
