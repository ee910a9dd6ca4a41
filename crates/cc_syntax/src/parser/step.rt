// One token.

ghost use Rattle.std.specs.Prelude.{◌≡◌, ◌<◌, ◌≤◌, ◌^◌, length, IfSome};
ghost use Rattle.cc_syntax.specs.internal.Parser.{role_step, role_level, item_level, resting_depth, stage_level};
ghost use Rattle.cc_syntax.specs.internal.ParserView.{name_at, parser_view, stage_of, open_views, Gives};

use crate::parser::cursor::Cursor;
use crate::parser::role::Role;
use crate::parser::state::{At, Open, Outer, Parser, Stage};
use crate::parser::stop::Stop;

/// The level of a statement or declaration that begins inside this many open statements, or 0 if the token ends a block.
fn level_behind(count: usize, role: Role) -> usize
    requires { count < 2 ^ 63 }
    ensures { result ≡ item_level count role }
{
    match role {
        Role::CloseBrace => 0,
        _ => count + 2,
    }
}

/// How many open statements remain once a statement is complete and no `else` follows it. `None` if a `do` then awaits
/// its `while`.
fn rest(statements: &[Open]) -> Option<usize>
    ensures depth { result ≡ resting_depth (open_views statements.now) }
    ensures within { IfSome result (λ left. left ≤ length statements.now) }
{
    let mut left = statements;
    while let Some((last, prefix)) = left.split_last() {
        match last {
            Open::Block(_) => return Some(left.len()),
            Open::Do => return None,
            _ => left = prefix,
        }
    }
    Some(0)
}

impl Parser {
    /// Reads one token. Fails with `Unexpected` if no unit continues with it.
    pub fn step(&mut self, role: Role, cursor: &Cursor<'_>) -> Result<(), Stop>
        ensures { Gives (role_step (parser_view self.old) role (name_at cursor.now)) result self.new }
    {
        match self.at {
            At::File => self.step_outer(role, cursor),
            At::Body => self.step_body(role, cursor),
            At::Full => self.step_full(role, cursor),
        }
    }

    /// The level of the statement or declaration that a token begins, or 0 if it begins none.
    pub fn level_begun(&self, role: Role) -> usize
        ensures { result ≡ role_level (parser_view self.now) role }
    {
        match self.at {
            At::File => match self.outer {
                Outer::Headed => match role {
                    Role::OpenBrace => 1,
                    _ => 0,
                },
                _ => 0,
            },
            At::Body => self.level_in_body(role),
            At::Full => 0,
        }
    }

    /// The level of what a token begins in a function's body, or 0 if it begins nothing.
    fn level_in_body(&self, role: Role) -> usize
        ensures { result ≡ stage_level (open_views self.now.body.open.items) (stage_of self.now self.now.body.stage) role }
    {
        match &self.body.stage {
            Stage::Item => level_behind(self.body.open.len(), role),
            Stage::AfterThen(_, _) => match role {
                Role::Else => 0,
                _ => match rest(self.body.open.as_slice()) {
                    Some(left) => level_behind(left, role),
                    None => 0,
                },
            },
            Stage::ForStarting => match role {
                Role::Int | Role::SignWord(_) => self.body.open.len() + 3,
                _ => 0,
            },
            _ => 0,
        }
    }
}
