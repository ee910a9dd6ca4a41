// What the check has found so far.

ghost use Rattle.std.specs.Prelude.{◌≡◌, [], ◌∷◌, OnOk};
ghost use Rattle.cc_ast.specs.Erase.{name_tree};
ghost use Rattle.cc_types.specs.Fault.{rule_number};
ghost use Rattle.cc_typing.specs.internal.Findings.{is_before, earlier, after, nothing_found, with_before};
ghost use Rattle.cc_types.specs.Rules.{broken, broken_if};
ghost use Rattle.cc_types.specs.Scope.{has_name};

use super::functions::Functions;
use cc_ast::Identifier;
use cc_types::{Rule, RuleError};
use std::alloc::AllocError;
use std::marker::Model;

fn number(rule: Rule) -> u32
    ensures { result ≡ rule_number rule }
{
    match rule {
        Rule::Unknown => 11,
        Rule::Redeclared => 12,
        Rule::WrongKind => 13,
        Rule::WrongCount => 14,
        Rule::VoidValue => 15,
        Rule::BadReturn => 16,
        Rule::BadAssign => 17,
        Rule::BadBreak => 18,
        Rule::Undefined => 20,
        Rule::TooMany => 21,
    }
}

fn comes_before(error: RuleError, other: RuleError) -> bool
    ensures { result ≡ is_before error other }
{
    error.at < other.at || (error.at == other.at && number(error.rule) < number(other.rule))
}

/// The earlier of two errors: `first`, if there is one, and `error`.
pub fn earlier(first: Option<RuleError>, error: RuleError) -> RuleError
    ensures { result ≡ earlier first error }
{
    match first {
        Some(first) if !comes_before(error, first) => first,
        _ => error,
    }
}

/// The first error so far, and the first call of a function that the unit does not define.
#[derive(Drop)]
pub struct Findings<'a> {
    first: Option<RuleError>,
    undefined: Option<RuleError>,
    functions: Functions<'a>,
}

impl<'a> Model for Findings<'a> {
    ghost use Rattle.cc_typing.specs.internal.Findings.{Found};

    ghost Value = { Found };

    ghost view = { λ f. record { first = f.first; undefined = f.undefined; functions = f.functions } };
}

impl<'a> Findings<'a> {
    /// Returns findings in which nothing has been found yet, in a unit that defines these functions.
    pub fn new(functions: Functions<'a>) -> Findings<'a>
        ensures { result ≡ nothing_found functions.entry }
    {
        Findings {
            first: None,
            undefined: None,
            functions,
        }
    }

    /// Records that a rule is broken at the token with this offset.
    pub fn note(&mut self, rule: Rule, at: usize)
        ensures { self.new ≡ after self.old (broken rule at) [] }
    {
        self.first = Some(earlier(self.first, RuleError { rule, at }));
    }

    /// Records that a rule is broken at the token with this offset, if `holds` is true.
    pub fn note_if(&mut self, holds: bool, rule: Rule, at: usize)
        ensures { self.new ≡ after self.old (broken_if holds rule at) [] }
    {
        if holds {
            self.note(rule, at);
        }
    }

    /// Records that a function is called.
    pub fn note_call(&mut self, name: &Identifier)
        ensures { self.new ≡ after self.old [] (name_tree name.now ∷ []) }
    {
        if !self.functions.is_defined(name.bytes.as_slice()) {
            let error = RuleError {
                rule: Rule::Undefined,
                at: name.at,
            };
            self.undefined = Some(earlier(self.undefined, error));
        }
    }

    /// Whether a function of this name has been defined already.
    pub fn stands_before(&self, name: &[u8]) -> bool
        ensures { result ≡ has_name self.now.functions.before name.now }
    {
        self.functions.stands_before(name)
    }

    /// Records that a function of this name has now been defined.
    pub fn mark_before(&mut self, name: &'a [u8]) -> Result<(), AllocError>
        ensures { OnOk result (self.new ≡ with_before self.old (name.now ∷ [])) }
    {
        self.functions.mark_before(name)
    }

    /// The first error.
    pub fn first(&self) -> Option<RuleError>
        ensures { result ≡ self.now.first }
    {
        self.first
    }

    /// The first call of a function that is not defined.
    pub fn undefined(&self) -> Option<RuleError>
        ensures { result ≡ self.now.undefined }
    {
        self.undefined
    }
}
