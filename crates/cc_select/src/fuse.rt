// A comparison, and the test of its truth value directly after it, become one branch if nothing else reads that value.

ghost use Rattle.std.specs.Prelude.{◌≡◌, ◌<◌, length, IfOk, MatchOption, drop, None, Some};
ghost use Rattle.cc_select.specs.Table.{Table};
ghost use Rattle.cc_select.specs.Selection.{fused};
ghost use Rattle.cc_select.specs.internal.Sets.{table_of, SameTable, AreBehind};
ghost use Rattle.cc_select.specs.internal.Passes.{test_in, branch_on_zero, compared, branch_on, first_branch, shown};

use crate::immediate::{gains, is_comparison};
use crate::live::LiveTable;
use crate::registers::Registers;
use crate::step::Step;
use cc_linear_language::LinearItem;
use cc_ltl::Register;
use cc_words::{Binary, Unary};
use std::alloc::{AllocError, Global};

// A test: its register, whether it leads to its label if the register is not 0 (`nonzero`) or if it is 0, and the label.
#[derive(Clone, Copy)]
struct Test {
    register: Register,
    nonzero: bool,
    to: u32,
}

// The step as a test, if it is one.
fn test_in(step: &Step) -> Option<Test>
    ensures { MatchOption result (test_in step.now ≡ None) (λ test. test_in step.now ≡ Some (shown test)) }
{
    match *step {
        Step::One(LinearItem::IfNonzero { from, to }) => Some(Test {
            register: from,
            nonzero: true,
            to,
        }),
        Step::One(LinearItem::IfZero { from, to }) => Some(Test {
            register: from,
            nonzero: false,
            to,
        }),
        _ => None,
    }
}

// The branch that replaces a step that tests whether a register is 0, together with the test of that step's result.
fn branch_on_zero(from: Register, test: Test) -> Step
    ensures { result ≡ branch_on_zero from (shown test) }
{
    let to = test.to;
    if test.nonzero {
        Step::One(LinearItem::IfZero { from, to })
    } else {
        Step::One(LinearItem::IfNonzero { from, to })
    }
}

// The comparison that a test of this operator's value amounts to: words differ exactly if their xor is not 0.
fn compared(operator: Binary) -> Option<Binary>
    ensures { result ≡ compared operator }
{
    match operator {
        Binary::Xor => Some(Binary::Ne),
        _ if is_comparison(operator) => Some(operator),
        _ => None,
    }
}

// The one branch that replaces a step and a test of the register that the step writes.
fn branch_on(step: &Step, test: Test) -> Option<Step>
    ensures { result ≡ branch_on step.now (shown test) }
{
    let register = test.register.number();
    let Test { nonzero, to, .. } = test;
    match *step {
        Step::One(
            LinearItem::Unary {
                operator: Unary::IsZero,
                to: written,
                from,
            },
        ) if written.number() == register => Some(branch_on_zero(from, test)),
        Step::One(
            LinearItem::Binary {
                operator,
                to: written,
                left,
                right,
            },
        ) if written.number() == register => {
            let operator = compared(operator)?;
            Some(Step::Branch {
                operator,
                nonzero,
                left,
                right,
                to,
            })
        }
        Step::Immediate {
            operator,
            to: written,
            from,
            word,
        } if written.number() == register && gains(operator, word) => Some(Step::BranchImmediate {
            operator,
            nonzero,
            from,
            word,
            to,
        }),
        _ => None,
    }
}

// The one branch that replaces the step at this place and the step after it.
fn branch_at(table: &LiveTable, steps: &[Step], behind: &[Registers], at: usize) -> Option<Step>
    requires at { at < length steps.now }
    requires long { length behind.now ≡ length steps.now }
    ensures { (t : Table) → SameTable (table_of table.now) t → AreBehind t steps.now behind.now → result ≡ first_branch t (drop at steps.now) }
{
    let test = test_in(steps.get(at + 1)?)?;
    let register = test.register.number();
    if behind[at + 1].has(register) || table.row(test.to).has(register) {
        return None;
    }
    branch_on(&steps[at], test)
}

/// The steps, with comparisons and the tests of their values joined into branches, given the registers that are live after each step. Err:
/// memory ran out.
pub(crate) fn fused(
    alloc: Global,
    table: &LiveTable,
    steps: &[Step],
    behind: &[Registers],
) -> Result<Vec<Step>, AllocError>
    requires { length behind.now ≡ length steps.now }
    ensures { IfOk result (λ found. (t : Table) → SameTable (table_of table.now) t → AreBehind t steps.now behind.now → found.items ≡ fused t steps.now) }
{
    let mut found = Vec::with_capacity(alloc, steps.len())?;
    let mut at = 0;
    while at < steps.len() {
        match branch_at(table, steps, behind, at) {
            Some(branch) => {
                found.push_reserved(branch);
                at += 2;
            }
            None => {
                found.push_reserved(steps[at]);
                at += 1;
            }
        }
    }
    Ok(found)
}
