// Whether two operators or types are the same.

ghost use Rattle.std.specs.Prelude.{◌≡◌};
ghost use Rattle.cc_wide_check.specs.internal.Equal.{equal_assignment, equal_step, equal_unary, equal_binary, equal_scalar};

use cc_ast::{AssignmentOperator, BinaryOperator, Scalar, StepOperator, UnaryOperator};

pub(crate) fn same_assignment(one: AssignmentOperator, other: AssignmentOperator) -> bool
    ensures { result ≡ equal_assignment one other }
{
    one as u8 == other as u8
}

pub(crate) fn same_step(one: StepOperator, other: StepOperator) -> bool
    ensures { result ≡ equal_step one other }
{
    one as u8 == other as u8
}

pub(crate) fn same_unary(one: UnaryOperator, other: UnaryOperator) -> bool
    ensures { result ≡ equal_unary one other }
{
    one as u8 == other as u8
}

pub(crate) fn same_binary(one: BinaryOperator, other: BinaryOperator) -> bool
    ensures { result ≡ equal_binary one other }
{
    one as u8 == other as u8
}

pub(crate) fn same_scalar(one: Scalar, other: Scalar) -> bool
    ensures { result ≡ equal_scalar one other }
{
    one == other
}
