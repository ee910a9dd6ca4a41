// What `continue` does, by what is around it.

ghost use Rattle.std.specs.Prelude.{◌≡◌};
ghost use Rattle.cc_wide.specs.Lowering.{within};
ghost use Rattle.cc_wide_check.specs.internal.Lowers.{may_continue};
ghost use Rattle.cc_wide_check.specs.internal.Views.{around_of};

/// What `continue` does: there is no loop; or it goes to the loop; or it has to leave the switch with this local first.
#[derive(Clone, Copy)]
pub(crate) enum Around {
    Outside,
    Loop,
    Caught(usize),
}

/// What is around the statements of a switch inside `depth` others.
pub(crate) fn within(around: Around, depth: usize) -> Around
    ensures { around_of result ≡ within (around_of around) depth }
{
    match around {
        Around::Outside => Around::Outside,
        Around::Loop | Around::Caught(_) => Around::Caught(depth),
    }
}

/// Whether a `continue` may be here.
pub(crate) fn may_continue(around: Around) -> bool
    ensures { result ≡ may_continue (around_of around) }
{
    match around {
        Around::Outside => false,
        Around::Loop | Around::Caught(_) => true,
    }
}
