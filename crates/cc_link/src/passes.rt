// One function through the passes. Each pass shows what it made to whoever watches.

ghost use Rattle.std.specs.Prelude.{◌≡◌, ◌<◌, length, IfOk, IfErr};
ghost use Rattle.std.specs.Arc.{arc_value};
ghost use Rattle.cc_ast.specs.Source.{source};
ghost use Rattle.cc_types.specs.Typed.{defined_names};
ghost use Rattle.cc_cminor_language.specs.Pair.{code_of};
ghost use Rattle.cc_cminor_language.specs.declared.fault.CodeFault.TheVariants.{FunctionTooLarge, OutOfMemory};
ghost use Rattle.cc_mode.specs.Long.{IsLongIn};
ghost use Rattle.cc_rtl_language.specs.Rtl.{most_nodes};
ghost use Rattle.cc_rtl.specs.Size.{function_nodes};

use crate::watching::{Allocation, Allocator, Seen, Watch};
use cc_c_semantics::Mode;
use cc_cminor::to_cminor;
use cc_cminor_language::CminorPair;
use cc_colour::{colour, spill_all};
use cc_emit::{Piece, emit};
use cc_linear::linearise;
use cc_live::{Liveness, drop_faint};
use cc_ltl::Ltl;
use cc_mode::guarded_in;
use cc_rtl::{Rtl, RtlFault, RtlPair, to_rtl};
use cc_select::select;
use cc_types::TypedUnit;
use cc_validate::{LtlPair, Refused, ValidateFault, validate};
use std::alloc::{AllocError, Global};
use std::sync::Arc;

/// The RTL of a function once the nodes that nothing needs are nops, with its live sets. No proof depends on these
/// sets.
#[derive(Drop)]
pub(crate) struct Colourable {
    pub(crate) rtl: RtlPair,
    live: Liveness,
}

impl Colourable {
    // The RTL without the live sets.
    fn into_rtl(self) -> RtlPair
        ensures { result ≡ self.rtl }
    {
        let Colourable { rtl, live } = self;
        drop(live);
        rtl
    }
}

// The Cminor of a function in a mode.
fn lowered<W: Watch>(
    alloc: Global,
    mode: Mode,
    unit: &Arc<TypedUnit>,
    function: usize,
    watch: &mut W,
) -> Result<CminorPair, RtlFault>
    requires { function < length (defined_names (source (arc_value unit.now))) }
    ensures mode { IfOk result (λ made. made.mode ≡ mode) }
    ensures unit { IfOk result (λ made. made.unit ≡ arc_value unit.now) }
    ensures function { IfOk result (λ made. made.function ≡ function) }
    ensures small { IfOk result (λ made. most_nodes < function_nodes (code_of made) → IsLongIn mode (source (arc_value unit.now)).externals function) }
    ensures large { IfErr result (λ fault. fault ≡ FunctionTooLarge → IsLongIn mode (source (arc_value unit.now)).externals function) }
{
    let pair = match to_cminor(alloc, unit, function) {
        Ok(pair) => pair,
        Err(_) => return Err(RtlFault::OutOfMemory),
    };
    match watch.see(Seen::Cminor(&pair)) {
        Ok(()) => guarded_in(alloc, mode, pair),
        Err(_) => Err(RtlFault::OutOfMemory),
    }
}

// Shows the Cminor with guards of a checked function. A plain function has no guards.
fn show_guarded<W: Watch>(mode: Mode, pair: &CminorPair, watch: &mut W) -> Result<(), AllocError> {
    match mode {
        Mode::Plain => Ok(()),
        Mode::Checked => watch.see(Seen::Guarded(pair)),
    }
}

// The RTL of Cminor.
fn generated<W: Watch>(alloc: Global, pair: CminorPair, watch: &mut W) -> Result<RtlPair, RtlFault>
    ensures mode { IfOk result (λ made. made.mode ≡ pair.mode) }
    ensures unit { IfOk result (λ made. made.unit ≡ pair.unit) }
    ensures function { IfOk result (λ made. made.function ≡ pair.function) }
    ensures large { IfErr result (λ fault. fault ≡ FunctionTooLarge → most_nodes < function_nodes (code_of pair)) }
{
    match to_rtl(alloc, pair) {
        Ok(rtl) => match watch.see(Seen::Rtl(rtl.code())) {
            Ok(()) => Ok(rtl),
            Err(_) => Err(RtlFault::OutOfMemory),
        },
        Err(fault) => Err(fault),
    }
}

// RTL in which the nodes that nothing needs are nops. It fails only if memory runs out.
fn pruned<W: Watch>(alloc: Global, pair: RtlPair, watch: &mut W) -> Result<Colourable, RtlFault>
    ensures mode { IfOk result (λ made. made.rtl.mode ≡ pair.mode) }
    ensures unit { IfOk result (λ made. made.rtl.unit ≡ pair.unit) }
    ensures function { IfOk result (λ made. made.rtl.function ≡ pair.function) }
    ensures memory { IfErr result (λ fault. fault ≡ OutOfMemory) }
{
    let mut rtl = pair;
    let live = match drop_faint(alloc, &mut rtl) {
        Ok(live) => live,
        Err(_) => return Err(RtlFault::OutOfMemory),
    };
    match watch.see(Seen::Pruned(rtl.code())) {
        Ok(()) => Ok(Colourable { rtl, live }),
        Err(_) => Err(RtlFault::OutOfMemory),
    }
}

/// The RTL of a function in a mode once the nodes that nothing needs are nops, with its live sets.
pub(crate) fn prepared<W: Watch>(
    alloc: Global,
    mode: Mode,
    unit: &Arc<TypedUnit>,
    function: usize,
    watch: &mut W,
) -> Result<Colourable, RtlFault>
    requires { function < length (defined_names (source (arc_value unit.now))) }
    ensures mode { IfOk result (λ made. made.rtl.mode ≡ mode) }
    ensures unit { IfOk result (λ made. made.rtl.unit ≡ arc_value unit.now) }
    ensures function { IfOk result (λ made. made.rtl.function ≡ function) }
    ensures large { IfErr result (λ fault. fault ≡ FunctionTooLarge → IsLongIn mode (source (arc_value unit.now)).externals function) }
{
    let pair = match lowered(alloc, mode, unit, function, watch) {
        Ok(pair) => pair,
        Err(fault) => return Err(fault),
    };
    if show_guarded(mode, &pair, watch).is_err() {
        return Err(RtlFault::OutOfMemory);
    }
    match generated(alloc, pair, watch) {
        Ok(rtl) => pruned(alloc, rtl, watch),
        Err(fault) => Err(fault),
    }
}

// Shows the watcher that LTL was refused, and returns the fault, or `OutOfMemory` if the watcher refuses.
fn told<W: Watch>(fault: ValidateFault, watch: &mut W) -> ValidateFault {
    match fault {
        ValidateFault::Unvalidated { label } => match watch.see(Seen::Refused(label)) {
            Ok(()) => fault,
            Err(_) => ValidateFault::OutOfMemory,
        },
        ValidateFault::OutOfMemory => fault,
    }
}

// The validated LTL, if the validator accepts an allocator's LTL. If it does not, the RTL is handed back.
fn judged<W: Watch>(
    alloc: Global,
    pair: RtlPair,
    allocator: Allocator,
    ltl: Ltl,
    watch: &mut W,
) -> Result<LtlPair, Refused>
    ensures mode { IfOk result (λ made. made.mode ≡ pair.mode) }
    ensures unit { IfOk result (λ made. made.unit ≡ pair.unit) }
    ensures function { IfOk result (λ made. made.function ≡ pair.function) }
    ensures hands_back { IfErr result (λ refused. refused.pair ≡ pair) }
{
    if watch.see(Seen::Allocated(allocator, &ltl)).is_err() {
        return Err(Refused {
            pair,
            fault: ValidateFault::OutOfMemory,
        });
    }
    match validate(alloc, pair, ltl) {
        Ok(made) => Ok(made),
        Err(Refused { pair, fault }) => Err(Refused {
            pair,
            fault: told(fault, watch),
        }),
    }
}

// The validated LTL of this allocator, or a fault: no other allocator is tried.
fn accepted<W: Watch>(
    alloc: Global,
    pair: RtlPair,
    allocator: Allocator,
    ltl: Ltl,
    watch: &mut W,
) -> Result<LtlPair, ValidateFault>
    ensures mode { IfOk result (λ made. made.mode ≡ pair.mode) }
    ensures unit { IfOk result (λ made. made.unit ≡ pair.unit) }
    ensures function { IfOk result (λ made. made.function ≡ pair.function) }
{
    match judged(alloc, pair, allocator, ltl, watch) {
        Ok(made) => Ok(made),
        Err(Refused { fault, .. }) => Err(fault),
    }
}

// LTL in which each pseudo-register has a slot of its own.
fn spilled<W: Watch>(alloc: Global, pair: RtlPair, watch: &mut W) -> Result<LtlPair, ValidateFault>
    ensures mode { IfOk result (λ made. made.mode ≡ pair.mode) }
    ensures unit { IfOk result (λ made. made.unit ≡ pair.unit) }
    ensures function { IfOk result (λ made. made.function ≡ pair.function) }
{
    match spill_all(alloc, pair.code()) {
        Ok(ltl) => accepted(alloc, pair, Allocator::Spill, ltl, watch),
        Err(_) => Err(ValidateFault::OutOfMemory),
    }
}

// LTL with values in registers, given these live sets.
fn coloured(alloc: Global, rtl: &Rtl, live: Liveness) -> Result<Ltl, AllocError> {
    colour(alloc, rtl, &live)
}

// LTL with values in registers, or, if the validator refuses it, LTL with a slot for each value.
fn chosen<W: Watch>(
    alloc: Global,
    colourable: Colourable,
    watch: &mut W,
) -> Result<LtlPair, ValidateFault>
    ensures mode { IfOk result (λ made. made.mode ≡ colourable.rtl.mode) }
    ensures unit { IfOk result (λ made. made.unit ≡ colourable.rtl.unit) }
    ensures function { IfOk result (λ made. made.function ≡ colourable.rtl.function) }
{
    let Colourable { rtl: pair, live } = colourable;
    match coloured(alloc, pair.code(), live) {
        Ok(ltl) => match judged(alloc, pair, Allocator::Colour, ltl, watch) {
            Ok(made) => Ok(made),
            Err(
                Refused {
                    pair,
                    fault: ValidateFault::Unvalidated { .. },
                },
            ) => spilled(alloc, pair, watch),
            Err(Refused { fault, .. }) => Err(fault),
        },
        Err(_) => Err(ValidateFault::OutOfMemory),
    }
}

// LTL that the validator accepts.
fn allocated<W: Watch>(
    alloc: Global,
    colourable: Colourable,
    allocation: Allocation,
    watch: &mut W,
) -> Result<LtlPair, ValidateFault>
    ensures mode { IfOk result (λ made. made.mode ≡ colourable.rtl.mode) }
    ensures unit { IfOk result (λ made. made.unit ≡ colourable.rtl.unit) }
    ensures function { IfOk result (λ made. made.function ≡ colourable.rtl.function) }
{
    match allocation {
        Allocation::Chosen => chosen(alloc, colourable, watch),
        Allocation::Spilled => spilled(alloc, colourable.into_rtl(), watch),
        Allocation::Given(ltl) => {
            accepted(alloc, colourable.into_rtl(), Allocator::Given, ltl, watch)
        }
    }
}

// The piece made from validated LTL.
fn emitted<W: Watch>(alloc: Global, pair: LtlPair, watch: &mut W) -> Result<Piece, AllocError>
    ensures mode { IfOk result (λ piece. piece.mode ≡ pair.mode) }
    ensures unit { IfOk result (λ piece. piece.unit ≡ pair.unit) }
    ensures function { IfOk result (λ piece. piece.function ≡ pair.function) }
{
    watch.see(Seen::Validated(pair.code()))?;
    let linear = match linearise(alloc, pair) {
        Ok(linear) => linear,
        Err(_) => return Err(AllocError),
    };
    watch.see(Seen::Linear(&linear))?;
    let selected = select(alloc, linear)?;
    watch.see(Seen::Selected(&selected))?;
    emit(alloc, selected)
}

/// The piece made from a function's RTL. It fails as the validator does, or if memory runs out.
pub(crate) fn finished<W: Watch>(
    alloc: Global,
    colourable: Colourable,
    allocation: Allocation,
    watch: &mut W,
) -> Result<Piece, ValidateFault>
    ensures mode { IfOk result (λ piece. piece.mode ≡ colourable.rtl.mode) }
    ensures unit { IfOk result (λ piece. piece.unit ≡ colourable.rtl.unit) }
    ensures function { IfOk result (λ piece. piece.function ≡ colourable.rtl.function) }
{
    match allocated(alloc, colourable, allocation, watch) {
        Ok(ltl) => match emitted(alloc, ltl, watch) {
            Ok(piece) => Ok(piece),
            Err(_) => Err(ValidateFault::OutOfMemory),
        },
        Err(fault) => Err(fault),
    }
}
