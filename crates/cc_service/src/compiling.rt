// How the workers of a pool compile a text to a unit: its functions are handed in first, and their pieces are collected later. No lock is
// held here.

ghost use Rattle.std.specs.Prelude.{◌≡◌, List, length, All, IfErr, IfOk};
ghost use Rattle.std.specs.Arc.{arc_value};
ghost use Rattle.cc_ast.specs.Source.{source};
ghost use Rattle.cc_ast.specs.Tree.{External};
ghost use Rattle.cc_types.specs.Typed.{defined_names};
ghost use Rattle.cc_link.specs.Agree.{Agree, AgreeIn};
ghost use Rattle.cc_link.specs.Made.{IsCompiled};
ghost use Rattle.cc_link.specs.Meaning.{functions};
ghost use Rattle.cc_link.specs.Pieces.{AreFromIn};
ghost use Rattle.cc_link.specs.Text.{IsProgramText};
ghost use Rattle.cc_service.specs.Compiling.{HasHandedIn, HasSentFor, IsCompileRefusal, IsNotPrepared, IsPastText, IsProgram};

use crate::fault::ServiceFault;
use crate::named::Named;
use cc_emit::Piece;
use cc_link::{CompiledUnit, LinkFault, Mode, link_pieces_in, typed_unit};
use cc_pool::{Pass, Pool, PoolFault, Ticket};
use cc_types::TypedUnit;
use std::alloc::Global;
use std::marker::{Model, PhantomData};
use std::sync::{Arc, Wait};

/// A program's text whose functions were handed to the workers of a service, for a `put_prepared` of that service. Contracts see the mode
/// and the text. If this value is dropped, the text is compiled in vain, and nobody waits for it.
pub struct Prepared<N: Named> {
    mode: Mode,
    unit: Arc<TypedUnit>,
    ticket: Ticket,
    of: PhantomData<N>,
}

// Written by hand, so that the crates above call it instead of proving again how each part is dropped.
impl<N: Named> Drop for Prepared<N> {
    fn drop(self) {
        let Prepared {
            mode,
            unit,
            ticket,
            of: _,
        } = self;
    }
}

impl<N: Named> Model for Prepared<N> {
    ghost use Rattle.std.specs.Prelude.{◌≡◌, List, length};
    ghost use Rattle.std.specs.Arc.{arc_value};
    ghost use Rattle.cc_ast.specs.Source.{source};
    ghost use Rattle.cc_types.specs.Typed.{defined_names};
    ghost use Rattle.cc_link.specs.Text.{IsProgramText};
    ghost use Rattle.cc_service.specs.Compiling.{Handed};

    ghost Value = { Handed };

    ghost view = { λ p. record { mode = p.mode; text = (source (arc_value p.unit)).text } };

    ghost invariant = { λ p. IsProgramText (source (arc_value p.unit)).text (source (arc_value p.unit)).externals
        × (p.ticket.text ≡ (source (arc_value p.unit)).text) × (p.ticket.mode ≡ p.mode) × (p.ticket.functions ≡ length (defined_names (source (arc_value p.unit)))) };
}

impl<N: Named> Prepared<N> {
    /// The text. The call needs no memory.
    pub fn text(&self) -> &[u8]
        ensures { result.now ≡ self.now.text }
    {
        self.unit.text()
    }

    /// The mode in which code was asked for. The call needs no memory.
    pub fn mode(&self) -> Mode
        ensures { result ≡ self.now.mode }
    {
        self.mode
    }

    /// The number of its functions. The call needs no memory.
    pub fn functions(&self) -> usize
        ensures { (tree : List External) × IsProgramText self.now.text tree × (result ≡ length (functions tree)) }
    {
        self.unit.functions()
    }
}

// Hands the functions of a text to the workers, for code in a mode.
pub(crate) fn begun<N: Named + Send + Sync + 'static, R: Wait>(
    rt: &R,
    alloc: Global,
    pool: &Pool<N>,
    pass: &mut Pass<N>,
    mode: Mode,
    source: &[u8],
) -> Result<Prepared<N>, ServiceFault>
    ensures text { IfOk result (λ prepared. prepared.text ≡ source.now) }
    ensures mode { IfOk result (λ prepared. prepared.mode ≡ mode) }
    ensures handed { IfOk result (λ _. HasHandedIn source.now pass.old.sent pass.new.sent) }
    ensures refused { IfErr result (λ fault. IsNotPrepared source.now fault) }
    ensures sent { HasSentFor source.now pass.old.sent pass.new.sent }
{
    match typed_unit(alloc, source) {
        Ok(unit) => handed_in(rt, alloc, pool, pass, mode, unit),
        Err(fault) => Err(ServiceFault::Text(fault)),
    }
}

// Hands the functions of a unit to the workers.
fn handed_in<N: Named + Send + Sync + 'static, R: Wait>(
    rt: &R,
    alloc: Global,
    pool: &Pool<N>,
    pass: &mut Pass<N>,
    mode: Mode,
    unit: Arc<TypedUnit>,
) -> Result<Prepared<N>, ServiceFault>
    requires program { IsProgramText (source (arc_value unit)).text (source (arc_value unit)).externals }
    ensures text { IfOk result (λ prepared. prepared.text ≡ (source (arc_value unit)).text) }
    ensures mode { IfOk result (λ prepared. prepared.mode ≡ mode) }
    ensures handed { IfOk result (λ _. HasHandedIn (source (arc_value unit)).text pass.old.sent pass.new.sent) }
    ensures refused { IfErr result (λ fault. IsNotPrepared (source (arc_value unit)).text fault) }
    ensures sent { HasSentFor (source (arc_value unit)).text pass.old.sent pass.new.sent }
{
    let Ok(theirs) = Arc::try_clone(&unit) else {
        return Err(ServiceFault::OutOfMemory);
    };
    match pool.submit_in(rt, alloc, pass, mode, theirs) {
        Ok(ticket) => Ok(Prepared {
            mode,
            unit,
            ticket,
            of: PhantomData,
        }),
        Err(PoolFault::OutOfMemory) => Err(ServiceFault::OutOfMemory),
        Err(_) => Err(ServiceFault::WorkersGone),
    }
}

impl<N: Named + Send + Sync + 'static> Prepared<N> {
    // Waits for the pieces of the text's functions, and links them.
    pub(crate) fn unit<R: Wait>(
        self,
        rt: &R,
        alloc: Global,
        pool: &Pool<N>,
    ) -> Result<CompiledUnit, ServiceFault>
        ensures source { IfOk result (λ unit. unit.source ≡ self.text) }
        ensures agrees { IfOk result (λ unit. Agree unit.source unit.image) }
        ensures follows { IfOk result (λ unit. AgreeIn self.mode unit.source unit.image) }
        ensures program { IsProgram self.text }
        ensures refused { IfErr result (λ fault. IsCompileRefusal self.mode self.text fault) }
        ensures past_text { IfErr result (λ fault. IsPastText fault) }
    {
        let Prepared {
            mode,
            unit,
            ticket,
            of: _,
        } = self;
        match collected(rt, alloc, pool, ticket) {
            Ok(pieces) => linked(alloc, mode, &unit, pieces),
            Err(fault) => Err(fault),
        }
    }
}

// The pieces of a job's functions, one for each, in order.
fn collected<N: Named + Send + Sync + 'static, R: Wait>(
    rt: &R,
    alloc: Global,
    pool: &Pool<N>,
    ticket: Ticket,
) -> Result<Vec<Piece>, ServiceFault>
    requires program { IsProgram ticket.text }
    ensures count { IfOk result (λ pieces. length pieces.items ≡ ticket.functions) }
    ensures own { IfOk result (λ pieces. AreFromIn ticket.mode ticket.text 0 pieces.items) }
    ensures compiled { IfOk result (λ pieces. All IsCompiled pieces.items) }
    ensures refused { IfErr result (λ fault. IsCompileRefusal ticket.mode ticket.text fault) }
    ensures past_text { IfErr result (λ fault. IsPastText fault) }
{
    match pool.collect(rt, alloc, ticket) {
        Ok(pieces) => Ok(pieces),
        Err(PoolFault::Piece { function, fault }) => Err(ServiceFault::Piece { function, fault }),
        Err(PoolFault::WorkersGone) => Err(ServiceFault::WorkersGone),
        Err(PoolFault::OutOfMemory) => Err(ServiceFault::OutOfMemory),
    }
}

// Links the pieces of a unit's functions in a mode to a compiled unit.
fn linked(
    alloc: Global,
    mode: Mode,
    unit: &Arc<TypedUnit>,
    pieces: Vec<Piece>,
) -> Result<CompiledUnit, ServiceFault>
    requires program { IsProgramText (source (arc_value unit.now)).text (source (arc_value unit.now)).externals }
    requires count { length pieces.items ≡ length (defined_names (source (arc_value unit.now))) }
    requires own { AreFromIn mode (source (arc_value unit.now)).text 0 pieces.items }
    requires compiled { All IsCompiled pieces.items }
    ensures source { IfOk result (λ made. made.source ≡ (source (arc_value unit.now)).text) }
    ensures agrees { IfOk result (λ made. Agree made.source made.image) }
    ensures follows { IfOk result (λ made. AgreeIn mode made.source made.image) }
    ensures refused { IfErr result (λ fault. IsCompileRefusal mode (source (arc_value unit.now)).text fault) }
    ensures past_text { IfErr result (λ fault. IsPastText fault) }
{
    match link_pieces_in(alloc, mode, unit, pieces) {
        Ok(made) => {
            let _kept = made.stored();
            Ok(made)
        }
        Err(LinkFault::ImageTooLarge) => Err(ServiceFault::ImageTooLarge),
        Err(LinkFault::OutOfMemory) => Err(ServiceFault::OutOfMemory),
        // There is exactly one piece for each function.
        Err(LinkFault::Missing { .. }) => unreachable!(),
        Err(LinkFault::Doubled { .. }) => unreachable!(),
        Err(LinkFault::Stranger { .. }) => unreachable!(),
    }
}
