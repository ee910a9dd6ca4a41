// The allocator, in its steps: webs, their interferences, the order of Chaitin and Briggs, registers according to wishes, slots,
// blocks.
//
// At first all webs are whole. Then webs are cut at calls: first those for which a slot over the calls costs no more than a
// saved register, later those that calls keep and that got no register. If a value in a slot has to go through a register and
// none is free, everything is chosen again, with two registers that no web gets.

use crate::blocks::{Placed, blocks};
use crate::interference::{Code, Graph, Partner, Web};
use crate::live::Live;
use crate::nodes::{Shape, next_places, sole_places, weights};
use crate::order::colouring_order;
use crate::places::Places;
use crate::registers::only;
use crate::select::{Choice, SAVING};
use crate::spill::spill_all;
use crate::webs::{Cuts, Origins, Webs};
use cc_live::Liveness;
use cc_ltl::{Block, Ltl};
use cc_rtl_language::Rtl;
use std::alloc::{AllocError, Global};

/// Registers are chosen for cut webs at most this many times. After the last, no more webs are cut.
const ROUNDS: u32 = 3;

/// LTL for the function. Pseudo-registers share registers, and get slots if the registers do not suffice or if a slot is
/// cheaper. `live` should be the live sets; whatever it is, there is an answer. If something is too large for this allocator,
/// the answer is that of `spill_all`. `Err` if memory runs out.
pub fn colour(alloc: Global, rtl: &Rtl, live: &Liveness) -> Result<Ltl, AllocError> {
    let next = next_places(alloc, rtl)?;
    let weights = weights(alloc, next.as_slice())?;
    let shape = Shape {
        rtl,
        live: Live::of(live),
        next: next.as_slice(),
        weights: weights.as_slice(),
    };
    match coloured(alloc, &shape)? {
        Some(ltl) => Ok(ltl),
        None => spill_all(alloc, rtl),
    }
}

fn coloured(alloc: Global, shape: &Shape<'_>) -> Result<Option<Ltl>, AllocError> {
    match Webs::of(alloc, shape, None)? {
        None => Ok(None),
        Some(webs) => coloured_whole(alloc, Code { shape, webs: &webs }),
    }
}

// The webs of a function, whole or cut, with their graph.
#[derive(Clone, Copy)]
struct Known<'a> {
    code: Code<'a>,
    graph: &'a Graph,
}

fn coloured_whole(alloc: Global, code: Code<'_>) -> Result<Option<Ltl>, AllocError> {
    let graph = Graph::of(alloc, code)?;
    let whole = Known {
        code,
        graph: &graph,
    };
    let mut cut = Vec::with_capacity(alloc, graph.webs.len())?;
    for web in &graph.webs {
        cut.push(is_cheap_to_cut(&graph, web))?;
    }
    for round in 1..=ROUNDS {
        let answer = coloured_cut(alloc, whole, cut.as_mut_slice(), round < ROUNDS)?;
        if let Some(ltl) = answer {
            return Ok(Some(ltl));
        }
    }
    Ok(None)
}

// Whether keeping a web over its calls costs no more in a slot than in a saved register.
fn is_cheap_to_cut(graph: &Graph, web: &Web) -> bool {
    if web.kept == 0 {
        return false;
    }
    let mut moves = 0u32;
    let mut at = web.last_wish;
    for _ in 0..graph.wishes() {
        let Some(wished) = graph.wished(at) else {
            break;
        };
        at = wished.before;
        if let Partner::Register(_) = wished.wish.partner {
            moves = moves.saturating_add(wished.wish.weight);
        }
    }
    let by_slot = web.kept.saturating_add(web.kept.min(web.set));
    by_slot <= moves.saturating_add(SAVING)
}

// Like `coloured_whole`, but with some webs cut; if none is cut, the pieces are the whole webs. If more webs should be cut, they
// are marked, and the answer is None. If there are too many pieces, all marks are cleared and the answer is None.
fn coloured_cut(
    alloc: Global,
    whole: Known<'_>,
    cut: &mut [bool],
    may_cut: bool,
) -> Result<Option<Ltl>, AllocError> {
    if !cut.contains(&true) {
        return coloured_pieces(alloc, whole, whole, Origins::same(alloc), cut, may_cut);
    }
    let cuts = Cuts {
        whole: whole.code.webs,
        cut,
    };
    match Webs::of(alloc, whole.code.shape, Some(cuts))? {
        None => {
            for is_cut in cut.iter_mut() {
                *is_cut = false;
            }
            Ok(None)
        }
        Some(webs) => {
            let shape = whole.code.shape;
            let code = Code { shape, webs: &webs };
            let graph = Graph::of(alloc, code)?;
            let pieces = Known {
                code,
                graph: &graph,
            };
            let origins = webs.origins(alloc, whole.code.webs)?;
            coloured_pieces(alloc, whole, pieces, origins, cut, may_cut)
        }
    }
}

fn coloured_pieces(
    alloc: Global,
    whole: Known<'_>,
    pieces: Known<'_>,
    origins: Origins,
    cut: &mut [bool],
    may_cut: bool,
) -> Result<Option<Ltl>, AllocError> {
    let Known { code, graph } = pieces;
    for reserved in [0, only(28) | only(29)] {
        let order = colouring_order(alloc, graph, reserved)?;
        let choice = Choice::of(alloc, graph, order.as_slice(), reserved)?;
        if may_cut && cut_more(whole.graph, &choice, order.as_slice(), &origins, cut) {
            drop(choice);
            return Ok(None);
        }
        let places = Places::of(alloc, code, graph, whole.graph, choice, &origins)?;
        let sole = match places.count() {
            0 => Vec::new(alloc),
            _ => sole_places(alloc, code.shape.next)?,
        };
        let placed = Placed {
            code,
            places: &places,
            sole: sole.as_slice(),
        };
        if let Some(blocks) = blocks(alloc, placed)? {
            return Ok(function(places.count(), code.shape.rtl.entry(), blocks));
        }
    }
    Ok(None)
}

// Marks each whole web that calls keep and that has a piece without the register that it should have. Answers whether it marked
// any.
fn cut_more(
    whole: &Graph,
    choice: &Choice,
    order: &[u32],
    origins: &Origins,
    cut: &mut [bool],
) -> bool {
    let mut any = false;
    for web in order {
        let origin = origins.of(*web) as usize;
        if choice.register(*web).is_none()
            && let Some(known) = whole.webs.get(origin)
            && let Some(is_cut) = cut.get_mut(origin)
            && known.kept > 0
            && !*is_cut
        {
            *is_cut = true;
            any = true;
        }
    }
    any
}

fn function(slots: u16, entry: u32, blocks: Vec<Block>) -> Option<Ltl> {
    match Ltl::new(slots, entry, blocks) {
        Ok(ltl) => Some(ltl),
        Err(blocks) => {
            drop(blocks);
            None
        }
    }
}
