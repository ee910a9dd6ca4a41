// What a worker does.

use crate::ends::Ends;
use crate::gate::Gate;
use crate::item::Item;
use crate::named::Queued;
use crate::seats::Taker;
use crossbeam_channel::Sender;
use std::alloc::Global;
use std::sync::Wait;

// Makes pieces until a stop item comes, and then hands the worker's pass back. Nothing else ends the loop: a receive that
// fails is tried again.
pub(crate) fn work<N: Queued, G: Gate, R: Wait>(
    rt: &R,
    alloc: Global,
    ends: &Ends<N>,
    mut taker: Taker<N>,
    gate: &G,
    back: &Sender<Taker<N>>,
) {
    for _ in rt.forever() {
        match taker.take(rt, ends) {
            Some(Item::Piece(order)) => order.fill(rt, alloc, gate),
            Some(Item::Stop) => break,
            None => {}
        }
    }
    drop(back.send(rt, taker));
}
