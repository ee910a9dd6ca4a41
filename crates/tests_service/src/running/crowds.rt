// Sixteen clients in threads of their own, whose history is replayed against the model.

use super::reading::number;
use super::starting::{ALL, Fused, ended};
use super::trial::{Trial, succeeds};
use crate::helpers::{NAMES, TEXTS, bytes_at};
use crate::model::{replayed, shows};
use cc_pool::NoGate;
use cc_service::{Client, Named};
use std::alloc::Global;
use std::sync::Wait;
use std::test::Fail;
use std::thread;
use std::thread::Threads;

const CLIENTS: usize = 16;

/// How many calls each client makes.
const CALLS: u64 = 500;

#[test]
fn sixteen_clients(rt: HostRuntime) -> Result<(), Fail> {
    succeeds(&rt, rt.alloc(), ALL, 4, NoGate, Trial::SixteenClients)
}

/// Whether the calls of all clients are in one history with which the model agrees, and the library at the end is the
/// model's.
pub fn are_replayed<N, R>(rt: &R, alloc: Global, service: Fused<N>) -> Result<bool, Fail>
where
    N: Named + Send + Sync + 'static,
    R: Threads + Wait + Copy + Send + Sync + 'static,
{
    let mut clients = Vec::new(alloc);
    for _ in 0..CLIENTS {
        clients.push(service.client(rt, alloc)?)?;
    }
    let shared = &service;
    let done = thread::map_vec(rt, clients, &|client| calls(rt, alloc, shared, client))?;
    let mut back = Vec::new(alloc);
    let mut right = true;
    for (client, expected) in done {
        right = right && expected;
        back.push(client)?;
    }
    let closed = ended(rt, alloc, service, back)?;
    match replayed(closed.history.as_slice(), closed.receipts.as_slice()) {
        Some(model) => Ok(right && shows(alloc, &closed.library, &model)?),
        None => Ok(false),
    }
}

// The client after its calls, and whether each was answered with a receipt, or refused for lack of room, after which the
// library is compacted.
fn calls<N, R>(
    rt: &R,
    alloc: Global,
    service: &Fused<N>,
    mut client: Client<N>,
) -> (Client<N>, bool)
where
    N: Named + Send + Sync + 'static,
    R: Wait,
{
    let mut full = 0usize;
    let mut right = true;
    for turn in 0..CALLS {
        let answer = call(rt, alloc, service, &mut client, turn);
        if answer == 34 {
            full = full.saturating_add(1);
            right = right && number(service.compact(rt, alloc)) == 0;
        } else {
            right = right && (answer == 0 || answer == 31 || answer == 32);
        }
    }
    let counted = client.receipts().len().saturating_add(full) == CALLS as usize;
    (client, right && counted)
}

// The number of the answer to one of the client's calls.
fn call<N, R>(rt: &R, alloc: Global, service: &Fused<N>, client: &mut Client<N>, turn: u64) -> u32
where
    N: Named + Send + Sync + 'static,
    R: Wait,
{
    let mixed = client.number().wrapping_mul(7).wrapping_add(turn);
    let name = bytes_at(&NAMES, (mixed % 3) as usize);
    let text = bytes_at(&TEXTS, (mixed / 15 % 3) as usize);
    match mixed % 5 {
        0 => number(service.add(rt, alloc, client, name, text)),
        1 => number(service.replace(rt, alloc, client, name, text)),
        2 => number(service.withdraw(rt, alloc, client, name)),
        3 => number(service.get(rt, alloc, client, name)),
        _ => number(service.list(rt, alloc, client)),
    }
}
