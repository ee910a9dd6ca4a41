// How a client of a service runs a script, or the scripts of a spool one after another.

ghost use Rattle.std.specs.Prelude.{◌≡◌, ◌++◌, ◌∷◌, []};
ghost use Rattle.cc_spool.specs.Spool.{Delivered, taken_as};
ghost use Rattle.cc_session.specs.Playing.{Grows, IsPlayedBy, talk};
ghost use Rattle.cc_session.specs.Spooling.{HasDone, IsDoneBy, given_by};
ghost use Rattle.cc_session.specs.internal.Ends.{EndOf};

use crate::bounds::Meter;
use crate::calls::{Player, tell_halt};
use crate::patience::{Others, Patience, Unhurried};
use crate::reading::Reading;
use cc_disk::Disk;
use cc_link::Mode;
use cc_script::{Dialect, ScriptFault};
use cc_service::{Client, Named, Service};
use cc_spool::Spool;
use std::alloc::Global;
use std::io::{self, Read, Write};
use std::sync::Wait;

// At most this many lines of a script from a spool are done. So even a script whose lines are all refused occupies its client for
// a bounded time.
const MOST_LINES: usize = 65_536;

/// Does what a script asks for, in a mode, with a client of a service, up to the script's end or a fault that ends it, 51 to 54.
/// The line of that fault is then written. If that line can't be written the fault is 54, which has no line. Clients on other
/// threads may run their scripts on the same service.
///
/// The script comes from `reader`; each answer goes to `writer`, which is flushed after it: at the end it holds the lines of the
/// script's turns, in order, and no other byte. Explanations of faults for a person go to `explanations`; if such a write fails
/// the script goes on. `dialect` says which lines the script may have. If there is a bound on its lines, `most`, at most that
/// many are done, and 52 ends a script that has more (if the bound is 0, every script that has a byte). A line and the source
/// after it count as one line, whatever is answered. 52 also ends such a script after the line that brings the client's receipts
/// for it above 256 MiB (`held_since` of `Client`), if the script goes on after that.
pub fn play<N, H, R: Read, W: Write, E: Write, D>(
    rt: &H,
    alloc: Global,
    mode: Mode,
    service: &Service<N, D>,
    client: &mut Client<N>,
    reader: &mut R,
    writer: &mut W,
    explanations: &mut E,
    dialect: Dialect,
    most: Option<usize>,
) -> Result<(), ScriptFault>
where
    N: Named + Send + Sync + 'static,
    H: Wait,
    D: Disk,
    ensures played { IsPlayedBy mode dialect most (R.remaining reader.old) (talk client.old.member (W.contents writer.old)) (talk client.new.member (W.contents writer.new)) result }
    ensures grows { Grows client.old.member client.new.member }
{
    let player = Player {
        rt,
        alloc,
        service,
        mode,
        most,
        patience: &Unhurried,
    };
    let halted = player.play(
        client,
        &mut Reading::new(reader),
        dialect,
        writer,
        explanations,
    );
    tell_halt(halted, writer, explanations)
}

// The number of the fault that ended a script.
fn end_of(played: Result<(), ScriptFault>) -> Option<u32>
    ensures { EndOf played result }
{
    match played {
        Ok(()) => None,
        Err(fault) => Some(fault.number()),
    }
}

// Whether no further script of a spool is to be taken.
fn is_closing<S: Spool>(spool: &mut S, meter: &Meter) -> bool
    ensures taken { S.taken spool.new ≡ S.taken spool.old }
    ensures ended { S.ended spool.new ≡ S.ended spool.old }
{
    spool.is_over() || meter.is_full()
}

/// Does the scripts of a spool in a mode one after another, with one client of a service, until the spool says that no more are
/// to be taken, or the meter that all clients of the service share is full. At most 65,536 lines of each script are done, and
/// none after those whose receipts hold more than 256 MiB; if a script has more, its answer ends with the line for 52.
///
/// A script that has run for long and is not at its end ends with 61 after its current line, or within a `run`, if others wait
/// (`is_long`, `is_awaited`) or the meter is full.
///
/// A fault that ends a script, 51 to 54 or 61, ends only that script: its answer is handed over with the fault's number, and the
/// next is taken. The line of the fault is the answer's last, but 54 has no line: the spool decides what becomes of an answer
/// that can't be written.
pub fn attend<N, H, S, D>(
    rt: &H,
    alloc: Global,
    mode: Mode,
    service: &Service<N, D>,
    client: &mut Client<N>,
    spool: &mut S,
    meter: &Meter,
)
where
    N: Named + Send + Sync + 'static,
    H: Wait,
    S: Spool,
    D: Disk,
    ensures { HasDone mode (given_by S.taken S.ended spool.old) client.old.member (given_by S.taken S.ended spool.new) client.new.member }
{
    for _ in rt.forever() {
        if is_closing(spool, meter) {
            break;
        }
        let Some((mut text, mut answer)) = spool.next() else {
            continue;
        };
        // The meter counts a script from when it was taken until its answer is handed over, with the receipts that it brought.
        meter.begin_script();
        let seen = client.receipts().len();
        let others = Others {
            spool: &*spool,
            meter,
        };
        let player = Player {
            rt,
            alloc,
            service,
            mode,
            most: Some(MOST_LINES),
            patience: &others,
        };
        let mut script = Reading::new(&mut text);
        let halted = player.play(
            client,
            &mut script,
            Dialect::Served,
            &mut answer,
            &mut io::sink(),
        );
        drop(script);
        let played = tell_halt(halted, &mut answer, &mut io::sink());
        spool.deliver(text, answer, end_of(played));
        let entries = client.receipts().len().saturating_sub(seen);
        meter.end_script(entries as u64, client.held_since(seen));
    }
}
