// The sources of a script's next commands, handed to the workers before their turn.
//
// They are found in what the script's reader has already given. Nothing is read to find them, so a script that somebody types
// line by line is answered line by line. A source that was handed in is a hint: at the command's turn, its source is compared
// with the hint. A hint is ignored if it was refused, if memory ran out for it, or if its worker is gone. So the answers and
// their order are the same as if the sources were compiled one by one.

ghost use Rattle.std.specs.Prelude.{◌≡◌, IfOk, IfSome};

use cc_disk::Disk;
use cc_link::Mode;
use cc_script::{Dialect, LINE_BYTES, ScriptCommand, command_of};
use cc_service::{Client, Named, Prepared, Service, ServiceFault};
use std::alloc::Global;
use std::collections::VecDeque;
use std::sync::Wait;

/// At most this many sources are handed in before their turn.
const MOST_SOURCES: usize = 4;

/// Once the handed-in sources have this many functions, no further source is handed in.
const ENOUGH_FUNCTIONS: usize = 16;

// A source that was handed in, and how many bytes of the script will have been read once the source and its newline are read.
#[derive(Drop)]
struct Hint<N: Named> {
    at: usize,
    prepared: Prepared<N>,
}

// The sources that were handed in, in the order of their commands.
#[derive(Drop)]
pub(crate) struct Hints<N: Named> {
    hints: VecDeque<Hint<N>>,
    // The script was looked through up to this byte.
    looked: usize,
}

// The line that begins at a byte, without its newline; none if the whole line is not there yet, or is too long.
fn line_at(held: &[u8], begin: usize) -> Option<&[u8]> {
    let rest = held.get(begin..).unwrap_or(b"");
    let few = rest.get(..=LINE_BYTES).unwrap_or(rest);
    match few.iter().position(|byte| *byte == b'\n') {
        Some(end) => few.get(..end),
        None => None,
    }
}

// The beginning and the end of the next source that is there as a whole, with the newline after it.
fn next_source(held: &[u8], from: usize) -> Option<(usize, usize)> {
    let mut begin = from;
    for _ in 0..held.len() {
        let Some(line) = line_at(held, begin) else {
            return None;
        };
        let next = begin.saturating_add(line.len()).saturating_add(1);
        match command_of(Dialect::Served, line) {
            Some(ScriptCommand::Add { name: _, length })
            | Some(ScriptCommand::Replace { name: _, length }) => {
                let end = next.saturating_add(length);
                return match held.get(end) {
                    Some(byte) if *byte == b'\n' => Some((next, end)),
                    _ => None,
                };
            }
            Some(
                ScriptCommand::Update {
                    name: _,
                    expected,
                    length,
                },
            ) => {
                let second = next.saturating_add(expected).saturating_add(1);
                begin = second.saturating_add(length).saturating_add(1);
            }
            Some(
                ScriptCommand::Call {
                    name: _,
                    steps: _,
                    length,
                },
            ) => begin = next.saturating_add(length).saturating_add(1),
            _ => begin = next,
        }
    }
    None
}

impl<N: Named + Send + Sync + 'static> Hints<N> {
    pub(crate) fn new(alloc: Global) -> Hints<N> {
        Hints {
            hints: VecDeque::new(alloc),
            looked: 0,
        }
    }

    // Drops all hints.
    pub(crate) fn forget(&mut self) {
        self.hints.clear();
    }

    // Whether no more sources are to be handed in.
    fn is_full(&self) -> bool {
        let mut functions = 0usize;
        for hint in self.hints.iter() {
            functions = functions.saturating_add(hint.prepared.functions());
        }
        MOST_SOURCES <= self.hints.len() || ENOUGH_FUNCTIONS <= functions
    }

    // The hint for the source that was read up to here, if it is a hint for this source. The hints for earlier commands are
    // dropped.
    pub(crate) fn take(&mut self, mode: Mode, at: usize, source: &[u8]) -> Option<Prepared<N>>
        ensures text { IfSome result (λ prepared. prepared.text ≡ source.now) }
        ensures mode { IfSome result (λ prepared. prepared.mode ≡ mode) }
    {
        for _ in 0..self.hints.len() {
            match self.hints.front() {
                Some(hint) if hint.at <= at => {}
                _ => return None,
            }
            let Some(Hint { at: its, prepared }) = self.hints.pop_front() else {
                return None;
            };
            if its == at && prepared.mode() == mode && prepared.text() == source {
                return Some(prepared);
            }
            drop(prepared);
        }
        None
    }

    // A text that the workers have, for a source that was read up to here: as it was handed in before its turn, or is now.
    pub(crate) fn begun<H: Wait, D: Disk>(
        &mut self,
        rt: &H,
        alloc: Global,
        service: &Service<N, D>,
        client: &mut Client<N>,
        mode: Mode,
        at: usize,
        source: &[u8],
    ) -> Result<Prepared<N>, ServiceFault>
        ensures text { IfOk result (λ prepared. prepared.text ≡ source.now) }
        ensures mode { IfOk result (λ prepared. prepared.mode ≡ mode) }
        ensures member { client.new.member ≡ client.old.member }
    {
        match self.take(mode, at, source) {
            Some(prepared) => Ok(prepared),
            None => service.prepare_in(rt, alloc, client, mode, source),
        }
    }

    // Hands the sources of the next commands to the workers, for a script that was read up to here, unless some client waits for
    // them. `held` is the part of the rest that has been read already.
    pub(crate) fn look_ahead<H: Wait, D: Disk>(
        &mut self,
        rt: &H,
        alloc: Global,
        service: &Service<N, D>,
        client: &mut Client<N>,
        mode: Mode,
        at: usize,
        held: &[u8],
    )
        ensures { client.new.member ≡ client.old.member }
    {
        if service.is_busy() {
            return;
        }
        self.looked = self.looked.max(at);
        for _ in 0..MOST_SOURCES {
            if self.is_full() {
                return;
            }
            let Some((begin, end)) = next_source(held, self.looked.saturating_sub(at)) else {
                return;
            };
            self.looked = at.saturating_add(end).saturating_add(1);
            let source = held.get(begin..end).unwrap_or(b"");
            self.hand_in(rt, alloc, service, client, mode, source);
        }
    }

    // Hands in a source to the workers; the script was looked through up to the newline after it.
    fn hand_in<H: Wait, D: Disk>(
        &mut self,
        rt: &H,
        alloc: Global,
        service: &Service<N, D>,
        client: &mut Client<N>,
        mode: Mode,
        source: &[u8],
    )
        ensures { client.new.member ≡ client.old.member }
    {
        match service.prepare_in(rt, alloc, client, mode, source) {
            Ok(prepared) => {
                let at = self.looked;
                let _ = self.hints.push_back(Hint { at, prepared });
            }
            Err(fault) => drop(fault),
        }
    }
}
