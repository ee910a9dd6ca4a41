// What a run reads and writes, in the order in which it does.
//
// The interpreter keeps its reads and writes itself. A machine keeps only the words that it writes; so it runs up to each
// instruction that reads, and then executes that one alone.

ghost use Rattle.std.specs.Prelude.{◌≡◌, ◌<◌, ◌++◌, IfOk, IfSome, OnOk, map, unwrap_or};
ghost use Rattle.std.specs.Io.KnownBytes.{Appends};
ghost use Rattle.cc_ast.specs.Source.{source};
ghost use Rattle.cc_c_semantics.specs.Meaning.{observed_behavior};
ghost use Rattle.cc_meaning.specs.declared.outcome.Event.TheVariants as event;
ghost use Rattle.cc_meaning.specs.Erase.{stop_tree};
ghost use Rattle.cc_rv32.specs.Machine.{observed_machine};
ghost use Rattle.cc_steps.specs.internal.Going.{Went};
ghost use Rattle.cc_steps.specs.Observed.{after_exchange, exchange_of, exchange_text, exchanged, exchanges_text, IsExchanged};

use cc_meaning::{Event, MeaningFault, Stop, interpret_observed};
use cc_rv32::image::Image;
use cc_rv32::machine::Machine;
use cc_rv32::outcome::MachineOutcome;
use cc_types::TypedUnit;
use std::alloc::{AllocError, Global};
use std::io::{self, Write};

/// A word that a run read or wrote.
#[derive(Clone, Copy, Debug, Drop, PartialEq, Eq)]
pub enum Exchange {
    /// The word that it read: the next one of its input, or 0 past the input's end.
    Read(u32),
    /// The word that it wrote.
    Wrote(u32),
}

/// What a program read and wrote, and how it ended.
#[derive(Drop)]
pub struct ObservedOutcome {
    pub exchanges: Vec<Exchange>,
    pub stop: Stop,
}

/// What an image read and wrote, and how its run ended.
#[derive(Drop)]
pub struct ObservedRun {
    pub exchanges: Vec<Exchange>,
    pub outcome: MachineOutcome,
}

// The word of an event, and the input after it.
fn exchange_of(event: Event, input: &[u32]) -> (Exchange, &[u32])
    ensures word { result.0 ≡ exchange_of event input.now }
    ensures rest { result.1.now ≡ after_exchange event input.now }
{
    match event {
        Event::Read => match input.split_first() {
            Some((word, rest)) => (Exchange::Read(*word), rest),
            None => (Exchange::Read(0), input),
        },
        Event::Wrote(word) => (Exchange::Wrote(word), input),
    }
}

// The words of events on an input.
fn with_words(alloc: Global, events: &[Event], input: &[u32]) -> Result<Vec<Exchange>, AllocError>
    ensures { IfOk result (λ all. all.items ≡ exchanged events.now input.now) }
{
    let mut all = Vec::with_capacity(alloc, events.len())?;
    let mut rest = input;
    for event in events {
        let (next, behind) = exchange_of(*event, rest);
        all.push(next)?;
        rest = behind;
    }
    Ok(all)
}

/// What a program reads and writes on the words of an input within `steps` steps, and how it ends. Fails with 40 if memory runs
/// out.
pub fn interpret_exchanges(
    alloc: Global,
    unit: &TypedUnit,
    input: &[u32],
    steps: u64,
) -> Result<ObservedOutcome, MeaningFault>
    ensures stop { IfOk result (λ done. stop_tree done.stop ≡ (observed_behavior (source unit.now) input.now steps).stop) }
    ensures exchanges { IfOk result (λ done. IsExchanged (observed_behavior (source unit.now) input.now steps).output input.now done.exchanges.items) }
{
    let done = match interpret_observed(alloc, unit, input, steps) {
        Ok(done) => done,
        Err(fault) => return Err(fault),
    };
    match with_words(alloc, done.events.as_slice(), input) {
        Ok(exchanges) => Ok(ObservedOutcome {
            exchanges,
            stop: done.stop,
        }),
        Err(_) => Err(MeaningFault::OutOfMemory),
    }
}

// Appends an event for each of these words.
fn push_words(words: &[u32], events: &mut Vec<Event>) -> Result<(), AllocError>
    ensures { OnOk result (events.new.items ≡ events.old.items ++ map event.Wrote words.now) }
{
    for word in words {
        events.push(Event::Wrote(*word))?;
    }
    Ok(())
}

// Runs a machine on, for at most this many instructions, and keeps what it reads and writes. If it has come to an instruction that
// reads, it executes that one too. Returns how many instructions are left then, and otherwise `None`.
fn go_on(
    machine: &mut Machine,
    left: u64,
    events: &mut Vec<Event>,
) -> Result<Option<u64>, AllocError>
    ensures went { IfOk result (λ rest. Went left (unwrap_or rest 0) machine.old events.old.items machine.new events.new.items) }
    ensures less { IfOk result (λ rest. IfSome rest (λ n. n < left)) }
{
    let known = machine.output().len();
    let Ok(stop) = machine.run_to_read(left) else {
        return Err(AllocError);
    };
    push_words(&machine.output()[known..], events)?;
    let Some(rest) = stop else {
        return Ok(None);
    };
    let Ok(_) = machine.run(1) else {
        return Err(AllocError);
    };
    events.push(Event::Read)?;
    Ok(Some(rest - 1))
}

/// What an image reads and writes on the input words within `steps` instructions, and how its run ends. Fails with `AllocError` if
/// memory was refused.
pub fn run_exchanges(
    alloc: Global,
    image: &Image,
    words: &[u32],
    steps: u64,
) -> Result<ObservedRun, AllocError>
    ensures outcome { IfOk result (λ done. done.outcome ≡ (observed_machine image.now words.now steps).outcome) }
    ensures exchanges { IfOk result (λ done. IsExchanged (observed_machine image.now words.now steps).output words.now done.exchanges.items) }
{
    let Ok(mut machine) = Machine::new(alloc, image, words) else {
        return Err(AllocError);
    };
    let mut events = Vec::new(alloc);
    let mut left = Some(steps);
    while let Some(more) = left {
        left = go_on(&mut machine, more, &mut events)?;
    }
    Ok(ObservedRun {
        exchanges: with_words(alloc, events.as_slice(), words)?,
        outcome: machine.outcome(),
    })
}

// Writes the line of one word.
fn write_exchange<W: Write>(exchange: Exchange, writer: &mut W) -> io::Result<()>
    ensures { OnOk result (Appends (W.contents writer.old) (W.contents writer.new) (exchange_text exchange)) }
{
    match exchange {
        Exchange::Read(word) => writeln!(writer, "read {}", word.cast_signed()),
        Exchange::Wrote(word) => writeln!(writer, "write {}", word.cast_signed()),
    }
}

/// Writes a line for each word that was read or written: `read V` or `write V`, with V as a signed number. Fails if the writer
/// failed.
pub fn write_exchanges<W: Write>(exchanges: &[Exchange], writer: &mut W) -> io::Result<()>
    ensures { OnOk result (Appends (W.contents writer.old) (W.contents writer.new) (exchanges_text exchanges.now)) }
{
    for exchange in exchanges {
        write_exchange(*exchange, writer)?;
    }
    Ok(())
}
