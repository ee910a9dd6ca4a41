// What an image needs, with the names and places of its functions.

ghost use Rattle.std.specs.Prelude.{◌≡◌, ◌+◌, ◌*◌, ◌<◌, Some, slice_get, IfOk, IfSome, OnOk};
ghost use Rattle.std.specs.List.{flat_map};
ghost use Rattle.std.specs.Arc.{arc_value};
ghost use Rattle.std.specs.Io.KnownBytes.{Appends};
ghost use Rattle.cc_ast.specs.Source.{source};
ghost use Rattle.cc_rv32.specs.Listing.{hexadecimal, hexadecimal_digit};
ghost use Rattle.cc_answers.specs.Text.{line};
ghost use Rattle.cc_types.specs.Typed.{defined_names};
ghost use Rattle.cc_findings.specs.Measured.{AreCycles, AreFunctions};
ghost use Rattle.cc_findings.specs.Written.{cycle_text, frame_text, function_size_text, measure_text, name_text, place_of_text, whole_size_text, words_of_text};

use cc_rv32::map::CODE_FROM;
use cc_size::{FunctionSize, Recursion, Sized, UnitSize};
use cc_types::TypedUnit;
use std::alloc::{AllocError, Global};
use std::io::{self, Write};

/// A function of an image, and what it needs.
#[derive(Drop)]
pub struct SizedFunction {
    /// Its name.
    pub name: Vec<u8>,
    /// The address of its first instruction.
    pub address: u32,
    pub size: FunctionSize,
}

/// A call by which a function calls itself, directly or through others: the names of the calling function and of the called
/// one.
#[derive(Drop)]
pub struct CyclicCall {
    pub caller: Vec<u8>,
    pub called: Vec<u8>,
}

/// How much memory an image takes: the whole, and each function with its name and its place, in the order of definitions.
#[derive(Drop)]
pub struct Measure {
    pub functions: Vec<SizedFunction>,
    pub sized: Sized,
    /// The calls that are part of a cycle of calls.
    pub cycles: Vec<CyclicCall>,
}

// The address that lies `words` words after an address; `None` if that would be past the last address.
fn behind(address: u32, words: usize) -> Option<u32>
    ensures { IfSome result (λ next. next ≡ address + 4 * words) }
{
    let words = u32::try_from(words).ok()?;
    address.checked_add(words.checked_mul(4)?)
}

// The functions with their names and places. In a compiled unit each has a name, and no address is too large.
fn functions(
    alloc: Global,
    unit: &TypedUnit,
    sizes: &[FunctionSize],
) -> Result<Vec<SizedFunction>, AllocError>
    ensures { IfOk result (λ functions. AreFunctions (source unit.now) sizes.now functions.items) }
{
    let mut functions = Vec::with_capacity(alloc, sizes.len())?;
    let mut address = CODE_FROM + 12;
    for (function, size) in sizes.iter().enumerate() {
        if function >= unit.functions() {
            return Err(AllocError);
        }
        let name = Vec::from_slice(alloc, unit.function_name(function))?;
        let size = *size;
        functions.push(SizedFunction {
            name,
            address,
            size,
        })?;
        let Some(next) = behind(address, size.words) else {
            return Err(AllocError);
        };
        address = next;
    }
    Ok(functions)
}

// The name of a function. Each function of a compiled unit has one.
fn name_of(alloc: Global, unit: &TypedUnit, function: usize) -> Result<Vec<u8>, AllocError>
    ensures { IfOk result (λ name. slice_get (defined_names (source unit.now)) function ≡ Some name.items) }
{
    if function >= unit.functions() {
        return Err(AllocError);
    }
    Vec::from_slice(alloc, unit.function_name(function))
}

// The calls that are part of a cycle, by names.
fn cycles(
    alloc: Global,
    unit: &TypedUnit,
    calls: &[Recursion],
) -> Result<Vec<CyclicCall>, AllocError>
    ensures { IfOk result (λ cycles. AreCycles (source unit.now) calls.now cycles.items) }
{
    let mut cycles = Vec::with_capacity(alloc, calls.len())?;
    for call in calls {
        let caller = name_of(alloc, unit, call.caller)?;
        let called = name_of(alloc, unit, call.called)?;
        cycles.push(CyclicCall { caller, called })?;
    }
    Ok(cycles)
}

/// What an image needs, with the names and places of its functions.
pub fn measured(alloc: Global, sized: Sized) -> Result<Measure, AllocError>
    ensures sized { IfOk result (λ it. it.sized ≡ sized) }
    ensures functions { IfOk result (λ it. AreFunctions (source (arc_value sized.made.typed)) sized.size.functions.items it.functions.items) }
    ensures cycles { IfOk result (λ it. AreCycles (source (arc_value sized.made.typed)) sized.size.recursions.items it.cycles.items) }
{
    let unit: &TypedUnit = &sized.made.typed;
    let functions = functions(alloc, unit, sized.size.functions.as_slice())?;
    let cycles = cycles(alloc, unit, sized.size.recursions.as_slice())?;
    Ok(Measure {
        functions,
        sized,
        cycles,
    })
}

// A digit of base 16.
fn digit(number: u32) -> u8
    requires { number < 16 }
    ensures { result ≡ hexadecimal_digit number }
{
    if number < 10 {
        b'0' + number as u8
    } else {
        b'a' + (number as u8 - 10)
    }
}

// Writes a word as the listing does, with eight hexadecimal digits.
fn write_hexadecimal<W: Write>(word: u32, writer: &mut W) -> io::Result<()>
    ensures { OnOk result (Appends (W.contents writer.old) (W.contents writer.new) (hexadecimal 8 word)) }
{
    let b = word / 16;
    let c = b / 16;
    let d = c / 16;
    let e = d / 16;
    let f = e / 16;
    let g = f / 16;
    let h = g / 16;
    writer.write_all(&[
        digit(h % 16),
        digit(g % 16),
        digit(f % 16),
        digit(e % 16),
        digit(d % 16),
        digit(c % 16),
        digit(b % 16),
        digit(word % 16),
    ])
}

#[tactic(auto, using(cc_answers::proofs::Writing::written_on))]
fn write_name<W: Write>(name: &[u8], writer: &mut W) -> io::Result<()>
    ensures { OnOk result (Appends (W.contents writer.old) (W.contents writer.new) (name_text name.now)) }
{
    writer.write_all(name)?;
    writer.write_all(b" ")
}

#[tactic(auto, using(cc_answers::proofs::Writing::written_on))]
fn write_place<W: Write>(name: &[u8], address: u32, writer: &mut W) -> io::Result<()>
    ensures { OnOk result (Appends (W.contents writer.old) (W.contents writer.new) (place_of_text name.now address)) }
{
    write_name(name, writer)?;
    write_hexadecimal(address, writer)
}

fn write_words_of<W: Write>(words: usize, writer: &mut W) -> io::Result<()>
    ensures { OnOk result (Appends (W.contents writer.old) (W.contents writer.new) (words_of_text words)) }
{
    write!(writer, " {words} words ")
}

fn write_frame<W: Write>(frame: u32, calls: u32, writer: &mut W) -> io::Result<()>
    ensures { OnOk result (Appends (W.contents writer.old) (W.contents writer.new) (frame_text frame calls)) }
{
    writeln!(writer, "frame {frame} calls {calls}")
}

#[tactic(auto, using(cc_answers::proofs::Writing::written_third))]
fn write_function<W: Write>(function: &SizedFunction, writer: &mut W) -> io::Result<()>
    ensures { OnOk result (Appends (W.contents writer.old) (W.contents writer.new) (function_size_text function.now)) }
{
    write_place(function.name.as_slice(), function.address, writer)?;
    write_words_of(function.size.words, writer)?;
    write_frame(function.size.frame, function.size.calls, writer)
}

#[tactic(auto, using(cc_answers::proofs::Writing::one_more))]
fn write_functions<W: Write>(functions: &[SizedFunction], writer: &mut W) -> io::Result<()>
    ensures { OnOk result (Appends (W.contents writer.old) (W.contents writer.new) (flat_map function_size_text functions.now)) }
{
    for function in functions {
        write_function(function, writer)?;
    }
    Ok(())
}

fn write_whole<W: Write>(size: &UnitSize, writer: &mut W) -> io::Result<()>
    ensures { OnOk result (Appends (W.contents writer.old) (W.contents writer.new) (whole_size_text size.now)) }
{
    let (code, globals, open, stack) = (size.code, size.globals, size.calls, size.stack);
    writeln!(
        writer,
        "code {code}\nglobals {globals}\nopen {open}\nstack {stack}"
    )
}

#[tactic(auto, using(cc_answers::proofs::Writing::written_third))]
fn write_cycle<W: Write>(cycle: &CyclicCall, writer: &mut W) -> io::Result<()>
    ensures { OnOk result (Appends (W.contents writer.old) (W.contents writer.new) (cycle_text cycle.now)) }
{
    writer.write_all(b"recursion ")?;
    write_name(cycle.caller.as_slice(), writer)?;
    write_last(cycle.called.as_slice(), writer)
}

#[tactic(auto, using(cc_answers::proofs::Writing::written_on))]
fn write_last<W: Write>(name: &[u8], writer: &mut W) -> io::Result<()>
    ensures { OnOk result (Appends (W.contents writer.old) (W.contents writer.new) (line name.now)) }
{
    writer.write_all(name)?;
    writer.write_all(b"\n")
}

#[tactic(auto, using(cc_answers::proofs::Writing::one_more))]
fn write_cycles<W: Write>(cycles: &[CyclicCall], writer: &mut W) -> io::Result<()>
    ensures { OnOk result (Appends (W.contents writer.old) (W.contents writer.new) (flat_map cycle_text cycles.now)) }
{
    for cycle in cycles {
        write_cycle(cycle, writer)?;
    }
    Ok(())
}

/// Writes what an image needs: a line for each function, then the whole, then the calls that are part of a cycle.
#[tactic(auto, using(cc_answers::proofs::Writing::written_third))]
pub fn write_measure<W: Write>(measure: &Measure, writer: &mut W) -> io::Result<()>
    ensures { OnOk result (Appends (W.contents writer.old) (W.contents writer.new) (measure_text measure.now)) }
{
    write_functions(measure.functions.as_slice(), writer)?;
    write_whole(&measure.sized.size, writer)?;
    write_cycles(measure.cycles.as_slice(), writer)
}
