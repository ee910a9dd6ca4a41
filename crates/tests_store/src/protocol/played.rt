// Scripts over the build of few pieces, and what they leave.

ghost use Rattle.std.specs.Prelude.{◌≤◌, ◌^◌};

use crate::library::helpers::name;
use crate::protocol::builds::FewPieces;
use crate::protocol::piece::certified;
use crate::protocol::script::{Line, answers, events};
use cc_core::state::{State, run_events};
use cc_library::UnitMap;
use cc_unit::StoredUnit;
use std::alloc::Global;
use std::test::Fail;

pub const ONE: &str = "one";

pub const TWO: &str = "two";

/// What a state should have: the sources of the units `a`, `b` and `c`, and how many commands are acknowledged.
pub type Held = (
    Option<&'static str>,
    Option<&'static str>,
    Option<&'static str>,
    usize,
);

// Whether this is the unit of this source.
fn is_of(unit: &StoredUnit, source: &[u8]) -> bool {
    let certificate = match (&unit.certificate, certified(source)) {
        (None, None) => true,
        (Some(certificate), Some(count)) => certificate.bytes().len() == count,
        _ => false,
    };
    certificate && unit.source.bytes() == source
}

// Whether the name has the unit of this source, or is absent if no source is given.
fn has(library: &UnitMap, letter: u8, wanted: Option<&str>) -> Result<bool, Fail> {
    let name = name(letter)?;
    Ok(match (library.get(&name), wanted) {
        (None, None) => true,
        (Some(unit), Some(source)) => is_of(unit, source.as_bytes()),
        _ => false,
    })
}

// Whether the state has all that is wanted.
fn holds(state: &State<FewPieces>, wanted: &Held) -> Result<bool, Fail> {
    let (a, b, c, acknowledged) = *wanted;
    let library = state.library();
    Ok(
        has(library, b'a', a)?
            && has(library, b'b', b)?
            && has(library, b'c', c)?
            && state.acked().len() == acknowledged,
    )
}

/// Whether these events, played from this state on, give these answers and leave what is wanted.
pub fn leaves(
    alloc: Global,
    mut state: State<FewPieces>,
    lines: &[(Line, u32)],
    wanted: &Held,
) -> Result<bool, Fail> {
    let right = answers(alloc, &mut state, lines)? && holds(&state, wanted)?;
    drop(state);
    Ok(right)
}

/// Whether these events, played from a new state with areas of this many bytes on, give these answers and leave what is wanted.
pub fn begins(alloc: Global, area: u32, lines: &[(Line, u32)], wanted: &Held) -> Result<bool, Fail>
    requires least { 64 ≤ area }
    requires most { area ≤ 2 ^ 30 }
{
    leaves(alloc, fresh(alloc, area)?, lines, wanted)
}

/// Whether the events of the first lines, whatever they answer, lead to a state from which the other lines give these answers and
/// leave what is wanted.
pub fn goes_on(
    alloc: Global,
    first: &[Line],
    lines: &[(Line, u32)],
    wanted: &Held,
) -> Result<bool, Fail> {
    let events = events::<FewPieces>(alloc, first)?;
    let state = run_events(alloc, fresh(alloc, 200)?, events)?;
    leaves(alloc, state, lines, wanted)
}

// A new state on a disk with areas of this many bytes.
fn fresh(alloc: Global, area: u32) -> Result<State<FewPieces>, Fail>
    requires least { 64 ≤ area }
    requires most { area ≤ 2 ^ 30 }
{
    Ok(State::new(alloc, FewPieces {}, area)?)
}
