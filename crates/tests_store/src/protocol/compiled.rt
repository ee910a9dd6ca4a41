// Scripts over the build that compiles: sources are C texts, pieces are the code of their functions, and a unit is run on the simulator.

use crate::library::helpers::name;
use crate::protocol::script::{Line, Scripted, answers};
use cc_core::state::State;
use cc_emit::Piece;
use cc_headline::CcBuild;
use cc_link::{compile_function, typed_unit};
use cc_rv32::image::Image;
use cc_rv32::machine::Machine;
use cc_rv32::outcome::MachineOutcome;
use std::alloc::Global;
use std::test::Fail;

impl Scripted for CcBuild {
    fn piece(alloc: Global, source: &str, part: u32) -> Result<Piece, Fail> {
        let unit = typed_unit(alloc, source.as_bytes())?;
        let function = part as usize;
        if function >= unit.functions() {
            return Err(Fail::from("no such function"));
        }
        let piece = compile_function(alloc, &unit, function);
        drop(unit);
        Ok(piece?)
    }
}

// Whether an image that reads these words writes only this word, and exits with 0.
fn writes(alloc: Global, image: &Image, input: &[u32], word: u32) -> Result<bool, Fail> {
    let mut machine = Machine::new(alloc, image, input)?;
    let outcome = machine.run(100_000);
    let same = machine.output() == [word].as_slice();
    drop(machine);
    Ok(same && outcome? == MachineOutcome::Exited(0))
}

/// What the name `a` should have: its source, and what its image writes for the input 6.
pub type Held = Option<(&'static str, u32)>;

// Whether the name `a` has a unit with the wanted source, whose image turns the input 6 into the wanted word, or is absent if nothing is
// wanted.
fn has(alloc: Global, state: &State<CcBuild>, wanted: Held) -> Result<bool, Fail> {
    let name = name(b'a')?;
    match (state.library().get(&name), wanted) {
        (None, None) => Ok(true),
        (Some(unit), Some((source, word))) => {
            Ok(unit.source.bytes() == source.as_bytes() && writes(alloc, &unit.image, &[6], word)?)
        }
        _ => Ok(false),
    }
}

/// Whether these events, played from this state on, give these answers, and the name `a` then has what is wanted.
pub fn leaves(
    alloc: Global,
    mut state: State<CcBuild>,
    lines: &[(Line, u32)],
    wanted: Held,
) -> Result<bool, Fail> {
    let right = answers(alloc, &mut state, lines)? && has(alloc, &state, wanted)?;
    drop(state);
    Ok(right)
}
