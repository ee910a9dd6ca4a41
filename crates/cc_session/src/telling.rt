// How an answer of a service is written.

ghost use Rattle.std.specs.Prelude.{◌≡◌, ◌++◌, List, ℕ};
ghost use Rattle.cc_answers.specs.Telling.{Tells};
ghost use Rattle.cc_answers.specs.Text.{machine_outcome_text, position_text, words_text};
ghost use Rattle.cc_service.specs.Fault.{fault_number};
ghost use Rattle.cc_session.specs.declared.end.SessionEnd.TheVariants.{Finished};
ghost use Rattle.cc_session.specs.Telling.{change_text, done_text, refusal_text, room_text, where_text};

use crate::end::SessionEnd;
use cc_answers::{
    ImageRun, Refusal, Stands, tell_number, tell_ok, tell_refusal, tell_run, tell_space,
    write_words,
};
use cc_history::Receipt;
use cc_library::SpaceUse;
use cc_rv32::machine::Machine;
use cc_rv32::outcome::MachineOutcome;
use cc_script::ScriptFault;
use cc_service::ServiceFault;
use std::alloc::Global;
use std::io::Write;

// The place in the source to which a refusal refers.
fn stands_of(fault: &ServiceFault) -> Stands<'_>
    ensures { (source : List ℕ) → position_text source result ≡ where_text source fault.now }
{
    match fault {
        ServiceFault::Text(fault) => Stands::Text(fault),
        ServiceFault::Piece { function: _, fault } => Stands::Function(*fault),
        ServiceFault::Opening(_)
        | ServiceFault::TooManyClients
        | ServiceFault::BadName
        | ServiceFault::WorkersGone
        | ServiceFault::ImageTooLarge
        | ServiceFault::Book(_)
        | ServiceFault::OutOfMemory
        | ServiceFault::Changed(_) => Stands::Nowhere,
    }
}

// The parts of a refusal of the service that are written.
fn refusal_of(fault: &ServiceFault) -> Refusal<'_>
    ensures number { result.number ≡ fault_number fault.now }
    ensures stands { (source : List ℕ) → position_text source result.stands ≡ where_text source fault.now }
{
    Refusal {
        number: fault.number(),
        stands: stands_of(fault),
    }
}

// Writes a refusal; the source that was sent gives the place.
pub(crate) fn refuse<W: Write, E: Write>(
    alloc: Global,
    fault: ServiceFault,
    source: &[u8],
    answers: &mut W,
    explanations: &mut E,
) -> Result<(), ScriptFault>
    ensures { Tells (W.contents answers.old) (W.contents answers.new) (refusal_text source.now fault) result }
{
    let told = tell_refusal(alloc, refusal_of(&fault), source, answers, explanations);
    drop(fault);
    told
}

// Writes a refusal of the service's opening or end. The result is its number.
pub(crate) fn refused<W: Write, E: Write>(
    alloc: Global,
    fault: ServiceFault,
    answers: &mut W,
    explanations: &mut E,
) -> u32
    ensures { result ≡ fault_number fault }
{
    let number = fault.number();
    let _ = refuse(alloc, fault, &[], answers, explanations);
    number
}

// Writes the line for 39.
pub(crate) fn tell_estranged<W: Write, E: Write>(
    alloc: Global,
    answers: &mut W,
    explanations: &mut E,
) {
    let refusal = Refusal {
        number: 39,
        stands: Stands::Nowhere,
    };
    let _ = tell_refusal(alloc, refusal, &[], answers, explanations);
}

// Writes the line for the fault that ended a service, if one did.
pub(crate) fn tell_end<W: Write, E: Write>(
    alloc: Global,
    end: SessionEnd,
    answers: &mut W,
    explanations: &mut E,
)
    ensures { end ≡ Finished → W.contents answers.new ≡ W.contents answers.old }
{
    match end {
        SessionEnd::Finished => {}
        SessionEnd::Fault(number) => {
            let refusal = Refusal {
                number,
                stands: Stands::Nowhere,
            };
            let _ = tell_refusal(alloc, refusal, &[], answers, explanations);
        }
    }
}

// Writes that a change was made, or why not, with the place in the source that was sent.
pub(crate) fn tell_change<W: Write, E: Write>(
    alloc: Global,
    answer: Result<Receipt, ServiceFault>,
    source: &[u8],
    answers: &mut W,
    explanations: &mut E,
) -> Result<(), ScriptFault>
    ensures { Tells (W.contents answers.old) (W.contents answers.new) (change_text source.now answer) result }
{
    match answer {
        Ok(receipt) => tell_number(receipt.number, answers),
        Err(fault) => refuse(alloc, fault, source, answers, explanations),
    }
}

// Writes that the library was compacted, or why not.
pub(crate) fn tell_done<W: Write, E: Write>(
    alloc: Global,
    answer: Result<(), ServiceFault>,
    answers: &mut W,
    explanations: &mut E,
) -> Result<(), ScriptFault>
    ensures { Tells (W.contents answers.old) (W.contents answers.new) (done_text answer) result }
{
    match answer {
        Ok(()) => tell_ok(answers),
        Err(fault) => refuse(alloc, fault, &[], answers, explanations),
    }
}

// Writes how much of its area the library takes, or why that is not known.
pub(crate) fn tell_room<W: Write, E: Write>(
    alloc: Global,
    answer: Result<SpaceUse, ServiceFault>,
    answers: &mut W,
    explanations: &mut E,
) -> Result<(), ScriptFault>
    ensures { Tells (W.contents answers.old) (W.contents answers.new) (room_text answer) result }
{
    match answer {
        Ok(space) => tell_space(space, answers),
        Err(fault) => refuse(alloc, fault, &[], answers, explanations),
    }
}

// Writes the words that a machine has written, one on each line, and then how its run ended. The words are not copied.
#[tactic(auto, using(crate::proofs::Cutting::told_on))]
pub(crate) fn tell_machine<W: Write>(
    alloc: Global,
    machine: &Machine,
    outcome: MachineOutcome,
    answers: &mut W,
) -> Result<(), ScriptFault>
    ensures { Tells (W.contents answers.old) (W.contents answers.new) (words_text machine.now.output ++ machine_outcome_text outcome) result }
{
    match write_words(machine.output(), answers) {
        Ok(()) => {
            let end = ImageRun {
                output: Vec::new(alloc),
                outcome,
            };
            tell_run(&end, answers)
        }
        Err(_) => Err(ScriptFault::WriteFault),
    }
}
