// The script of a session, as it is read.

ghost use Rattle.std.specs.Prelude.{◌≡◌, ◌⊎◌, ◌≤◌, ℕ, List, IfErr, IfOk, OnOk};
ghost use Rattle.cc_script.specs.Reading.{Between, IsLine, IsNext, IsNoSource, IsNotRead, IsWithinLine};
ghost use Rattle.std.specs.Io.KnownBytes.{Appends};
ghost use Rattle.cc_answers.specs.Telling.{script_fault_text};
ghost use Rattle.cc_script.specs.declared.fault.ScriptFault.TheVariants.{BadLine, WriteFault};
ghost use Rattle.cc_session.specs.internal.Steps.{HasSent, IsNoLine, IsSentAs, MayFollow};

use cc_answers::tell_fault;
use cc_script::{LINE_BYTES, NextLine, SCRIPT_BYTES, Script, ScriptFault};
use std::alloc::Global;
use std::io::{Read, Write};
use std::marker::Model;

// A script, and the reader that it comes from. Clauses refer to what is ahead in the script.
#[derive(Drop)]
pub(crate) struct Reading<R: Read> {
    script: Script,
    reader: R,
}

impl<R: Read> Model for Reading<R> {
    ghost use Rattle.cc_script.specs.Reading.{Ahead, ahead_of};

    ghost Value = { Ahead };

    ghost view = { λ s. ahead_of s.script (R.remaining s.reader) };
}

// The source that comes next in a script.
#[derive(Drop)]
pub(crate) enum Sent {
    Source(Vec<u8>),
    // There is no room for the source.
    NoRoom,
    // A byte other than a newline comes after the source.
    Unended,
}

// The source as it was sent, depending on whether there was room for it, and on whether its line ends after
// it.
fn behind_line(source: Option<Vec<u8>>, is_ended: bool) -> Sent
    ensures { IsSentAs source is_ended result }
{
    match source {
        Some(source) if is_ended => Sent::Source(source),
        None if is_ended => Sent::NoRoom,
        other => {
            drop(other);
            Sent::Unended
        }
    }
}

impl<R: Read> Reading<R> {
    pub(crate) fn new(reader: R) -> Reading<R>
        ensures { result ≡ record { rest = R.remaining reader; left = 16777216 } }
    {
        Reading {
            script: Script::new(),
            reader,
        }
    }

    // How many bytes of the script were handed out.
    pub(crate) fn position(&self) -> usize {
        SCRIPT_BYTES.saturating_sub(self.script.left())
    }

    // The bytes of the script that were read and not handed out yet.
    pub(crate) fn held(&self) -> &[u8] {
        self.script.held()
    }

    // The script's next line. If there is a further line, but also a limit, the result is the fault in
    // `limit`.
    #[tactic(auto, using(crate::proofs::Playing::some_left))]
    pub(crate) fn next_line(
        &mut self,
        line: &mut [u8; LINE_BYTES],
        limit: Option<ScriptFault>,
    ) -> Result<NextLine, ScriptFault>
        ensures within { IfOk result IsWithinLine }
        ensures few { IfOk result (MayFollow limit) }
        ensures refused { IfErr result (IsNoLine limit self.old self.new.left) }
        ensures bytes { IfOk result (λ next. Between self.old self.new (λ before after. IsNext before next line.new after)) }
    {
        let next = self.script.next_line(&mut self.reader, line)?;
        match next {
            NextLine::End => Ok(next),
            NextLine::Line(_) | NextLine::TooLong => match limit {
                Some(fault) => Err(fault),
                None => Ok(next),
            },
        }
    }

    // The source that comes next.
    #[tactic(auto, using(crate::proofs::Playing::sent_on, crate::proofs::Playing::no_source))]
    pub(crate) fn source(&mut self, alloc: Global, length: usize) -> Result<Sent, ScriptFault>
        ensures refused { IfErr result (IsNoSource self.old length self.new.left) }
        ensures bytes { IfOk result (λ sent. Between self.old self.new (λ before after. HasSent before length sent after)) }
    {
        let source = self.script.source(alloc, &mut self.reader, length)?;
        let is_ended = match self.script.is_at_line_end(&mut self.reader) {
            Ok(is_ended) => is_ended,
            Err(fault) => {
                drop(source);
                return Err(fault);
            }
        };
        Ok(behind_line(source, is_ended))
    }

    // Writes 50, which says that the line is not a command, before the line is read to its end; then skips
    // the line.
    pub(crate) fn refuse_and_skip<W: Write, E: Write>(
        &mut self,
        answers: &mut W,
        explanations: &mut E,
    ) -> Result<(), ScriptFault>
        ensures refused { IfErr result (λ fault. (fault ≡ WriteFault)
            ⊎ (Appends (W.contents answers.old) (W.contents answers.new) (script_fault_text BadLine) × IsNotRead self.old self.new.left fault)) }
        ensures bytes { OnOk result (Between self.old self.new (λ before after. (rest : List ℕ) × IsLine before rest after)) }
        ensures written { OnOk result (Appends (W.contents answers.old) (W.contents answers.new) (script_fault_text BadLine)) }
    {
        match tell_fault(ScriptFault::BadLine, answers, explanations) {
            Ok(()) => self.script.skip_line(&mut self.reader),
            Err(fault) => Err(fault),
        }
    }
}
