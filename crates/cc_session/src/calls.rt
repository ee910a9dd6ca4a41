// How a client does the commands of a script.

ghost use Rattle.std.specs.Prelude.{◌≡◌, ◌⊎◌, true, [], List, ℕ, Option, Ok, Err, IfSome};
ghost use Rattle.std.specs.Option.{option_map};
ghost use Rattle.cc_answers.specs.Telling.{Tells};
ghost use Rattle.cc_script.specs.Line.{asked_of};
ghost use Rattle.cc_script.specs.declared.command.Dialect.{Dialect};
ghost use Rattle.cc_c_semantics.specs.declared.mode.Mode.{Mode};
ghost use Rattle.cc_history.specs.History.{MemberView};
ghost use Rattle.cc_service.specs.Serving.{GetAnswers, ListAnswers, PutAnswers, Puts, WithdrawAnswers};
ghost use Rattle.cc_service.specs.declared.fault.ServiceFault.TheVariants.{OutOfMemory, WorkersGone};
ghost use Rattle.cc_service.specs.Updating.{UpdateAnswers};
ghost use Rattle.cc_session.specs.Playing.{Audits, AuditsOne, CallsOn, Compacts, Grows, IsEnding, IsPlayedBy, IsSent, IsSentTo, IsSentTwice, IsShortOfTwo, IsStoppedBy, IsUnended, IsUnendedOfTwo, Measures, Talk, talk, words_of};
ghost use Rattle.cc_session.specs.Telling.{SaysChange, SaysNames, SaysRunOn, SaysShown};
ghost use Rattle.cc_session.specs.internal.Calls.{AuditsName, AuditsNames, CallsAndTells, DoesAndTells, DoesOr, RunsAndTells, TellsAudit, TellsRun, UpdatesIf};
ghost use Rattle.cc_session.specs.internal.Steps.{IsDone, IsHalted, IsObeyed, IsShortOf};

use crate::auditing::{audit_found, explain_audit};
use crate::held::Held;
use crate::hints::Hints;
use crate::patience::{Patience, RunBounds, RunEnd, Unhurried, run_in_slices};
use crate::reading::{Reading, Sent};
use crate::showing::text_of;
use crate::telling::{refuse, tell_change, tell_done, tell_machine, tell_room};
use cc_answers::{tell_audit, tell_fault, tell_names, tell_no_memory, tell_ok, tell_text};
use cc_disk::Disk;
use cc_history::Receipt;
use cc_library::Name;
use cc_link::Mode;
use cc_runs::words_in;
use cc_script::{
    Dialect, LINE_BYTES, NextLine, SCRIPT_BYTES, ScriptCommand, ScriptFault, command_of,
};
use cc_service::{Client, Found, Named, Put, Service, ServiceFault};
use cc_task::Part;
use std::alloc::Global;
use std::io::{Read, Write};
use std::sync::Wait;

// The input words after a line may have at most this many bytes.
const MOST_INPUT: usize = 65_536;

// Plays the scripts of a service's clients, in a mode. If there is a bound, at most `most` lines of each are done, and only while
// there is patience.
#[derive(Drop)]
pub(crate) struct Player<'a, N: Named, H, D: Disk, P> {
    pub(crate) rt: &'a H,
    pub(crate) alloc: Global,
    pub(crate) service: &'a Service<N, D>,
    pub(crate) mode: Mode,
    pub(crate) most: Option<usize>,
    pub(crate) patience: &'a P,
}

impl<'a, N: Named + Send + Sync + 'static, H: Wait, D: Disk, P: Patience> Player<'a, N, H, D, P> {
    // Puts a unit compiled from this source, regardless of what was handed in before.
    fn put_anew<W: Write, E: Write>(
        &self,
        client: &mut Client<N>,
        put: Put,
        name: &[u8],
        source: &[u8],
        answers: &mut W,
        explanations: &mut E,
    ) -> Result<(), ScriptFault>
        ensures { CallsAndTells (PutAnswers self.now.mode (Puts put self.now.mode name.now source.now) name.now source.now) (SaysChange source.now)
            (talk client.old.member (W.contents answers.old)) (talk client.new.member (W.contents answers.new)) result }
    {
        let answer = self
            .service
            .put_in(self.rt, self.alloc, client, self.mode, put, name, source);
        tell_change(self.alloc, answer, source, answers, explanations)
    }

    // Writes the answer for a unit that was put. If memory was refused, or a worker is gone, all hints are dropped, and the unit
    // is put once more.
    fn settle<W: Write, E: Write>(
        &self,
        answer: Result<Receipt, ServiceFault>,
        client: &mut Client<N>,
        hints: &mut Hints<N>,
        put: Put,
        name: &[u8],
        source: &[u8],
        answers: &mut W,
        explanations: &mut E,
    ) -> Result<(), ScriptFault>
        ensures { (old : MemberView) → PutAnswers self.now.mode (Puts put self.now.mode name.now source.now) name.now source.now old client.old.member answer
            → CallsAndTells (PutAnswers self.now.mode (Puts put self.now.mode name.now source.now) name.now source.now) (SaysChange source.now)
            (talk old (W.contents answers.old)) (talk client.new.member (W.contents answers.new)) result }
    {
        if is_short(&answer) {
            drop(answer);
            hints.forget();
            return self.put_anew(client, put, name, source, answers, explanations);
        }
        tell_change(self.alloc, answer, source, answers, explanations)
    }

    // Adds or replaces a unit with this source. While the client waits for the workers, they also have the sources of the next
    // commands.
    fn change<R: Read, W: Write, E: Write>(
        &self,
        client: &mut Client<N>,
        script: &Reading<R>,
        hints: &mut Hints<N>,
        put: Put,
        name: &[u8],
        source: &[u8],
        answers: &mut W,
        explanations: &mut E,
    ) -> Result<(), ScriptFault>
        ensures { CallsAndTells (PutAnswers self.now.mode (Puts put self.now.mode name.now source.now) name.now source.now) (SaysChange source.now)
            (talk client.old.member (W.contents answers.old)) (talk client.new.member (W.contents answers.new)) result }
    {
        let (rt, alloc, service) = (self.rt, self.alloc, self.service);
        let at = script.position();
        match hints.begun(rt, alloc, service, client, self.mode, at, source) {
            Ok(prepared) => {
                hints.look_ahead(rt, alloc, service, client, self.mode, at, script.held());
                let answer = service.put_prepared(rt, alloc, client, put, name, prepared);
                self.settle(
                    answer,
                    client,
                    hints,
                    put,
                    name,
                    source,
                    answers,
                    explanations,
                )
            }
            Err(fault) => {
                drop(fault);
                self.put_anew(client, put, name, source, answers, explanations)
            }
        }
    }

    // Adds or replaces a unit whose source comes next.
    fn put<R: Read, W: Write, E: Write>(
        &self,
        client: &mut Client<N>,
        script: &mut Reading<R>,
        hints: &mut Hints<N>,
        put: Put,
        name: &[u8],
        length: usize,
        answers: &mut W,
        explanations: &mut E,
    ) -> Result<(), ScriptFault>
        ensures done { IsDone (λ before after old new. IsSent self.now.mode (Puts put) name.now length before after old new) (IsShortOf length) (IsUnended length)
            script.old script.new (talk client.old.member (W.contents answers.old)) (talk client.new.member (W.contents answers.new)) result }
        ensures grows { Grows client.old.member client.new.member }
    {
        match script.source(self.alloc, length)? {
            Sent::Source(source) => {
                let source = source.as_slice();
                self.change(
                    client,
                    script,
                    hints,
                    put,
                    name,
                    source,
                    answers,
                    explanations,
                )
            }
            Sent::NoRoom => tell_no_memory(answers, explanations),
            Sent::Unended => script.refuse_and_skip(answers, explanations),
        }
    }

    // Replaces the unit under a name with one compiled from this source, if the old unit has the expected source. No source of a
    // later command is handed in meanwhile.
    fn exchange<W: Write, E: Write>(
        &self,
        client: &mut Client<N>,
        name: &[u8],
        expected: &[u8],
        source: &[u8],
        answers: &mut W,
        explanations: &mut E,
    ) -> Result<(), ScriptFault>
        ensures { CallsAndTells (UpdateAnswers self.now.mode name.now expected.now source.now) (SaysChange source.now)
            (talk client.old.member (W.contents answers.old)) (talk client.new.member (W.contents answers.new)) result }
    {
        let answer = self.service.update_in(
            self.rt, self.alloc, client, self.mode, name, expected, source,
        );
        tell_change(self.alloc, answer, source, answers, explanations)
    }

    // Replaces the unit under a name with one compiled from the source that comes next, unless there was no room for the expected
    // source.
    fn update_from<R: Read, W: Write, E: Write>(
        &self,
        client: &mut Client<N>,
        script: &mut Reading<R>,
        name: &[u8],
        expected: Option<&[u8]>,
        length: usize,
        answers: &mut W,
        explanations: &mut E,
    ) -> Result<(), ScriptFault>
        ensures done { IsDone (λ before after old new. IsSentTo (λ source o n. UpdatesIf self.now.mode name.now (option_map (λ e. e.now) expected.entry) source o n) length before after old new)
            (IsShortOf length) (IsUnended length)
            script.old script.new (talk client.old.member (W.contents answers.old)) (talk client.new.member (W.contents answers.new)) result }
        ensures grows { Grows client.old.member client.new.member }
    {
        match script.source(self.alloc, length)? {
            Sent::Source(source) => match expected {
                Some(expected) => self.exchange(
                    client,
                    name,
                    expected,
                    source.as_slice(),
                    answers,
                    explanations,
                ),
                None => tell_no_memory(answers, explanations),
            },
            Sent::NoRoom => tell_no_memory(answers, explanations),
            Sent::Unended => script.refuse_and_skip(answers, explanations),
        }
    }

    // Replaces the unit under a name, if the source that comes next is its source. The new unit's source comes after that one.
    fn update<R: Read, W: Write, E: Write>(
        &self,
        client: &mut Client<N>,
        script: &mut Reading<R>,
        name: &[u8],
        expected: usize,
        length: usize,
        answers: &mut W,
        explanations: &mut E,
    ) -> Result<(), ScriptFault>
        ensures done { IsDone (λ before after old new. IsSentTwice self.now.mode name.now expected length before after old new) (IsShortOfTwo expected length) (IsUnendedOfTwo expected length)
            script.old script.new (talk client.old.member (W.contents answers.old)) (talk client.new.member (W.contents answers.new)) result }
        ensures grows { Grows client.old.member client.new.member }
    {
        match script.source(self.alloc, expected)? {
            Sent::Source(source) => {
                let source = source.as_slice();
                self.update_from(
                    client,
                    script,
                    name,
                    Some(source),
                    length,
                    answers,
                    explanations,
                )
            }
            Sent::NoRoom => self.update_from(
                client,
                script,
                name,
                None,
                length,
                answers,
                explanations,
            ),
            Sent::Unended => script.refuse_and_skip(answers, explanations),
        }
    }

    fn withdraw<W: Write, E: Write>(
        &self,
        client: &mut Client<N>,
        name: &[u8],
        answers: &mut W,
        explanations: &mut E,
    ) -> Result<(), ScriptFault>
        ensures { CallsAndTells (WithdrawAnswers name.now) (SaysChange []) (talk client.old.member (W.contents answers.old)) (talk client.new.member (W.contents answers.new)) result }
    {
        let answer = self.service.withdraw(self.rt, self.alloc, client, name);
        tell_change(self.alloc, answer, &[], answers, explanations)
    }

    fn list<W: Write, E: Write>(
        &self,
        client: &mut Client<N>,
        answers: &mut W,
        explanations: &mut E,
    ) -> Result<(), ScriptFault>
        ensures { CallsAndTells ListAnswers SaysNames (talk client.old.member (W.contents answers.old)) (talk client.new.member (W.contents answers.new)) result }
    {
        match self.service.list(self.rt, self.alloc, client) {
            Ok(listing) => tell_names(
                listing.names().as_slice(),
                listing.receipt().number,
                answers,
            ),
            Err(fault) => refuse(self.alloc, fault, &[], answers, explanations),
        }
    }

    // Runs the image of the unit under a name.
    fn run<W: Write, E: Write>(
        &self,
        client: &mut Client<N>,
        name: &[u8],
        steps: u64,
        answers: &mut W,
        explanations: &mut E,
    ) -> Result<(), ScriptFault>
        ensures { RunsAndTells self.now.most name.now steps (talk client.old.member (W.contents answers.old)) (talk client.new.member (W.contents answers.new)) result }
    {
        match self.service.get(self.rt, self.alloc, client, name) {
            Ok(found) => run_found(
                self.alloc,
                self.patience,
                self.most,
                found,
                steps,
                answers,
                explanations,
            ),
            Err(fault) => refuse(self.alloc, fault, &[], answers, explanations),
        }
    }

    // Runs the image of the unit under a name on input words.
    fn call_words<W: Write, E: Write>(
        &self,
        client: &mut Client<N>,
        name: &[u8],
        steps: u64,
        words: &[u32],
        answers: &mut W,
        explanations: &mut E,
    ) -> Result<(), ScriptFault>
        ensures { CallsAndTells (GetAnswers name.now) (SaysRunOn words.now steps) (talk client.old.member (W.contents answers.old)) (talk client.new.member (W.contents answers.new)) result }
    {
        match self.service.get(self.rt, self.alloc, client, name) {
            Ok(found) => call_found(self.alloc, found, steps, words, answers, explanations),
            Err(fault) => refuse(self.alloc, fault, &[], answers, explanations),
        }
    }

    // Runs, on the input words in these bytes, the image of the unit under a name.
    fn call_on<W: Write, E: Write>(
        &self,
        client: &mut Client<N>,
        name: &[u8],
        steps: u64,
        input: &[u8],
        answers: &mut W,
        explanations: &mut E,
    ) -> Result<(), ScriptFault>
        ensures done { DoesAndTells (DoesOr (CallsOn name.now steps (words_of input.now))) (talk client.old.member (W.contents answers.old)) (talk client.new.member (W.contents answers.new)) result }
        ensures grows { Grows client.old.member client.new.member }
    {
        if MOST_INPUT < input.len() {
            return tell_fault(ScriptFault::BadLine, answers, explanations);
        }
        match words_in(self.alloc, input) {
            Ok(Some(words)) => self.call_words(
                client,
                name,
                steps,
                words.as_slice(),
                answers,
                explanations,
            ),
            Ok(None) => tell_fault(ScriptFault::BadLine, answers, explanations),
            Err(_) => tell_no_memory(answers, explanations),
        }
    }

    // Runs, on the input words that come next, the image of the unit under a name.
    fn call<R: Read, W: Write, E: Write>(
        &self,
        client: &mut Client<N>,
        script: &mut Reading<R>,
        name: &[u8],
        steps: u64,
        length: usize,
        answers: &mut W,
        explanations: &mut E,
    ) -> Result<(), ScriptFault>
        ensures done { IsDone (λ before after old new. IsSentTo (λ input o n. CallsOn name.now steps (words_of input) o n) length before after old new) (IsShortOf length) (IsUnended length)
            script.old script.new (talk client.old.member (W.contents answers.old)) (talk client.new.member (W.contents answers.new)) result }
        ensures grows { Grows client.old.member client.new.member }
    {
        match script.source(self.alloc, length)? {
            Sent::Source(input) => self.call_on(
                client,
                name,
                steps,
                input.as_slice(),
                answers,
                explanations,
            ),
            Sent::NoRoom => tell_no_memory(answers, explanations),
            Sent::Unended => script.refuse_and_skip(answers, explanations),
        }
    }

    // Writes this part of the unit under a name.
    fn show<W: Write, E: Write>(
        &self,
        client: &mut Client<N>,
        name: &[u8],
        part: Part,
        answers: &mut W,
        explanations: &mut E,
    ) -> Result<(), ScriptFault>
        ensures { CallsAndTells (GetAnswers name.now) (SaysShown part) (talk client.old.member (W.contents answers.old)) (talk client.new.member (W.contents answers.new)) result }
    {
        match self.service.get(self.rt, self.alloc, client, name) {
            Ok(found) => show_found(self.alloc, found, part, answers, explanations),
            Err(fault) => refuse(self.alloc, fault, &[], answers, explanations),
        }
    }

    // Compacts the library. This is not a call of a client.
    fn compact<W: Write, E: Write>(
        &self,
        answers: &mut W,
        explanations: &mut E,
    ) -> Result<(), ScriptFault>
        ensures { (client : MemberView) → DoesAndTells Compacts (talk client (W.contents answers.old)) (talk client (W.contents answers.new)) result }
    {
        let answer = self.service.compact(self.rt, self.alloc);
        tell_done(self.alloc, answer, answers, explanations)
    }

    // Writes how much of its area the library takes. This is not a call of a client.
    fn space<W: Write, E: Write>(
        &self,
        answers: &mut W,
        explanations: &mut E,
    ) -> Result<(), ScriptFault>
        ensures { (client : MemberView) → DoesAndTells Measures (talk client (W.contents answers.old)) (talk client (W.contents answers.new)) result }
    {
        let answer = self.service.space(self.rt);
        tell_room(self.alloc, answer, answers, explanations)
    }

    // Audits the unit under a name. The result is whether it was found and the audit said anything.
    fn audit_name<W: Write, E: Write>(
        &self,
        client: &mut Client<N>,
        name: &[u8],
        answers: &mut W,
        explanations: &mut E,
    ) -> Result<bool, ScriptFault>
        ensures { AuditsName self.now.mode name.now (talk client.old.member (W.contents answers.old)) (talk client.new.member (W.contents answers.new)) result }
    {
        match self.service.get(self.rt, self.alloc, client, name) {
            Ok(found) => audit_unit(self.alloc, self.mode, name, found, answers, explanations),
            Err(fault) => match refuse(self.alloc, fault, &[], answers, explanations) {
                Ok(()) => Ok(false),
                Err(fault) => Err(fault),
            },
        }
    }

    // Audits the units under these names, up to the first that is not found or whose audit says nothing. The result is whether all
    // units were audited.
    fn audit_names<W: Write, E: Write>(
        &self,
        client: &mut Client<N>,
        names: &[Name],
        answers: &mut W,
        explanations: &mut E,
    ) -> Result<bool, ScriptFault>
        ensures { AuditsNames self.now.mode names.now (talk client.old.member (W.contents answers.old)) (talk client.new.member (W.contents answers.new)) result }
    {
        for name in names {
            match self.audit_name(client, name.bytes(), answers, explanations) {
                Ok(true) => {}
                Ok(false) => return Ok(false),
                Err(fault) => return Err(fault),
            }
        }
        Ok(true)
    }

    // Audits the unit under a name.
    fn audit_one<W: Write, E: Write>(
        &self,
        client: &mut Client<N>,
        name: &[u8],
        answers: &mut W,
        explanations: &mut E,
    ) -> Result<(), ScriptFault>
        ensures { DoesAndTells (AuditsOne self.now.mode name.now) (talk client.old.member (W.contents answers.old)) (talk client.new.member (W.contents answers.new)) result }
    {
        match self.audit_name(client, name, answers, explanations) {
            Ok(true) => tell_ok(answers),
            Ok(false) => Ok(()),
            Err(fault) => Err(fault),
        }
    }

    // Audits all units.
    fn audit<W: Write, E: Write>(
        &self,
        client: &mut Client<N>,
        answers: &mut W,
        explanations: &mut E,
    ) -> Result<(), ScriptFault>
        ensures { DoesAndTells (Audits self.now.mode) (talk client.old.member (W.contents answers.old)) (talk client.new.member (W.contents answers.new)) result }
    {
        match self.service.list(self.rt, self.alloc, client) {
            Ok(listing) => {
                match self.audit_names(client, listing.names().as_slice(), answers, explanations) {
                    Ok(true) => tell_ok(answers),
                    Ok(false) => Ok(()),
                    Err(fault) => Err(fault),
                }
            }
            Err(fault) => refuse(self.alloc, fault, &[], answers, explanations),
        }
    }

    // ORDER ScriptCommand
    // Does what a line of a script asks for.
    fn obey<R: Read, W: Write, E: Write>(
        &self,
        client: &mut Client<N>,
        script: &mut Reading<R>,
        hints: &mut Hints<N>,
        dialect: Dialect,
        line: &[u8],
        answers: &mut W,
        explanations: &mut E,
    ) -> Result<(), ScriptFault>
        ensures done { IsObeyed self.now.mode self.now.most (asked_of dialect line.now)
            script.old script.new (talk client.old.member (W.contents answers.old)) (talk client.new.member (W.contents answers.new)) result }
        ensures grows { Grows client.old.member client.new.member }
    {
        match command_of(dialect, line) {
            Some(ScriptCommand::Add { name, length }) => {
                self.put(
                    client,
                    script,
                    hints,
                    Put::Add,
                    name,
                    length,
                    answers,
                    explanations,
                )
            }
            Some(ScriptCommand::Replace { name, length }) => {
                self.put(
                    client,
                    script,
                    hints,
                    Put::Replace,
                    name,
                    length,
                    answers,
                    explanations,
                )
            }
            Some(ScriptCommand::Withdraw { name }) => {
                self.withdraw(client, name, answers, explanations)
            }
            Some(ScriptCommand::List) => self.list(client, answers, explanations),
            Some(ScriptCommand::Run { name, steps }) => {
                self.run(client, name, steps, answers, explanations)
            }
            Some(ScriptCommand::Compact) => self.compact(answers, explanations),
            Some(ScriptCommand::Audit) => self.audit(client, answers, explanations),
            Some(ScriptCommand::Image { name }) => {
                self.show(client, name, Part::Image, answers, explanations)
            }
            Some(ScriptCommand::Source { name }) => {
                self.show(client, name, Part::Source, answers, explanations)
            }
            Some(ScriptCommand::AuditOne { name }) => {
                self.audit_one(client, name, answers, explanations)
            }
            Some(
                ScriptCommand::Update {
                    name,
                    expected,
                    length,
                },
            ) => {
                self.update(
                    client,
                    script,
                    name,
                    expected,
                    length,
                    answers,
                    explanations,
                )
            }
            Some(
                ScriptCommand::Call {
                    name,
                    steps,
                    length,
                },
            ) => { self.call(client, script, name, steps, length, answers, explanations) }
            Some(ScriptCommand::Space) => self.space(answers, explanations),
            None => tell_fault(ScriptFault::BadLine, answers, explanations),
        }
    }

    // Does what a script of this dialect asks for, up to its end or a fault that ends it; `tell_halt` writes the line for that
    // fault.
    pub(crate) fn play<R: Read, W: Write, E: Write>(
        &self,
        client: &mut Client<N>,
        script: &mut Reading<R>,
        dialect: Dialect,
        answers: &mut W,
        explanations: &mut E,
    ) -> Result<(), ScriptFault>
        requires { script.old.left ≡ 16777216 }
        ensures halted { IsHalted self.now.mode dialect self.now.most script.old.rest (talk client.old.member (W.contents answers.old)) (talk client.new.member (W.contents answers.new)) result }
        ensures grows { Grows client.old.member client.new.member }
    {
        let mut line = [0u8; LINE_BYTES];
        let mut hints = Hints::new(self.alloc);
        let mut held = Held::new(client);
        // Each line except the last takes at least one byte.
        for lines in 0..=SCRIPT_BYTES {
            held.count(client);
            let limit = held.limit(self.most, lines, self.patience);
            match script.next_line(&mut line, limit)? {
                NextLine::Line(length) => self.obey(
                    client,
                    script,
                    &mut hints,
                    dialect,
                    &line[..length],
                    answers,
                    explanations,
                )?,
                NextLine::TooLong => script.refuse_and_skip(answers, explanations)?,
                NextLine::End => return Ok(()),
            }
        }
        Err(ScriptFault::ScriptTooLong)
    }
}

// Runs the image of a unit that was found, or begins to.
fn run_found<P: Patience, W: Write, E: Write>(
    alloc: Global,
    patience: &P,
    most: Option<usize>,
    found: Found,
    steps: u64,
    answers: &mut W,
    explanations: &mut E,
) -> Result<(), ScriptFault>
    ensures { TellsRun most steps found (W.contents answers.old) (W.contents answers.new) result }
{
    let image = &found.unit().stored().image;
    let is_served = most.is_some();
    let bounds = RunBounds {
        may_stop: is_served,
        is_short: is_served,
    };
    match run_in_slices(alloc, image, &[], steps, bounds, patience) {
        Ok((machine, end)) => match end {
            RunEnd::Done(outcome) => tell_machine(alloc, &machine, outcome, answers),
            RunEnd::Stopped => Err(ScriptFault::Stopped),
            RunEnd::TooLong => Err(ScriptFault::WriteFault),
        },
        Err(_) => tell_no_memory(answers, explanations),
    }
}

// Runs the image of a unit that was found on input words. Only a server's script asks for this.
fn call_found<W: Write, E: Write>(
    alloc: Global,
    found: Found,
    steps: u64,
    words: &[u32],
    answers: &mut W,
    explanations: &mut E,
) -> Result<(), ScriptFault>
    ensures { (text : List ℕ) × SaysRunOn words.now steps (Ok found) text × Tells (W.contents answers.old) (W.contents answers.new) text result }
{
    let image = &found.unit().stored().image;
    let bounds = RunBounds {
        may_stop: false,
        is_short: true,
    };
    match run_in_slices(alloc, image, words, steps, bounds, &Unhurried) {
        Ok((machine, end)) => match end {
            RunEnd::Done(outcome) => tell_machine(alloc, &machine, outcome, answers),
            RunEnd::Stopped | RunEnd::TooLong => Err(ScriptFault::WriteFault),
        },
        Err(_) => tell_no_memory(answers, explanations),
    }
}

// Writes this part of a unit that was found.
fn show_found<W: Write, E: Write>(
    alloc: Global,
    found: Found,
    part: Part,
    answers: &mut W,
    explanations: &mut E,
) -> Result<(), ScriptFault>
    ensures { (text : List ℕ) × SaysShown part (Ok found) text × Tells (W.contents answers.old) (W.contents answers.new) text result }
{
    match text_of(alloc, &found, part) {
        Ok(text) => tell_text(text.as_slice(), answers),
        Err(_) => tell_no_memory(answers, explanations),
    }
}

// Writes what an audit says about a unit that was found, or that memory ran out during the audit. The result is whether the
// audit said anything.
fn audit_unit<W: Write, E: Write>(
    alloc: Global,
    mode: Mode,
    name: &[u8],
    found: Found,
    answers: &mut W,
    explanations: &mut E,
) -> Result<bool, ScriptFault>
    ensures { TellsAudit mode name.now (Ok found) (W.contents answers.old) (W.contents answers.new) result }
{
    match audit_found(alloc, mode, &found) {
        Ok(audited) => match tell_audit(name, audited.audit, answers) {
            Ok(()) => {
                explain_audit(name, &found, &audited, explanations);
                Ok(true)
            }
            Err(fault) => Err(fault),
        },
        Err(_) => match tell_no_memory(answers, explanations) {
            Ok(()) => Ok(false),
            Err(fault) => Err(fault),
        },
    }
}

// Whether memory was refused, or a worker is gone.
fn is_short(answer: &Result<Receipt, ServiceFault>) -> bool
    ensures { result ≡ true → (answer.now ≡ Err OutOfMemory) ⊎ (answer.now ≡ Err WorkersGone) }
{
    match answer {
        Err(ServiceFault::OutOfMemory) => true,
        Err(ServiceFault::WorkersGone) => true,
        Ok(_) | Err(_) => false,
    }
}

// Writes the line of the fault that ended a script. If the line cannot be written, the fault is 54.
fn tell_line<W: Write, E: Write>(
    fault: ScriptFault,
    answers: &mut W,
    explanations: &mut E,
) -> Result<(), ScriptFault>
    ensures { (mode : Mode) (dialect : Dialect) (most : Option ℕ) (script : Option (List ℕ)) (old : Talk) (client : MemberView)
        → IsEnding most fault × IfSome script (λ bytes. IsStoppedBy mode dialect most fault bytes old (talk client (W.contents answers.old)))
        → IsPlayedBy mode dialect most script old (talk client (W.contents answers.new)) result }
{
    match tell_fault(fault, answers, explanations) {
        Ok(()) => Err(fault),
        Err(unwritten) => Err(unwritten),
    }
}

// Writes the line of the fault that ended a script, if one did. The result is how the script ended.
pub(crate) fn tell_halt<W: Write, E: Write>(
    halted: Result<(), ScriptFault>,
    answers: &mut W,
    explanations: &mut E,
) -> Result<(), ScriptFault>
    ensures { (mode : Mode) (dialect : Dialect) (most : Option ℕ) (script : Option (List ℕ)) (old : Talk) (client : MemberView)
        → IsHalted mode dialect most script old (talk client (W.contents answers.old)) halted
        → IsPlayedBy mode dialect most script old (talk client (W.contents answers.new)) result }
{
    match halted {
        Ok(()) => Ok(()),
        Err(fault) => tell_line(fault, answers, explanations),
    }
}
