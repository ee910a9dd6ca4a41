// The crash, and the opening after it.

ghost use Rattle.std.specs.Prelude.{◌↔◌, ◌-◌, Some, IsTrue};
ghost use Rattle.cc_core.specs.declared.command.Numbered.{Numbered};
ghost use Rattle.cc_core.specs.declared.contents.Contents.{Contents};
ghost use Rattle.cc_core.specs.Step.{Crashes, EndsAll, Reopens};
ghost use Rattle.cc_core.specs.internal.Answers.{Answers};
ghost use Rattle.cc_core.specs.internal.Ready.{IsReady, IsInEffect, IsPrefixKept};

use crate::command::Numbered;
use crate::contents::{Contents, Core, Phase};
use crate::events::Answer;
use crate::fault::CoreFault;
use crate::sequence::Sequence;
use crate::table::Table;
use cc_library::{LibraryCommand, UnitMap};
use std::alloc::Global;

// The disk crashes; the live map is lost.
fn crash_core(alloc: Global, core: &mut Core, choice: &Sequence<u8>) -> Answer
    ensures { Answers (Crashes choice.now core.old) result core.old core.new }
{
    core.store.crash(alloc, choice.as_slice())?;
    core.library = UnitMap::new(alloc);
    core.enter(Phase::Crashed);
    Ok(None)
}

// The disk crashes; the live map, jobs and workers are lost.
pub(crate) fn crash<P: Drop>(
    alloc: Global,
    contents: &mut Contents<P>,
    choice: &Sequence<u8>,
) -> Answer
    ensures { Answers (EndsAll (Crashes choice.now) contents.old) result contents.old contents.new }
{
    match crash_core(alloc, &mut contents.core, choice) {
        Ok(reply) => {
            contents.jobs = Table::new(alloc);
            contents.workers = Table::new(alloc);
            Ok(reply)
        }
        Err(fault) => Err(fault),
    }
}

// Whether this command is in effect in the map, that is, the map is as the command leaves it.
fn is_in_effect(library: &UnitMap, command: &LibraryCommand) -> bool
    ensures { IsTrue result ↔ IsInEffect library.now command.now }
{
    match command {
        LibraryCommand::Add(name, unit) | LibraryCommand::Replace(name, unit) => match library.get(
            name,
        ) {
            Some(there) => there.is_same(unit.stored()),
            None => false,
        },
        LibraryCommand::Withdraw(name) => library.get(name).is_none(),
    }
}

// Drops the last command if the map is not as that command leaves it.
fn drop_undone(order: &mut Sequence<Numbered>, library: &UnitMap)
    ensures { IsPrefixKept library.now order.old order.new }
{
    if let Some(last) = order.as_slice().last() {
        if !is_in_effect(library, &last.command) {
            order.drop_last();
        }
    }
}

// Opens the library after a crash.
pub(crate) fn recover(alloc: Global, core: &mut Core) -> Answer
    requires { IsReady core.old }
    ensures { Answers (Reopens core.old) result core.old core.new }
{
    let Phase::Crashed = core.phase else {
        return Err(CoreFault::NotNow);
    };
    let Ok((library, area_byte, used)) = core.store.reopen(alloc) else {
        return Err(CoreFault::OutOfMemory);
    };
    drop_undone(&mut core.order, &library);
    core.library = library;
    core.store.take_area(area_byte, used);
    core.enter(Phase::Idle);
    Ok(None)
}
