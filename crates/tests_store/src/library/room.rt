// What a `compact` makes room for. The record of a unit of one word with an empty source, under a name of one letter, takes 25
// bytes.

use crate::library::helpers::{Step, does, formatted, name, number, opened, unit};
use cc_disk::{FuseDisk, FuseMode, MemoryDisk};
use cc_library::{Library, LibraryCommand, SharedUnit};
use std::alloc::Global;
use std::sync::Arc;
use std::test::Fail;
use tests_texts::verdict::row_passes;

// An area of 101 bytes has room for these four records and the closed gate. After compaction there are two records.
const A: Act = Act::Does(Step::Add(b'a', 1), 0);

const B: Act = Act::Does(Step::Add(b'b', 2), 0);

const A_AGAIN: Act = Act::Does(Step::Replace(b'a', 3), 0);

const B_AGAIN: Act = Act::Does(Step::Replace(b'b', 4), 0);

const AREA: u32 = 101;

// How many device calls opening an empty library and the four changes make.
const CALLS: u64 = 3 + 4 * 4;

// A command on the name of one letter, with a unit of this many bytes of source, which its record has besides 25 others.
#[derive(Clone, Copy)]
enum Command {
    Add(u8, usize),
    Replace(u8, usize),
    Withdraw(u8),
}

// What is done to a library.
#[derive(Clone, Copy)]
enum Act {
    // A step is made, and answered with this number.
    Does(Step, u32),
    // Whether the command has room once the library is compacted, and whether a `compact` would remove the reason for its refusal.
    Looks(Command, bool, bool),
    // The command is answered with this number.
    Changes(Command, u32),
    // The library takes this many bytes of its area, would take the second number after a compaction, and has this many units.
    Takes(usize, usize, usize),
}

use Act::{Changes, Does, Looks, Takes};

const LEAST: Command = Command::Add(b'c', 0);

const MOST: Command = Command::Add(b'c', 25);

// What is done to a new library.
static ROWS: [&[Act]; 5] = [
    // the old unit stays until its successor is there: there is room for 25 bytes of source after two records, not for 50 in place
    // of one
    &[
        A,
        B,
        A_AGAIN,
        B_AGAIN,
        Looks(Command::Replace(b'a', 25), true, true),
        Looks(Command::Replace(b'a', 26), false, false),
        Looks(Command::Replace(b'a', 50), false, false),
    ],
    // a withdrawal
    &[
        A,
        B,
        A_AGAIN,
        B_AGAIN,
        Looks(Command::Withdraw(b'a'), true, true),
        Does(Step::Withdraw(b'a'), 34),
        Does(Step::Compact, 0),
        Does(Step::Withdraw(b'a'), 0),
    ],
    // 31 and 32 come before 34
    &[
        A,
        B,
        A_AGAIN,
        B_AGAIN,
        Looks(Command::Add(b'a', 0), true, false),
        Looks(Command::Replace(b'c', 0), true, false),
        Looks(Command::Withdraw(b'c'), true, false),
    ],
    // a library that has room refuses nothing with 34
    &[Looks(LEAST, true, false)],
    // how much is taken: the record of a withdrawal takes 5 bytes and 4 more, version, kind, and the name with its length
    &[
        Takes(0, 0, 0),
        A,
        Takes(25, 25, 1),
        B,
        A_AGAIN,
        B_AGAIN,
        Takes(100, 50, 2),
        Does(Step::Compact, 0),
        Takes(50, 50, 2),
        Does(Step::Withdraw(b'a'), 0),
        Takes(59, 25, 1),
    ],
];

// A closed library answers 36. Until then no look has called the device: the call that fails is the first after the changes.
static CLOSED: [Act; 8] = [
    A,
    B,
    A_AGAIN,
    B_AGAIN,
    Looks(MOST, true, true),
    Does(Step::Compact, 35),
    Looks(MOST, true, false),
    Does(Step::Add(b'c', 5), 36),
];

// A unit with this many bytes of source.
fn sized(alloc: Global, count: usize) -> Result<SharedUnit, Fail> {
    let source = vec![in alloc; b' '; count]?;
    Ok(SharedUnit::new(Arc::new(alloc, unit(alloc, &source, 5)?)?))
}

fn command_of(alloc: Global, command: Command) -> Result<LibraryCommand, Fail> {
    match command {
        Command::Add(letter, count) => {
            let unit = sized(alloc, count)?;
            Ok(LibraryCommand::Add(name(letter)?, unit))
        }
        Command::Replace(letter, count) => {
            let unit = sized(alloc, count)?;
            Ok(LibraryCommand::Replace(name(letter)?, unit))
        }
        Command::Withdraw(letter) => Ok(LibraryCommand::Withdraw(name(letter)?)),
    }
}

type FusedLibrary = Library<FuseDisk<MemoryDisk>>;

// Whether a thousand looks at a library give these answers.
fn are_looks(
    library: &FusedLibrary,
    command: &LibraryCommand,
    has_room: bool,
    is_mended: bool,
) -> bool {
    let mut right = library.has_room_compacted(command) == has_room;
    for _ in 0..1000 {
        right = right && library.is_mended_by_compact(command) == is_mended;
    }
    right
}

fn is_taken(library: &FusedLibrary, used: usize, compacted: usize, units: usize) -> bool {
    let space = library.space();
    (space.area, space.used) == (AREA as usize, used)
        && (space.compacted, space.units) == (compacted, units)
}

// Whether an act comes out as it has to.
fn is_done(alloc: Global, library: &mut FusedLibrary, act: Act) -> Result<bool, Fail> {
    match act {
        Does(step, wanted) => Ok(does(alloc, library, step)? == wanted),
        Looks(command, has_room, is_mended) => {
            let command = command_of(alloc, command)?;
            Ok(are_looks(library, &command, has_room, is_mended))
        }
        Changes(command, wanted) => {
            let command = command_of(alloc, command)?;
            Ok(number(library.change(alloc, command)) == wanted)
        }
        Takes(used, compacted, units) => Ok(is_taken(library, used, compacted, units)),
    }
}

// Whether these acts on a new library come out as they have to, if the call after this many fails.
fn are_done(alloc: Global, calls: u64, acts: &[Act]) -> Result<bool, Fail> {
    let disk = FuseDisk::new(formatted(alloc, AREA)?, calls, FuseMode::Once);
    let mut library = opened(alloc, disk)?;
    let mut right = true;
    for act in acts {
        right = right && is_done(alloc, &mut library, *act)?;
    }
    Ok(right)
}

// Whether a full library answers an Add with this many bytes of source as it has to, before it is compacted and after that. Two
// records take 50 bytes, and a third has 51 with its closed gate, so at most 25 bytes of source fit.
fn is_added(alloc: Global, count: usize) -> Result<bool, Fail> {
    let added = Command::Add(b'c', count);
    let fits = count <= 25;
    let acts = [
        A,
        B,
        A_AGAIN,
        B_AGAIN,
        Looks(added, fits, fits),
        Changes(added, 34),
        Does(Step::Compact, 0),
        Looks(added, fits, false),
        Changes(added, if fits { 0 } else { 34 }),
    ];
    are_done(alloc, u64::MAX, &acts)
}

#[test]
fn up_to_the_last_byte(rt: HostRuntime) -> Result<(), Fail> {
    for count in 0..60usize {
        row_passes(count, is_added(rt.alloc(), count))?;
    }
    Ok(())
}

#[test]
fn room_and_what_is_taken(rt: HostRuntime) -> Result<(), Fail> {
    for number in 0..ROWS.len() {
        row_passes(number, are_done(rt.alloc(), u64::MAX, ROWS[number]))?;
    }
    row_passes(ROWS.len(), are_done(rt.alloc(), CALLS, CLOSED.as_slice()))
}
