// Units, names and disks, and what a library holds.

ghost use Rattle.std.specs.Prelude.{◌≡◌, None, IfOk};

use cc_disk::{Disk, FuseDisk, FuseMode, MemoryDisk};
use cc_journal::format;
use cc_library::{Edit, Library, LibraryCommand, LibraryFault, Name, SharedUnit};
use cc_rv32::image::{Code, Globals, Image};
use cc_unit::{Source, StoredUnit};
use std::alloc::Global;
use std::sync::Arc;
use std::test::Fail;

/// A step on a library: a change of a one-letter name, with the unit of one word, or a compaction.
#[derive(Clone, Copy)]
pub enum Step {
    Add(u8, u32),
    Replace(u8, u32),
    Withdraw(u8),
    Compact,
}

/// The unit with this source, this one code word, no globals and no certificate.
pub fn unit(alloc: Global, source: &[u8], word: u32) -> Result<StoredUnit, Fail>
    ensures { IfOk result (λ unit. unit.certificate ≡ None) }
{
    let Ok(source) = Source::new(Vec::from_slice(alloc, source)?) else {
        return Err(Fail::from("the bytes are no source"));
    };
    let Ok(code) = Code::new(vec![in alloc; word; 1]?) else {
        return Err(Fail::from("one word is code"));
    };
    let Ok(globals) = Globals::new(Vec::new(alloc)) else {
        return Err(Fail::from("no words are globals"));
    };
    Ok(StoredUnit {
        source,
        image: Image { code, globals },
        certificate: None,
    })
}

/// The unit of this code word, with an empty source.
pub fn word_unit(alloc: Global, word: u32) -> Result<Arc<StoredUnit>, Fail> {
    Ok(Arc::new(alloc, unit(alloc, &[], word)?)?)
}

/// Whether a unit has that certificate.
pub fn has_certificate(unit: &StoredUnit, wanted: Option<&[u8]>) -> bool {
    match (&unit.certificate, wanted) {
        (None, None) => true,
        (Some(certificate), Some(bytes)) => certificate.bytes() == bytes,
        _ => false,
    }
}

/// The name that consists of this letter.
pub fn name(letter: u8) -> Result<Name, Fail> {
    Ok(Name::new(&[letter])?)
}

/// The next byte of a sequence that looks random but is the same in each run.
pub fn next_byte(state: &mut u64) -> u8 {
    *state = state
        .wrapping_mul(6_364_136_223_846_793_005)
        .wrapping_add(1_442_695_040_888_963_407);
    state.to_be_bytes()[0]
}

// The edit of a step.
fn edit(alloc: Global, step: Step) -> Result<Edit, Fail> {
    let command = match step {
        Step::Add(letter, word) => LibraryCommand::Add(
            name(letter)?,
            SharedUnit::new(word_unit(alloc, word)?),
        ),
        Step::Replace(letter, word) => LibraryCommand::Replace(
            name(letter)?,
            SharedUnit::new(word_unit(alloc, word)?),
        ),
        Step::Withdraw(letter) => LibraryCommand::Withdraw(name(letter)?),
        Step::Compact => return Ok(Edit::Compact),
    };
    Ok(Edit::Change(command))
}

/// The edits of these steps.
pub fn edits(alloc: Global, steps: &[Step]) -> Result<Vec<Edit>, Fail> {
    let mut edits = Vec::new(alloc);
    for step in steps {
        edits.push(edit(alloc, *step)?)?;
    }
    Ok(edits)
}

/// The number of an answer, 0 for Ok.
pub fn number(answer: Result<(), LibraryFault>) -> u32 {
    match answer {
        Ok(()) => 0,
        Err(fault) => fault.number(),
    }
}

/// Makes one step. The result is the number of the answer.
pub fn does<D: Disk>(alloc: Global, library: &mut Library<D>, step: Step) -> Result<u32, Fail> {
    match step {
        Step::Add(letter, word) => {
            let unit = word_unit(alloc, word)?;
            Ok(number(library.add(alloc, name(letter)?, unit)))
        }
        Step::Replace(letter, word) => {
            let unit = word_unit(alloc, word)?;
            Ok(number(library.replace(alloc, name(letter)?, unit)))
        }
        Step::Withdraw(letter) => Ok(number(library.withdraw(alloc, name(letter)?))),
        Step::Compact => Ok(number(library.compact(alloc))),
    }
}

/// Whether these steps, made in turn, are answered with these numbers.
pub fn answers<D: Disk>(
    alloc: Global,
    library: &mut Library<D>,
    steps: &[(Step, u32)],
) -> Result<bool, Fail> {
    for (step, number) in steps {
        if does(alloc, library, *step)? != *number {
            return Ok(false);
        }
    }
    Ok(true)
}

/// Makes these steps until one is refused. The result is how many were made.
pub fn steps_done<D: Disk>(
    alloc: Global,
    library: &mut Library<D>,
    steps: &[Step],
) -> Result<usize, Fail> {
    for (done, step) in steps.iter().enumerate() {
        if does(alloc, library, *step)? != 0 {
            return Ok(done);
        }
    }
    Ok(steps.len())
}

/// A formatted disk with areas of this many bytes.
pub fn formatted(alloc: Global, area: u32) -> Result<MemoryDisk, Fail> {
    let mut disk = MemoryDisk::new(alloc, 16 + 2 * area as usize)?;
    format(&mut disk, area)?;
    Ok(disk)
}

/// The library on a disk.
pub fn opened<D: Disk + Drop>(alloc: Global, disk: D) -> Result<Library<D>, Fail> {
    match Library::open(alloc, disk) {
        Ok(library) => Ok(library),
        Err(_) => Err(Fail::from("not opened")),
    }
}

/// A library with `a` added, on a disk of 144 bytes whose calls, those of opening first, meet a fuse once this many have passed.
pub fn with_a(
    alloc: Global,
    passes: u64,
    mode: FuseMode,
) -> Result<Library<FuseDisk<MemoryDisk>>, Fail> {
    let mut library = opened(alloc, formatted(alloc, 64)?)?;
    if does(alloc, &mut library, Step::Add(b'a', 1))? != 0 {
        return Err(Fail::from("not added"));
    }
    opened(alloc, FuseDisk::new(library.into_disk(), passes, mode))
}

/// The first code word of the unit under that name, if there is one.
fn word_of<D: Disk>(library: &Library<D>, letter: u8) -> Result<Option<u32>, Fail> {
    Ok(
        library
            .get(&name(letter)?)
            .and_then(|unit| unit.image.code.words().first().copied()),
    )
}

/// What a library holds under `a` and under `b`: the code word of each unit, if there is one.
pub type Held = (Option<u32>, Option<u32>);

/// Whether the library holds these units, and no others.
pub fn holds<D: Disk>(alloc: Global, library: &Library<D>, wanted: Held) -> Result<bool, Fail> {
    let count = usize::from(wanted.0.is_some()) + usize::from(wanted.1.is_some());
    Ok(
        library.list(alloc)?.len() == count
            && word_of(library, b'a')? == wanted.0
            && word_of(library, b'b')? == wanted.1,
    )
}

/// Whether the disk is opened and holds these units, and no others.
pub fn recovers<D: Disk + Drop>(alloc: Global, disk: D, wanted: Held) -> Result<bool, Fail> {
    holds(alloc, &opened(alloc, disk)?, wanted)
}

/// Whether a crash with this choice leaves a library that holds these units.
pub fn crash_leaves(
    alloc: Global,
    disk: &MemoryDisk,
    choice: &[u8],
    wanted: Held,
) -> Result<bool, Fail> {
    recovers(alloc, disk.crash(alloc, choice)?, wanted)
}

/// The number of the fault with which the disk is refused, or 0 if it is opened.
pub fn refusal<D: Disk + Drop>(alloc: Global, disk: D) -> u32 {
    match Library::open(alloc, disk) {
        Ok(_) => 0,
        Err((fault, _)) => fault.number(),
    }
}
