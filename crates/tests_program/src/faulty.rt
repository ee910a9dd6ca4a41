// Readers, writers and disks that fail, and a fault that no known text has.

use cc_answers::Telling;
use cc_disk::{FuseDisk, FuseMode, MemoryDisk};
use cc_journal::format;
use cc_link::PieceFault;
use cc_sources::NamedText;
use cc_task::{Kind, Part, Task};
use cc_tasks::{
    Fault, PartFault, perform, perform_and_explain, perform_and_explain_stages, perform_into,
    perform_stages, perform_texts_into, take_out,
};
use std::alloc::{AllocError, Global};
use std::io::{self, ErrorKind, Write};
use std::test::Fail;
use tests_texts::streams::{FailsBehind, Refuses};

fn says_that_a_read_failed<H: AllocGlobal>(rt: &H) -> bool {
    let mut reader = FailsBehind {
        bytes: b"l".as_slice(),
    };
    let mut written = Vec::new(rt.alloc());
    let status = perform(rt, Task::Check, &mut reader, &mut written);
    status == 1 && written.as_slice() == b"fault 53 ReadFault\n".as_slice()
}

#[test]
fn a_read_that_fails(rt: HostRuntime) {
    assert!(rt; says_that_a_read_failed(&rt));
}

#[test]
fn a_write_that_fails(rt: HostRuntime) {
    let mut reader = b"int main(void){}".as_slice();
    let mut writer = Refuses;
    let task = Task::Interpret(1, Vec::new(rt.alloc()));
    let status = perform(&rt, task, &mut reader, &mut writer);
    assert!(rt; status == 1);
}

// Whether a task whose answer cannot be written says so to a person.
fn says_that_a_write_failed<H: AllocGlobal>(rt: &H) -> bool {
    let mut reader = b"int main(void){}".as_slice();
    let mut writer = Refuses;
    let mut told = Vec::new(rt.alloc());
    let done = perform_and_explain(rt, Task::Check, &mut reader, &mut writer, &mut told);
    done.status == 1
        && !done.is_written
        && told.as_slice() == b"cclib: the answer could not be written\n".as_slice()
}

#[test]
fn a_write_that_fails_is_told(rt: HostRuntime) {
    assert!(rt; says_that_a_write_failed(&rt));
}

// A writer that takes each byte, and fails when it is flushed.
#[derive(Drop)]
struct FailsLater;

impl Write for FailsLater {
    fn write(&mut self, buf: &[u8]) -> io::Result<usize> {
        Ok(buf.len())
    }

    fn flush(&mut self) -> io::Result<()> {
        Err(io::Error::from(ErrorKind::BrokenPipe))
    }
}

// Explanations that are kept in memory.
fn kept_explanations(alloc: Global) -> Telling<Vec<u8>> {
    Telling {
        errors: Vec::new(alloc),
        is_quiet: false,
    }
}

// Whether a task whose answer does not get out to its writer has status 1, and says so to a person.
fn says_that_nothing_got_out<H: AllocGlobal, A: Write + Drop>(
    rt: &H,
    out: A,
) -> Result<bool, AllocError> {
    let mut reader = b"int main(void){}".as_slice();
    let mut told = kept_explanations(rt.alloc());
    let (done, out) = perform_into(rt, Task::Check, &mut reader, out, &mut told)?;
    drop(out);
    Ok(
        done.status == 1
            && !done.is_written
            && told.errors.as_slice() == b"cclib: the answer could not be written\n".as_slice(),
    )
}

#[test]
fn a_flush_that_fails(rt: HostRuntime) -> Result<(), Fail> {
    assert!(rt; says_that_nothing_got_out(&rt, FailsLater)?);
    Ok(())
}

#[test]
fn a_buffer_that_cannot_be_emptied(rt: HostRuntime) -> Result<(), Fail> {
    assert!(rt; says_that_nothing_got_out(&rt, Refuses)?);
    Ok(())
}

#[test]
fn an_answer_that_is_in_the_writer_itself(rt: HostRuntime) -> Result<(), Fail> {
    let mut reader = b"int main(void){}".as_slice();
    let mut told = kept_explanations(rt.alloc());
    let out = Vec::new(rt.alloc());
    let (done, out) = perform_into(&rt, Task::Check, &mut reader, out, &mut told)?;
    assert!(rt; done.status == 0 && done.is_written && out.as_slice() == b"ok\n".as_slice());
    Ok(())
}

#[test]
fn an_answer_to_texts_that_is_in_the_writer_itself(rt: HostRuntime) -> Result<(), Fail> {
    let alloc = rt.alloc();
    let mut texts = Vec::new(alloc);
    texts.push(NamedText {
        name: String::from_str(alloc, "a.c")?,
        bytes: Vec::from_slice(alloc, b"int main(void){}")?,
    })?;
    let mut told = kept_explanations(alloc);
    let out = Vec::new(alloc);
    let (done, out) = perform_texts_into(&rt, Task::Check, texts.as_slice(), out, &mut told)?;
    assert!(rt; done.status == 0 && done.is_written && out.as_slice() == b"ok\n".as_slice());
    Ok(())
}

// An explanation that cannot be written changes neither the fault's line nor the status.
fn is_done_without_explanation<H: AllocGlobal>(rt: &H) -> bool {
    let mut reader = b"x".as_slice();
    let mut written = Vec::new(rt.alloc());
    let mut told = Refuses;
    let done = perform_and_explain(rt, Task::Check, &mut reader, &mut written, &mut told);
    done.status == 1
        && done.is_written
        && written.as_slice() == b"fault 5 Unexpected at 1:1\n".as_slice()
}

#[test]
fn an_explanation_that_fails(rt: HostRuntime) {
    assert!(rt; is_done_without_explanation(&rt));
}

#[test]
fn a_read_of_stages_that_fails(rt: HostRuntime) {
    let mut reader = FailsBehind {
        bytes: b"".as_slice(),
    };
    let mut written = Vec::new(rt.alloc());
    let status = perform_stages(&rt, Kind::Plain, None, &mut reader, &mut written);
    assert!(rt; status == 1 && written.as_slice() == b"fault 53 ReadFault\n".as_slice());
}

#[test]
fn a_write_of_stages_that_fails(rt: HostRuntime) {
    let mut reader = b"int main(void){}".as_slice();
    let mut writer = Refuses;
    let mut told = Vec::new(rt.alloc());
    let status = perform_and_explain_stages(
        &rt,
        Kind::Plain,
        None,
        &mut reader,
        &mut writer,
        &mut told,
    );
    assert!(rt;
        status == 1 && told.as_slice() == b"cclib: the answer could not be written\n".as_slice()
    );
}

// A formatted disk with two areas of 1,024 bytes.
fn formatted(alloc: Global) -> Result<MemoryDisk, Fail> {
    let mut disk = MemoryDisk::new(alloc, 16 + 2 * 1024)?;
    format(&mut disk, 1024)?;
    Ok(disk)
}

// The number of the fault, or 0 if there is none.
fn refusal(found: Result<Vec<u8>, PartFault>) -> u32 {
    match found {
        Ok(bytes) => {
            drop(bytes);
            0
        }
        Err(fault) => fault.number(),
    }
}

// The opening comes first, before a refusal of bytes that are no name.
#[test]
fn a_part_of_a_disk_that_fails(rt: HostRuntime) -> Result<(), Fail> {
    let alloc = rt.alloc();
    let disk = FuseDisk::new(formatted(alloc)?, 0, FuseMode::Once);
    let mut told = Vec::new(alloc);
    let (found, disk) = take_out(alloc, disk, b"A", Part::Image, &mut told);
    drop(disk);
    assert!(rt; refusal(found) == 35 && told.is_empty());
    Ok(())
}

#[test]
fn an_explanation_of_a_part_that_fails(rt: HostRuntime) -> Result<(), Fail> {
    let mut told = Refuses;
    let (found, disk) = take_out(
        rt.alloc(),
        formatted(rt.alloc())?,
        b"b",
        Part::Image,
        &mut told,
    );
    drop(disk);
    assert!(rt; refusal(found) == 32);
    Ok(())
}

// No text is known in which the compiler's validator refuses a function, so the fault is made by hand, for the second function
// here.
#[test]
fn a_function_that_is_not_validated(rt: HostRuntime) {
    let text = b"int f(int x){return x;}int main(void){}".as_slice();
    let fault = Fault::Piece(PieceFault::Unvalidated {
        at: 27,
        length: 4,
        label: 7,
    });
    let mut line = Vec::new(rt.alloc());
    let written = fault.write_line(text, &mut line);
    let right = written.is_ok()
        && fault.number() == 24
        && line.as_slice() == b"fault 24 Unvalidated in main at label 7\n".as_slice();
    drop(fault);
    assert!(rt; right);
}
