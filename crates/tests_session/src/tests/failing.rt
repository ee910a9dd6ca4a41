// Streams and disks that fail, and a stream that gives one byte at a time.

use crate::tests::helpers::{ends, formatted, written_on};
use cc_disk::{FuseDisk, FuseMode};
use cc_session::{SessionEnd, session};
use std::io::{self, ErrorKind, Read, Write};
use std::test::Fail;
use tests_texts::streams::{FailsBehind, Refuses};

// The reader fails within a line, and within a source: the script does not end there.
#[test]
fn a_read_that_fails(rt: HostRuntime) -> Result<(), Fail> {
    for script in ["l", "add a 16\nint ma"] {
        let mut reader = FailsBehind {
            bytes: script.as_bytes(),
        };
        let mut written = Vec::new(rt.alloc());
        let right = ends(
            &rt,
            rt.alloc(),
            &mut reader,
            &mut written,
            64,
            SessionEnd::Fault(53),
        )?;
        assert!(rt; right && written.as_slice() == b"fault 53 ReadFault\n".as_slice());
    }
    Ok(())
}

#[test]
fn a_write_that_fails(rt: HostRuntime) -> Result<(), Fail> {
    let mut reader = b"list\n".as_slice();
    let mut writer = Refuses;
    let right = ends(
        &rt,
        rt.alloc(),
        &mut reader,
        &mut writer,
        64,
        SessionEnd::Fault(54),
    )?;
    assert!(rt; right);
    Ok(())
}

/// Takes this number of answers, and refuses every write from then on.
#[derive(Drop)]
struct Takes {
    left: u8,
    taken: Vec<u8>,
}

impl Write for Takes {
    fn write(&mut self, buf: &[u8]) -> io::Result<usize> {
        if self.left == 0 {
            return Err(io::Error::from(ErrorKind::BrokenPipe));
        }
        self.taken.write(buf)
    }

    fn flush(&mut self) -> io::Result<()> {
        self.left = self.left.saturating_sub(1);
        Ok(())
    }
}

// An audit that is cut off after its first unit: nothing is written about the second one, and the script is over.
#[test]
fn an_audit_that_is_cut_off(rt: HostRuntime) -> Result<(), Fail> {
    let mut reader =
        b"add a 16\nint main(void){}\nadd b 16\nint main(void){}\naudit\nlist\n".as_slice();
    let mut writer = Takes {
        left: 3,
        taken: Vec::new(rt.alloc()),
    };
    let wanted = SessionEnd::Fault(54);
    let right = ends(&rt, rt.alloc(), &mut reader, &mut writer, 4096, wanted)?;
    assert!(rt; right && writer.taken.as_slice() == b"ok 1\nok 2\naudit a confirmed\n".as_slice());
    Ok(())
}

// The device fails in the first change: later ones are refused, looks go on, and the session ends as usual.
#[test]
fn a_device_that_fails_once(rt: HostRuntime) -> Result<(), Fail> {
    let alloc = rt.alloc();
    let mut reader =
        b"add a 16\nint main(void){}\nadd b 16\nint main(void){}\ncompact\nlist\n".as_slice();
    let mut written = Vec::new(alloc);
    // Three calls open the library.
    let disk = FuseDisk::new(formatted(alloc, 4096)?, 5, FuseMode::Once);
    let (disk, end) = session(&rt, alloc, &mut reader, &mut written, disk, 2);
    assert!(rt; disk.is_some() && end == SessionEnd::Finished);
    let lines = b"fault 35 DiskFault\nfault 36 Closed\nfault 36 Closed\nok 1\n".as_slice();
    assert!(rt; written.as_slice() == lines);
    Ok(())
}

// A script that can't be read any further within a source: the unit that was acknowledged before is there.
#[test]
fn what_a_read_that_fails_leaves(rt: HostRuntime) -> Result<(), Fail> {
    let alloc = rt.alloc();
    let mut reader = FailsBehind {
        bytes: b"add a 16\nint main(void){}\nadd b 99\nint".as_slice(),
    };
    let mut written = Vec::new(alloc);
    let disk = formatted(alloc, 4096)?;
    let (disk, end) = session(&rt, alloc, &mut reader, &mut written, disk, 1);
    let Some(disk) = disk else {
        return Err(Fail::from("no disk"));
    };
    let listed = written_on(&rt, alloc, b"list\n", disk)?;
    assert!(rt; end == SessionEnd::Fault(53));
    assert!(rt; listed.as_slice() == b"unit a\nok 1\n".as_slice());
    Ok(())
}

/// Gives one byte at a time, like someone who types.
#[derive(Drop)]
struct Typed<'a> {
    bytes: &'a [u8],
}

impl<'a> Read for Typed<'a> {
    fn read(&mut self, buf: &mut [u8]) -> io::Result<usize> {
        match (self.bytes.split_first(), buf.first_mut()) {
            (Some((byte, rest)), Some(room)) => {
                *room = *byte;
                self.bytes = rest;
                Ok(1)
            }
            _ => Ok(0),
        }
    }
}

#[test]
fn a_script_that_is_typed(rt: HostRuntime) -> Result<(), Fail> {
    let alloc = rt.alloc();
    let mut reader = Typed {
        bytes: b"add a 16\nint main(void){}\nadd a 16\nint main(void){}list\nadd b 0\n\nlist\nrun a 1000\nhello\nlist".as_slice(),
    };
    let mut written = Vec::new(alloc);
    let disk = formatted(alloc, 4096)?;
    let (_, end) = session(&rt, alloc, &mut reader, &mut written, disk, 2);
    let lines =
        b"ok 1\nfault 50 BadLine\nfault 5 Unexpected at 1:1\nunit a\nok 2\nexited 0\nfault 50 BadLine\nunit a\nok 4\n".as_slice();
    assert!(rt; end == SessionEnd::Finished && written.as_slice() == lines);
    Ok(())
}

// The third answer can't be written: its unit is there, but none of those that were handed in after it.
#[test]
fn a_write_that_fails_within_a_window(rt: HostRuntime) -> Result<(), Fail> {
    let alloc = rt.alloc();
    let mut reader =
        b"add a 16\nint main(void){}\nadd b 16\nint main(void){}\nadd c 16\nint main(void){}\nadd d 16\nint main(void){}\nadd e 16\nint main(void){}\n".as_slice();
    let mut writer = Takes {
        left: 2,
        taken: Vec::new(alloc),
    };
    let disk = formatted(alloc, 4096)?;
    let (disk, end) = session(&rt, alloc, &mut reader, &mut writer, disk, 2);
    let Some(disk) = disk else {
        return Err(Fail::from("no disk"));
    };
    assert!(rt;
        end == SessionEnd::Fault(54) && writer.taken.as_slice() == b"ok 1\nok 2\n".as_slice()
    );
    let listed = written_on(&rt, alloc, b"list\n", disk)?;
    assert!(rt; listed.as_slice() == b"unit a\nunit b\nunit c\nok 1\n".as_slice());
    Ok(())
}
