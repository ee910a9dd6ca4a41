// Which answers report a fault, and how many lines there are so far.

use cc_watch::{AnswerProgress, FaultWatch};
use std::alloc::Global;
use std::cell::Cell;
use std::io::{self, Write};
use std::rt::Clock;
use std::test::Fail;
use std::time::Duration;

// Whether a fault is seen in what is written piece by piece.
fn sees(alloc: Global, pieces: &[&[u8]]) -> Result<bool, Fail> {
    let mut watch = FaultWatch::new(Vec::new(alloc));
    for piece in pieces {
        watch.write_all(piece)?;
    }
    Ok(watch.has_fault())
}

#[test]
fn lines_of_faults(rt: HostRuntime) -> Result<(), Fail> {
    let alloc = rt.alloc();
    for (pieces, wanted) in [
        ([b"fault 32 Absent\n".as_slice(), b""].as_slice(), true),
        (&[b"ok 1\nfau", b"lt 50 BadLine\n"], true),
        (&[b"fault", b" "], true),
        (&[b"fault\nfaults 1\n", b"ok\n"], false),
        (&[b" fault 1\nunit fault 1\n", b"xfault 1\n"], false),
        (&[b"faulfault 1\n", b"ffault 1\n"], false),
    ] {
        assert!(rt; sees(alloc, pieces)? == wanted);
    }
    Ok(())
}

// A clock that advances by a second each time that it is read.
#[derive(Drop)]
struct Ticks {
    next: Cell<u64>,
}

impl Clock for Ticks {
    fn monotonic(&self) -> io::Result<Duration> {
        let now = self.next.get();
        self.next.set(now.saturating_add(1));
        Ok(Duration::from_secs(now))
    }

    fn since_1970(&self) -> io::Result<Duration> {
        Ok(Duration::from_secs(0))
    }
}

// Nothing is shown for two seconds, and then at most once a second.
#[test]
fn lines_so_far(rt: HostRuntime) -> Result<(), Fail> {
    let alloc = rt.alloc();
    let mut screen = Vec::new(alloc);
    let mut writer = AnswerProgress::new(
        Vec::new(alloc),
        Ticks { next: Cell::new(7) },
        Some(&mut screen),
        "lines of answers",
    );
    for line in [b"ok 1\n".as_slice(), b"ok 2\n", b"unit a\nok"] {
        writer.write_all(line)?;
    }
    writer.clear();
    let is_kept = writer.writer().as_slice() == b"ok 1\nok 2\nunit a\nok".as_slice();
    drop(writer);
    assert!(rt; is_kept);
    let said =
        b"\r\x1b[Kcclib: 2 lines of answers so far\r\r\x1b[Kcclib: 3 lines of answers so far\r\r\x1b[K";
    assert!(rt; screen.as_slice() == said.as_slice());
    Ok(())
}
