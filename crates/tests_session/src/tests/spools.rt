// Spools in memory, with scripts of several clients, and the answers that each gets whatever the others do.

use cc_spool::MemorySpool;
use std::alloc::{AllocError, Global};
use std::collections::VecDeque;
use std::io::{self, ErrorKind, Read, Write};
use std::test::Fail;

/// The scripts of a client, in turn, with the lines of their answers: `@` means the client's letter, `#` a receipt's number.
pub static SCRIPTS: [(&str, &str); 14] = [
    (
        "add @ 16\nint main(void){}\nrun @ 1000\n",
        "ok #\nexited 0\n",
    ),
    ("add @ 16\nint main(void){}\n", "fault 31 Exists\n"),
    (
        "add @2 40\nint main(void){write_word(7);return -2;}\nrun @2 1000\nrun @2 1\n",
        "ok #\n7\nexited -2\ngoing\n",
    ),
    (
        "replace @ 40\nint main(void){write_word(7);return -2;}\nrun @ 1000\n",
        "ok #\n7\nexited -2\n",
    ),
    ("withdraw @2\nwithdraw @2\n", "ok #\nfault 32 Absent\n"),
    (
        "hello\nadd @3 26\nint main(void){return 1 2}\n",
        "fault 50 BadLine\nfault 5 Unexpected at 1:25\n",
    ),
    ("compact\n", "ok\n"),
    (
        "add @3 19\nint main(void)\n{x;}\nrun @3 5\n",
        "fault 11 Unknown at 2:2\nfault 32 Absent\n",
    ),
    ("", ""),
    ("replace @9 16\nint main(void){}\n", "fault 32 Absent\n"),
    ("add @4 0\n\n", "fault 5 Unexpected at 1:1\n"),
    (
        "add A 4\nlist\nrun @ 1000\n",
        "fault 33 BadName\n7\nexited -2\n",
    ),
    ("withdraw @\n", "ok #\n"),
    ("add @ 16\nint main(void){}\n", "ok #\n"),
];

/// The clients, each with how many of the scripts it hands in: forty in all.
pub const CLIENTS: [(u8, usize); 3] = [(b'a', 14), (b'b', 13), (b'c', 13)];

/// A script. If it is torn, it can't be read past its bytes.
#[derive(Drop)]
pub struct Paper {
    pub bytes: VecDeque<u8>,
    pub is_torn: bool,
}

impl Read for Paper {
    fn read(&mut self, buf: &mut [u8]) -> io::Result<usize> {
        if self.is_torn && self.bytes.is_empty() {
            return Err(io::Error::from(ErrorKind::BrokenPipe));
        }
        self.bytes.read(buf)
    }
}

/// What an answer is written to. A write of more bytes than there is room for fails.
#[derive(Drop)]
pub struct Page {
    pub bytes: Vec<u8>,
    pub room: usize,
}

impl Write for Page {
    fn write(&mut self, buf: &[u8]) -> io::Result<usize> {
        if buf.len() > self.room {
            return Err(io::Error::from(ErrorKind::StorageFull));
        }
        self.room -= buf.len();
        self.bytes.write(buf)
    }

    fn flush(&mut self) -> io::Result<()> {
        Ok(())
    }
}

/// An answer that is not cut off has at most this many bytes.
pub const ROOM: usize = 4_000_000;

/// An empty answer with this room.
pub fn page_of(alloc: Global, room: usize) -> Page {
    Page {
        bytes: Vec::new(alloc),
        room,
    }
}

/// A text with the client's letter in it.
pub fn of_client(alloc: Global, text: &str, letter: u8) -> Result<Vec<u8>, AllocError> {
    let mut bytes = Vec::new(alloc);
    for byte in text.bytes() {
        bytes.push(if byte == b'@' { letter } else { byte })?;
    }
    Ok(bytes)
}

/// The lines with `#` for the number of each receipt.
pub fn without_numbers(alloc: Global, lines: &[u8]) -> Result<Vec<u8>, AllocError> {
    let mut kept = Vec::new(alloc);
    for line in lines.split_inclusive(|byte| *byte == b'\n') {
        let is_receipt = line.starts_with(b"ok ".as_slice());
        kept.extend_from_slice(if is_receipt {
            b"ok #\n".as_slice()
        } else {
            line
        })?;
    }
    Ok(kept)
}

/// A spool with the first `count` scripts of a client.
pub fn spool_of(
    alloc: Global,
    letter: u8,
    count: usize,
) -> Result<MemorySpool<Paper, Page>, AllocError> {
    let mut scripts = Vec::new(alloc);
    for (script, _) in SCRIPTS.iter().take(count) {
        let paper = Paper {
            bytes: VecDeque::from(of_client(alloc, script, letter)?),
            is_torn: false,
        };
        scripts.push((paper, page_of(alloc, ROOM)))?;
    }
    MemorySpool::new(alloc, scripts)
}

/// A spool of each client, with its scripts.
pub fn spools_of_all(alloc: Global) -> Result<Vec<MemorySpool<Paper, Page>>, AllocError> {
    let mut spools = Vec::new(alloc);
    for (letter, count) in CLIENTS {
        spools.push(spool_of(alloc, letter, count)?)?;
    }
    Ok(spools)
}

/// A script with these bytes.
pub fn script_of(alloc: Global, script: &[u8], is_torn: bool) -> Result<Paper, AllocError> {
    let mut bytes = Vec::new(alloc);
    bytes.extend_from_slice(script)?;
    Ok(Paper {
        bytes: VecDeque::from(bytes),
        is_torn,
    })
}

/// All answers of a spool, one after the other, with `#` for the number of each receipt.
pub fn answers_of(alloc: Global, spool: &MemorySpool<Paper, Page>) -> Result<Vec<u8>, AllocError> {
    let mut all = Vec::new(alloc);
    for done in spool.answered() {
        let kept = without_numbers(alloc, done.answer.bytes.as_slice())?;
        all.extend_from_slice(kept.as_slice())?;
    }
    Ok(all)
}

/// Whether exactly `count` of the scripts of a client were answered, each as it should be.
pub fn is_right(
    alloc: Global,
    letter: u8,
    count: usize,
    spool: &MemorySpool<Paper, Page>,
) -> Result<bool, Fail> {
    let mut right = spool.answered().len() == count;
    for ((_, lines), done) in SCRIPTS.iter().zip(spool.answered()) {
        let wanted = of_client(alloc, lines, letter)?;
        let kept = without_numbers(alloc, done.answer.bytes.as_slice())?;
        right = right && done.fault.is_none() && kept.as_slice() == wanted.as_slice();
    }
    Ok(right)
}
