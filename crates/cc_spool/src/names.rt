// Which files are scripts, judged by their names; and names that nobody else has.

ghost use Rattle.std.specs.Prelude.{◌≡◌};
ghost use Rattle.std.specs.List.{list_all};
ghost use Rattle.cc_spool.specs.Names.{is_letter, is_plain, is_plain_byte};

use crate::refusal::Refusal;
use std::alloc::Global;
use std::fs::File;
use std::io::Read;
use std::time::{Duration, SystemTime};

/// The name of a script has at most this many bytes.
const NAME_BYTES: usize = 64;

/// What comes after the script's name in the name of an answer that is being written. No name of a script ends this way.
pub const ANSWER: &str = ".answer";

/// The beginning of the name of a file with which a server tests the folder. No name of a script begins this way.
pub const TRIED: &str = ".try-";

fn is_letter(byte: u8) -> bool
    ensures { result ≡ is_letter byte }
{
    (b'A' <= byte && byte <= b'Z') || (b'a' <= byte && byte <= b'z')
}

fn is_plain_byte(byte: u8) -> bool
    ensures { result ≡ is_plain_byte byte }
{
    is_letter(byte) || (b'0' <= byte && byte <= b'9') || byte == b'-' || byte == b'_'
}

fn are_plain_bytes(bytes: &[u8]) -> bool
    ensures { result ≡ list_all is_plain_byte bytes.now }
{
    bytes.iter().all(|byte| is_plain_byte(*byte))
}

/// Whether a file with this name may be a script: 1 to 64 letters, digits, `-` and `_`. So no such name is a path, is hidden, or is
/// the name of an answer that is being written.
pub fn is_plain(name: &str) -> bool
    ensures { result ≡ is_plain name.now }
{
    let bytes = name.as_bytes();
    1 <= bytes.len() && bytes.len() <= NAME_BYTES && are_plain_bytes(bytes)
}

// 64 random bits from the system.
fn random_bits(rt: &HostRuntime) -> Result<u64, Refusal> {
    let mut bytes = [0u8; 8];
    let mut file = File::open(rt, "/dev/urandom")?;
    file.read_exact(&mut bytes)?;
    Ok(u64::from_le_bytes(bytes))
}

/// The time since the beginning of 1970; none if the clock is before that.
pub(crate) fn since_1970(rt: &HostRuntime) -> Result<Duration, Refusal> {
    let now = SystemTime::now(rt)?;
    Ok(
        now.duration_since(SystemTime::UNIX_EPOCH)
            .unwrap_or(Duration::ZERO),
    )
}

/// A name of 48 bytes that nobody else has: the time, so that scripts are taken in the order of time; the number of a process; and 64
/// random bits.
pub(crate) fn fresh_name(rt: &HostRuntime, alloc: Global, process: u32) -> Result<String, Refusal> {
    let own = random_bits(rt)?;
    let since = since_1970(rt)?;
    let (seconds, nanoseconds) = (since.as_secs(), since.subsec_nanos());
    Ok(format!(in alloc; "{seconds:010}-{nanoseconds:09}-{process:010}-{own:016x}")?)
}
