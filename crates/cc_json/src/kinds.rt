// The objects for lines with several words: counts, audits, commands of a log, room, hashes.

use super::numbers::unsigned;
use super::object::Object;
use std::alloc::{AllocError, Global};

/// The words with which a count begins.
static COUNTED: [&str; 2] = ["executed", "steps"];

/// What an audit says.
static SAID: [&str; 3] = ["confirmed", "none", "unconfirmed"];

/// The modes that the line of a unit's file names.
static MODES: [&str; 4] = ["plain", "checked", "both", "none"];

/// What a command of a log did that stored a unit.
static STORED: [&str; 2] = ["add", "replace"];

// Whether this is one of these words.
fn is_among(word: &[u8], words: &[&str]) -> bool {
    words.iter().any(|known| known.as_bytes() == word)
}

// Whether this is a SHA-256 in digits.
fn is_digest(word: &[u8]) -> bool {
    word.len() == 64
        && word.iter().all(|byte| byte.is_ascii_digit() || (b'a' <= *byte && *byte <= b'f'))
}

// The object for a count: `executed N` or `steps N`.
fn count_of(alloc: Global, of: &[u8], count: u64) -> Result<Object, AllocError> {
    let mut object = Object::new(alloc, "count")?;
    object.bytes("of", of)?;
    object.count("value", count)?;
    Ok(object)
}

// The object for what an audit says: `audit NAME SAID`.
fn audit_of(alloc: Global, name: &[u8], said: &[u8]) -> Result<Object, AllocError> {
    let mut object = Object::new(alloc, "audit")?;
    object.bytes("name", name)?;
    object.bytes("said", said)?;
    Ok(object)
}

// The object for how much room a library takes: `space AREA USED COMPACTED UNITS`.
fn space_of(alloc: Global, numbers: [u64; 4]) -> Result<Object, AllocError> {
    let [area, used, compacted, units] = numbers;
    let mut object = Object::new(alloc, "space")?;
    object.count("area", area)?;
    object.count("used", used)?;
    object.count("compacted", compacted)?;
    object.count("units", units)?;
    Ok(object)
}

// The object for a command of a log: `K DID NAME`, and, if it stored a unit, the bytes of its source and the words of its code, and
// perhaps the SHA-256 of the source.
fn command_of(alloc: Global, number: u64, did: &[u8], name: &[u8]) -> Result<Object, AllocError> {
    let mut object = Object::new(alloc, "command")?;
    object.count("number", number)?;
    object.bytes("did", did)?;
    object.bytes("name", name)?;
    Ok(object)
}

// The object for the hash of a unit: `cclib-unit 1 MODES SHA256 NAME`.
fn hash_of(alloc: Global, modes: &[u8], digest: &[u8], name: &[u8]) -> Result<Object, AllocError> {
    let mut object = Object::new(alloc, "hash")?;
    object.bytes("confirmed", modes)?;
    object.bytes("sha256", digest)?;
    object.bytes("name", name)?;
    Ok(object)
}

// The object for a command of a log that stored a unit, with what comes after the name.
fn stored_of(
    alloc: Global,
    object: Object,
    lengths: (u64, u64),
    digest: Option<&[u8]>,
) -> Result<Object, AllocError> {
    let mut object = object;
    object.count("source", lengths.0)?;
    object.count("words", lengths.1)?;
    if let Some(digest) = digest {
        object.bytes("sha256", digest)?;
    }
    Ok(object)
}

// The object for a command of a log, whose line has these words after the number; `None` if it is another line.
fn logged(alloc: Global, number: u64, words: &[&[u8]]) -> Result<Option<Object>, AllocError> {
    match words {
        [did, name] if *did == b"withdraw".as_slice() => {
            Ok(Some(command_of(alloc, number, did, name)?))
        }
        [did, name, source, code, rest @ ..] if is_among(did, &STORED) => {
            let (Some(source), Some(code)) = (unsigned(source), unsigned(code)) else {
                return Ok(None);
            };
            let digest = match rest {
                [] => None,
                [digest] if is_digest(digest) => Some(*digest),
                _ => return Ok(None),
            };
            let object = command_of(alloc, number, did, name)?;
            Ok(Some(stored_of(alloc, object, (source, code), digest)?))
        }
        _ => Ok(None),
    }
}

// The object for how much room a library takes; `None` if the words are not four numbers.
fn room(alloc: Global, words: &[&[u8]]) -> Result<Option<Object>, AllocError> {
    let [area, used, compacted, units] = words else {
        return Ok(None);
    };
    let (Some(area), Some(used), Some(compacted), Some(units)) = (
        unsigned(area),
        unsigned(used),
        unsigned(compacted),
        unsigned(units),
    ) else {
        return Ok(None);
    };
    Ok(Some(space_of(alloc, [area, used, compacted, units])?))
}

// The object for a line of these words; `None` if it is none of these.
fn object_of_words(alloc: Global, words: &[&[u8]]) -> Result<Option<Object>, AllocError> {
    match words {
        [first, rest @ ..] if *first == b"space".as_slice() => room(alloc, rest),
        [of, count] if is_among(of, &COUNTED) => match unsigned(count) {
            Some(count) => Ok(Some(count_of(alloc, of, count)?)),
            None => Ok(None),
        },
        [first, name, said] if *first == b"audit".as_slice() && is_among(said, &SAID) => {
            Ok(Some(audit_of(alloc, name, said)?))
        }
        [first, version, modes, digest, name]
            if *first == b"cclib-unit".as_slice()
                && *version == b"1".as_slice()
                && is_among(modes, &MODES)
                && is_digest(digest) => Ok(Some(hash_of(alloc, modes, digest, name)?)),
        [number, rest @ ..] => match unsigned(number) {
            Some(number) => logged(alloc, number, rest),
            None => Ok(None),
        },
        [] => Ok(None),
    }
}

/// The most words that a line of one of these kinds has.
const MOST_WORDS: usize = 6;

/// The object for a line of one of these kinds; `None` if the line is of none of them.
pub(crate) fn object_of_kind(alloc: Global, line: &[u8]) -> Result<Option<Object>, AllocError> {
    let mut words: Vec<&[u8]> = Vec::new(alloc);
    for word in line.split(|byte| *byte == b' ') {
        if word.is_empty() || words.len() >= MOST_WORDS {
            return Ok(None);
        }
        words.push(word)?;
    }
    object_of_words(alloc, words.as_slice())
}
