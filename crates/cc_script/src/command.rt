// What a line of a script asks for.

ghost use Rattle.std.specs.Prelude.{◌≡◌, ◌≤◌, ◌<◌, ◌+◌, ◌++◌, ◌∷◌, [], ℕ, List, Option, Some, None, IfSome, length, option_map};
ghost use Rattle.cc_script.specs.Line.{asked_by, asked_of, four_served_words, four_words, number_in, one_plain_word, one_served_word, one_word, two_plain_words, two_served_words, two_words, three_words, words};
ghost use Rattle.cc_script.specs.internal.Cutting.{words_behind};

/// A line may give a run at most this many instructions.
pub const MOST_STEPS: u64 = 1_000_000_000;

// The largest number of bytes of source that 6 digits can state.
const MOST_LENGTH: u64 = 999_999;

/// Which lines a script may have.
#[derive(Clone, Copy, Debug, Drop, PartialEq, Eq)]
pub enum Dialect {
    /// Those of a session's script.
    Plain,
    /// Those of a session's script, and `image NAME`, `source NAME`, `audit NAME`, `update NAME OLDLEN NEWLEN`, `call NAME STEPS
    /// LEN` and `space`: the lines of a script that is left for a server.
    Served,
}

// ORDER ScriptCommand
/// What a line of a script asks for.
#[derive(Clone, Copy, Drop)]
pub enum ScriptCommand<'a> {
    /// Add a unit under that name, compiled from `length` bytes of source after the line.
    Add {
        name: &'a [u8],
        length: usize,
    },
    /// Replace the unit under that name with one that is compiled in the same way.
    Replace {
        name: &'a [u8],
        length: usize,
    },
    /// Withdraw the unit under that name.
    Withdraw {
        name: &'a [u8],
    },
    /// List the names of all units.
    List,
    /// Run the unit under that name for at most `steps` instructions.
    Run {
        name: &'a [u8],
        steps: u64,
    },
    /// Write the library again, with one record for each unit.
    Compact,
    /// Audit each unit by its certificate.
    Audit,
    /// Write the image of the unit under that name.
    Image {
        name: &'a [u8],
    },
    /// Write the source of the unit under that name.
    Source {
        name: &'a [u8],
    },
    /// Audit the unit under that name.
    AuditOne {
        name: &'a [u8],
    },
    /// Replace the unit under that name if its source is the `expected` bytes after the line. The new unit is compiled from the
    /// `length` bytes after those.
    Update {
        name: &'a [u8],
        expected: usize,
        length: usize,
    },
    /// Run the unit under that name for at most `steps` instructions, on the input words of `length` bytes after the line.
    Call {
        name: &'a [u8],
        steps: u64,
        length: usize,
    },
    /// Say how much of its area the library uses.
    Space,
}

// The first word of a line, and what comes after the space that ends it, if a space does.
fn cut(line: &[u8]) -> (&[u8], Option<&[u8]>)
    ensures { words line.now ≡ words_behind result.0.now result.1 }
{
    for i in 0..line.len() {
        if line[i] == b' ' {
            return (&line[..i], Some(&line[i + 1..]));
        }
    }
    (line, None)
}

// The number that these bytes spell, if they are 1 to `digits` digits and the number is not above the limit.
fn number_in(bytes: &[u8], digits: usize, limit: u64) -> Option<u64>
    requires { digits ≤ 10 }
    ensures { result ≡ number_in digits limit bytes.now }
{
    if bytes.is_empty() || bytes.len() > digits {
        return None;
    }
    let mut number = 0;
    for i in 0..bytes.len() {
        if !bytes[i].is_ascii_digit() {
            return None;
        }
        number = 10 * number + u64::from(bytes[i] - b'0');
    }
    if number <= limit { Some(number) } else { None }
}

// How many bytes a source has.
fn length_in(bytes: &[u8]) -> Option<usize>
    ensures { result ≡ number_in 6 999999 bytes.now }
{
    match number_in(bytes, 6, MOST_LENGTH) {
        Some(length) => Some(length as usize),
        None => None,
    }
}

// The command of one word, if a session's script may have it.
fn one_plain_word<'a>(verb: &[u8]) -> Option<ScriptCommand<'a>>
    ensures { option_map asked_by result ≡ one_plain_word verb.now }
{
    if verb == b"list".as_slice() {
        Some(ScriptCommand::List)
    } else if verb == b"compact".as_slice() {
        Some(ScriptCommand::Compact)
    } else if verb == b"audit".as_slice() {
        Some(ScriptCommand::Audit)
    } else {
        None
    }
}

// The command of one word, if a script that is left for a server may have it.
fn one_served_word<'a>(verb: &[u8]) -> Option<ScriptCommand<'a>>
    ensures { option_map asked_by result ≡ one_served_word verb.now }
{
    if verb == b"space".as_slice() {
        Some(ScriptCommand::Space)
    } else {
        one_plain_word(verb)
    }
}

// A command of one word.
fn one_word<'a>(dialect: Dialect, verb: &[u8]) -> Option<ScriptCommand<'a>>
    ensures { option_map asked_by result ≡ one_word dialect verb.now }
{
    match dialect {
        Dialect::Plain => one_plain_word(verb),
        Dialect::Served => one_served_word(verb),
    }
}

// The command of two words, if a session's script may have it.
fn two_plain_words<'a>(verb: &[u8], name: &'a [u8]) -> Option<ScriptCommand<'a>>
    ensures { option_map asked_by result ≡ two_plain_words verb.now name.now }
{
    if verb == b"withdraw".as_slice() && !name.is_empty() {
        Some(ScriptCommand::Withdraw { name })
    } else {
        None
    }
}

// The command of two words, if a script that is left for a server may have it.
fn two_served_words<'a>(verb: &[u8], name: &'a [u8]) -> Option<ScriptCommand<'a>>
    ensures { option_map asked_by result ≡ two_served_words verb.now name.now }
{
    if verb == b"image".as_slice() && !name.is_empty() {
        Some(ScriptCommand::Image { name })
    } else if verb == b"source".as_slice() && !name.is_empty() {
        Some(ScriptCommand::Source { name })
    } else if verb == b"audit".as_slice() && !name.is_empty() {
        Some(ScriptCommand::AuditOne { name })
    } else {
        two_plain_words(verb, name)
    }
}

// A command of two words.
fn two_words<'a>(dialect: Dialect, verb: &[u8], name: &'a [u8]) -> Option<ScriptCommand<'a>>
    ensures { option_map asked_by result ≡ two_words dialect verb.now name.now }
{
    match dialect {
        Dialect::Plain => two_plain_words(verb, name),
        Dialect::Served => two_served_words(verb, name),
    }
}

// A command of three words.
fn three_words<'a>(verb: &[u8], name: &'a [u8], digits: &[u8]) -> Option<ScriptCommand<'a>>
    ensures { option_map asked_by result ≡ three_words verb.now name.now digits.now }
{
    if name.is_empty() {
        return None;
    }
    if verb == b"add".as_slice() {
        let length = length_in(digits)?;
        return Some(ScriptCommand::Add { name, length });
    }
    if verb == b"replace".as_slice() {
        let length = length_in(digits)?;
        return Some(ScriptCommand::Replace { name, length });
    }
    if verb == b"run".as_slice() {
        let steps = number_in(digits, 10, MOST_STEPS)?;
        return Some(ScriptCommand::Run { name, steps });
    }
    None
}

// The command of four words, if a script that is left for a server may have it.
fn four_served_words<'a>(
    verb: &[u8],
    name: &'a [u8],
    first: &[u8],
    second: &[u8],
) -> Option<ScriptCommand<'a>>
    ensures { option_map asked_by result ≡ four_served_words verb.now name.now first.now second.now }
{
    if name.is_empty() {
        return None;
    }
    if verb == b"update".as_slice() {
        let expected = length_in(first)?;
        let length = length_in(second)?;
        return Some(ScriptCommand::Update {
            name,
            expected,
            length,
        });
    }
    if verb == b"call".as_slice() {
        let steps = number_in(first, 10, MOST_STEPS)?;
        let length = length_in(second)?;
        return Some(ScriptCommand::Call {
            name,
            steps,
            length,
        });
    }
    None
}

// A command of four words.
fn four_words<'a>(
    dialect: Dialect,
    verb: &[u8],
    name: &'a [u8],
    first: &[u8],
    second: &[u8],
) -> Option<ScriptCommand<'a>>
    ensures { option_map asked_by result ≡ four_words dialect verb.now name.now first.now second.now }
{
    match dialect {
        Dialect::Plain => None,
        Dialect::Served => four_served_words(verb, name, first, second),
    }
}

/// What a line of a script, given without its newline, asks for; `None` if it is not a command of that dialect.
pub fn command_of(dialect: Dialect, line: &[u8]) -> Option<ScriptCommand<'_>>
    ensures { option_map asked_by result ≡ asked_of dialect line.now }
{
    let (verb, rest) = cut(line);
    let Some(rest) = rest else {
        return one_word(dialect, verb);
    };
    let (name, rest) = cut(rest);
    let Some(rest) = rest else {
        return two_words(dialect, verb, name);
    };
    let (first, rest) = cut(rest);
    let Some(rest) = rest else {
        return three_words(verb, name, first);
    };
    let (second, rest) = cut(rest);
    match rest {
        None => four_words(dialect, verb, name, first, second),
        Some(_) => None,
    }
}
