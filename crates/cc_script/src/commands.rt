// The commands of a script, as a person reads them.

/// How many of `COMMANDS` a session's script may have: those that come first.
pub const PLAIN_COMMANDS: usize = 7;

// ORDER ScriptCommand
/// The commands of a script, in the order in which a person reads them: those of a session's script, and then those that only a
/// script left for a server has. If LEN is at the end, that many bytes of source or of input words come after the line; OLDLEN
/// and NEWLEN are the lengths of two sources.
pub const COMMANDS: [&[u8]; 13] = [
    b"add NAME LEN",
    b"replace NAME LEN",
    b"withdraw NAME",
    b"list",
    b"run NAME STEPS",
    b"compact",
    b"audit",
    b"image NAME",
    b"source NAME",
    b"audit NAME",
    b"update NAME OLDLEN NEWLEN",
    b"call NAME STEPS LEN",
    b"space",
];
