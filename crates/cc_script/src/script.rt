// The lines and the sources of a script, as they are read.

ghost use Rattle.std.specs.Prelude.{◌≡◌, ◌≤◌, ◌<◌, ◌+◌, ◌++◌, ℕ, List, Option, [], length, true, false, IfErr, IfOk, IfSome, OnOk, min, vec_len};
ghost use Rattle.std.specs.Option.{option_map};
ghost use Rattle.cc_script.specs.declared.fault.ScriptFault.TheVariants.{ReadFault};
ghost use Rattle.cc_script.specs.Reading.{Between, IsLine, IsLineEnd, IsNext, IsNotRead, IsNoSource, IsSource, IsWithinLine, ahead_of};
ghost use Rattle.cc_script.specs.internal.Bytes.{IsNextByte};
ghost use Rattle.std.specs.Io.KnownBytes.{IsAtEnd, Keeps};

use super::fault::ScriptFault;
use std::alloc::Global;
use std::io::Read;
use std::marker::Model;

/// A script may have at most this many bytes.
pub const SCRIPT_BYTES: usize = 16_777_216;

/// A line may have at most this many bytes, without its newline.
pub const LINE_BYTES: usize = 128;

/// How many bytes of a source are kept: one more than a source may have, so that a longer one can be recognized.
const KEPT_BYTES: usize = 65_537;

/// How many bytes a reader is asked for at a time.
const PIECE_BYTES: usize = 65_536;

/// What comes next in a script.
#[derive(Clone, Copy, Drop)]
pub enum NextLine {
    /// A line of this many bytes, without its newline. If the script ends after at least one byte, that is a line too.
    Line(usize),
    /// More bytes of a line than it may have. The rest of it is still to be skipped.
    TooLong,
    /// The end of the script.
    End,
}

/// How far a script has been read. Its reader is asked for more only once all that was read has been used. A clause sees what was read
/// but not used yet, whether the reader was at its end, and how many more bytes the script may have.
#[derive(Drop)]
pub struct Script {
    piece: [u8; PIECE_BYTES],
    // What was read but not used yet lies between these two offsets.
    next: usize,
    end: usize,
    // How many more bytes the script may have.
    left: usize,
    // Whether the reader was at its end.
    is_over: bool,
    ghost within: { (next ≤ end) × (end ≤ 65536) },
}

impl Model for Script {
    ghost use Rattle.std.specs.Prelude.{slice_range};
    ghost use Rattle.cc_script.specs.Reading.{ScriptView};

    ghost Value = { ScriptView };

    ghost view = { λ s. record { held = slice_range s.piece s.next s.end; is_over = s.is_over; left = s.left } };
}

impl Script {
    /// A script that has not been read at all.
    pub fn new() -> Script
        ensures { result ≡ record { held = []; is_over = false; left = 16777216 } }
    {
        Script {
            piece: [0; PIECE_BYTES],
            next: 0,
            end: 0,
            left: SCRIPT_BYTES,
            is_over: false,
        }
    }

    /// What was read but not used yet: the next bytes of the script, to be looked at before their turn. Nothing is read for this.
    pub fn held(&self) -> &[u8]
        ensures held { result.now ≡ self.now.held }
        // Whatever the reader gives from now on, what is ahead begins with these bytes.
        ensures ahead { (remaining : Option (List ℕ)) → IfSome (ahead_of self.now remaining).rest (λ bytes. (rest : List ℕ) × (bytes ≡ result.now ++ rest)) }
    {
        &self.piece[self.next..self.end]
    }

    /// How many more bytes the script may have: 16,777,216 less those that were used.
    pub fn left(&self) -> usize
        ensures { result ≡ self.now.left }
    {
        self.left
    }

    // Reads more, if all that was read has been used. The result is whether there is a byte that was not used yet.
    fn fill<R: Read>(&mut self, reader: &mut R) -> Result<bool, ScriptFault>
        ensures filled { IfOk result (λ is_more. is_more ≡ true → 0 < length self.new.held) }
        ensures left { self.new.left ≡ self.old.left }
        ensures refused { IfErr result (λ fault. fault ≡ ReadFault) }
        ensures bytes { OnOk result (Keeps (ahead_of self.old (R.remaining reader.old)).rest
            (ahead_of self.new (R.remaining reader.new)).rest) }
        ensures over { IfOk result (λ is_more. is_more ≡ false → IsAtEnd (ahead_of self.new (R.remaining reader.new)).rest) }
    {
        if self.next < self.end {
            return Ok(true);
        }
        if self.is_over {
            return Ok(false);
        }
        let Ok(count) = reader.read(&mut self.piece) else {
            return Err(ScriptFault::ReadFault);
        };
        self.next = 0;
        self.end = count;
        self.is_over = count == 0;
        Ok(count > 0)
    }

    // The next byte, or `None` at the end.
    fn byte<R: Read>(&mut self, reader: &mut R) -> Result<Option<u8>, ScriptFault>
        ensures bytes { IfOk result (λ next. IsNextByte (ahead_of self.old (R.remaining reader.old)) next
            (ahead_of self.new (R.remaining reader.new))) }
        ensures refused { IfErr result (IsNotRead (ahead_of self.old (R.remaining reader.old)) self.new.left) }
    {
        if !self.fill(reader)? {
            return Ok(None);
        }
        if self.left == 0 {
            return Err(ScriptFault::ScriptTooLong);
        }
        let byte = self.piece[self.next];
        self.next += 1;
        self.left -= 1;
        Ok(Some(byte))
    }

    /// Reads the next line into `line`, up to its newline or the end of the script.
    ///
    /// 52 if the script has more bytes than it may have, 53 if it can't be read.
    pub fn next_line<R: Read>(
        &mut self,
        reader: &mut R,
        line: &mut [u8; LINE_BYTES],
    ) -> Result<NextLine, ScriptFault>
        ensures within { IfOk result IsWithinLine }
        ensures bytes { IfOk result (λ next. Between (ahead_of self.old (R.remaining reader.old))
            (ahead_of self.new (R.remaining reader.new)) (λ before after. IsNext before next line.new after)) }
        ensures refused { IfErr result (IsNotRead (ahead_of self.old (R.remaining reader.old)) self.new.left) }
    {
        for length in 0..LINE_BYTES {
            match self.byte(reader)? {
                None if length == 0 => return Ok(NextLine::End),
                None | Some(b'\n') => return Ok(NextLine::Line(length)),
                Some(byte) => line[length] = byte,
            }
        }
        match self.byte(reader)? {
            None | Some(b'\n') => Ok(NextLine::Line(LINE_BYTES)),
            Some(_) => Ok(NextLine::TooLong),
        }
    }

    /// Skips what is left of a line, and its newline.
    ///
    /// 52 and 53 as for `next_line`.
    pub fn skip_line<R: Read>(&mut self, reader: &mut R) -> Result<(), ScriptFault>
        ensures bytes { OnOk result (Between (ahead_of self.old (R.remaining reader.old))
            (ahead_of self.new (R.remaining reader.new)) (λ before after. (rest : List ℕ) × IsLine before rest after)) }
        ensures refused { IfErr result (IsNotRead (ahead_of self.old (R.remaining reader.old)) self.new.left) }
    {
        while let Some(byte) = self.byte(reader)? {
            if byte == b'\n' {
                break;
            }
        }
        Ok(())
    }

    /// The next source, which has this many bytes; only its first 65,537 bytes if it has more than 65,536. `None` if memory for it ran
    /// out; the source is read in that case too.
    ///
    /// 51 if the script ends before the source does, 52 and 53 as for `next_line`.
    pub fn source<R: Read>(
        &mut self,
        alloc: Global,
        reader: &mut R,
        length: usize,
    ) -> Result<Option<Vec<u8>>, ScriptFault>
        ensures kept { IfOk result (λ source. IfSome source (λ bytes. vec_len bytes ≡ min length 65537)) }
        ensures counted { OnOk result (self.new.left + length ≡ self.old.left) }
        ensures bytes { IfOk result (λ source. Between (ahead_of self.old (R.remaining reader.old))
            (ahead_of self.new (R.remaining reader.new)) (λ before after. IsSource before length (option_map (λ bytes. bytes.items) source) after)) }
        ensures refused { IfErr result (IsNoSource (ahead_of self.old (R.remaining reader.old)) length self.new.left) }
    {
        let mut source = Vec::new(alloc);
        let mut is_kept = true;
        for _ in 0..length {
            let Some(byte) = self.byte(reader)? else {
                return Err(ScriptFault::EndOfScript);
            };
            if is_kept && source.len() < KEPT_BYTES {
                is_kept = source.push(byte).is_ok();
            }
        }
        Ok(if is_kept { Some(source) } else { None })
    }

    /// Whether a source ends here: with a newline, which is skipped, or with the end of the script.
    ///
    /// 52 and 53 as for `next_line`.
    pub fn is_at_line_end<R: Read>(&mut self, reader: &mut R) -> Result<bool, ScriptFault>
        ensures bytes { IfOk result (λ is_ended. Between (ahead_of self.old (R.remaining reader.old))
            (ahead_of self.new (R.remaining reader.new)) (λ before after. IsLineEnd before is_ended after)) }
        ensures refused { IfErr result (IsNotRead (ahead_of self.old (R.remaining reader.old)) self.new.left) }
    {
        match self.byte(reader)? {
            None | Some(b'\n') => Ok(true),
            Some(_) => Ok(false),
        }
    }
}
