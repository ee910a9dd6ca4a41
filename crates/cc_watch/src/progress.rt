// A writer that shows on a terminal how many lines were written to it.

ghost use Rattle.std.specs.Prelude.{◌≡◌};

use std::io::{self, Write};
use std::rt::Clock;

/// Nothing is shown in the first two seconds.
const QUIET: u64 = 2;

/// A writer that shows how many lines were written to it: from the third second on, at most once a second, on one line of a
/// terminal, which is overwritten.
#[derive(Drop)]
pub struct AnswerProgress<W: Drop, C: Drop, E: Drop> {
    writer: W,
    clock: C,
    // The terminal that shows the count, if one does.
    screen: Option<E>,
    // The second from which on something is shown.
    next: u64,
    lines: u64,
    // What the lines are, as a plural.
    things: &'static str,
    is_shown: bool,
}

// The time on a clock, in whole seconds; `None` if the clock can't be read.
fn second<C: Clock>(clock: &C) -> Option<u64> {
    match clock.monotonic() {
        Ok(time) => Some(time.as_secs()),
        Err(error) => {
            drop(error);
            None
        }
    }
}

impl<W: Write + Drop, C: Clock + Drop, E: Write + Drop> AnswerProgress<W, C, E> {
    /// Wraps a writer. The screen, if there is one, shows the number of lines, followed by what they are: `things`, for
    /// example `lines of answers`.
    pub fn new(
        writer: W,
        clock: C,
        screen: Option<E>,
        things: &'static str,
    ) -> AnswerProgress<W, C, E>
        ensures { result.writer ≡ writer }
    {
        let next = match second(&clock) {
            Some(now) => now.saturating_add(QUIET),
            None => u64::MAX,
        };
        AnswerProgress {
            writer,
            clock,
            screen,
            next,
            lines: 0,
            things,
            is_shown: false,
        }
    }

    /// The writer that gets the answers.
    pub fn writer(&self) -> &W
        ensures { result.now ≡ self.now.writer }
    {
        &self.writer
    }

    /// Clears the screen's line.
    pub fn clear(&mut self)
        ensures { self.new.writer ≡ self.old.writer }
    {
        if !self.is_shown {
            return;
        }
        self.is_shown = false;
        if let Some(screen) = &mut self.screen {
            let _ = screen.write_all(b"\r\x1b[K");
            let _ = screen.flush();
        }
    }

    // Shows how many lines there are. The cursor goes back, so that what is shown next is written over this.
    fn show(&mut self)
        ensures { self.new.writer ≡ self.old.writer }
    {
        let (lines, things) = (self.lines, self.things);
        if let Some(screen) = &mut self.screen {
            let _ = write!(screen, "\r\x1b[Kcclib: {lines} {things} so far\r");
            let _ = screen.flush();
            self.is_shown = true;
        }
    }

    // Counts the lines that end within the first `count` of these bytes.
    fn count(&mut self, bytes: &[u8], count: usize)
        ensures { self.new.writer ≡ self.old.writer }
    {
        for byte in bytes.iter().take(count) {
            if *byte == b'\n' {
                self.lines = self.lines.saturating_add(1);
            }
        }
    }

    // Shows how many lines there are, if it is time to do so.
    fn tell(&mut self)
        ensures { self.new.writer ≡ self.old.writer }
    {
        if self.screen.is_none() {
            return;
        }
        let Some(now) = second(&self.clock) else {
            return;
        };
        if now >= self.next {
            self.next = now.saturating_add(1);
            self.show();
        }
    }
}

impl<W: Write + Drop, C: Clock + Drop, E: Write + Drop> Write for AnswerProgress<W, C, E> {
    ghost contents = { λ s. W.contents s.writer };

    fn write(&mut self, bytes: &[u8]) -> io::Result<usize> {
        match self.writer.write(bytes) {
            Ok(count) => {
                self.count(bytes, count);
                self.tell();
                Ok(count)
            }
            Err(error) => Err(error),
        }
    }

    fn flush(&mut self) -> io::Result<()> {
        self.writer.flush()
    }
}
