// What one client has still to write to the log: while another client writes to it, and while it can't be written.

use crate::layout::FolderLayout;
use crate::log_text::missing_line;

/// If some text is kept already, no text is added with which it would have more bytes than this: the lines are only counted.
const MOST_KEPT: usize = 1_048_576;

/// Lines for the log that are kept until they can be written, and how many could not be kept.
#[derive(Drop)]
pub(crate) struct Unlogged {
    text: String,
    // How many lines came after `text` and were not kept.
    missing: u64,
}

// How many lines a text has.
fn count_lines(text: &str) -> u64 {
    let mut count = 0u64;
    for byte in text.as_bytes() {
        count = count.saturating_add(u64::from(*byte == b'\n'));
    }
    count
}

// Writes this to the log, unless another client is writing to it. The result is whether it was written.
fn is_logged(layout: &FolderLayout, text: &str) -> bool {
    match layout.common.log.try_lock() {
        Some(mut log) => log.write(layout, text.as_bytes()),
        None => false,
    }
}

impl Unlogged {
    /// Nothing is to be written.
    pub(crate) fn new(layout: &FolderLayout) -> Unlogged {
        Unlogged {
            text: String::new(layout.alloc),
            missing: 0,
        }
    }

    // Whether these lines may be kept.
    fn has_room(&self, lines: &str) -> bool {
        let is_first = self.text.as_str().is_empty();
        let after = self.text.as_str().len().saturating_add(lines.len());
        self.missing == 0 && (is_first || after <= MOST_KEPT)
    }

    /// Keeps these lines, or counts them if there is no room for them.
    pub(crate) fn keep(&mut self, lines: &str) {
        if !self.has_room(lines) || self.text.push_str(lines).is_err() {
            self.lose(count_lines(lines));
        }
    }

    /// Counts this many lines that could not be kept.
    pub(crate) fn lose(&mut self, count: u64) {
        self.missing = self.missing.saturating_add(count);
    }

    // Writes the kept lines. The result is whether none are left.
    fn write_text(&mut self, layout: &FolderLayout) -> bool {
        let is_written = self.text.as_str().is_empty() || is_logged(layout, self.text.as_str());
        if is_written {
            self.text.clear();
        }
        is_written
    }

    /// Writes what is kept, and then how many lines are missing, as far as the log can be written and no other client is writing
    /// to it.
    pub(crate) fn write(&mut self, layout: &FolderLayout) {
        if !self.write_text(layout) || self.missing == 0 {
            return;
        }
        if let Ok(line) = missing_line(layout, self.missing)
            && is_logged(layout, line.as_str())
        {
            self.missing = 0;
        }
    }
}
