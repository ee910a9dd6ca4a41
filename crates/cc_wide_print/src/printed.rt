// What has been printed, and what part of the wide text each part comes from.

use cc_tokens::{Place, place_at};

/// From one offset of the printed text on, up to the next passage, what is printed comes from an offset of the wide text.
#[derive(Clone, Copy)]
pub struct Passage {
    pub printed: usize,
    pub wide: usize,
}

/// A printed text: text of the profile, and the table of its places, in their order.
#[derive(Drop)]
pub struct Printed {
    pub text: Vec<u8>,
    pub passages: Vec<Passage>,
}

// The offset of a place in a text.
fn offset_of(text: &[u8], place: Place) -> usize {
    let mut line: usize = 1;
    let mut column: usize = 1;
    for i in 0..text.len() {
        if line == place.line && column == place.column {
            return i;
        }
        if text[i] == b'\n' {
            line = line.saturating_add(1);
            column = 1;
        } else {
            column = column.saturating_add(1);
        }
    }
    text.len()
}

impl Printed {
    /// The offset in the wide text that an offset of the printed text comes from; 0 if nothing has been printed before it.
    pub fn wide_offset(&self, at: usize) -> usize {
        let mut wide = 0;
        for passage in self.passages.as_slice() {
            if at < passage.printed {
                return wide;
            }
            wide = passage.wide;
        }
        wide
    }

    /// The place in the wide text that a place of the printed text comes from. The end of the printed text comes from the end of
    /// the wide text.
    pub fn place(&self, wide: &[u8], place: Place) -> Place {
        let at = offset_of(self.text.as_slice(), place);
        let from = if at < self.text.len() {
            self.wide_offset(at)
        } else {
            wide.len()
        };
        place_at(wide, from.min(wide.len()))
    }
}
