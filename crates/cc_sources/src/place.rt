// From a byte of the whole to its place in the text that it comes from.

ghost use Rattle.std.specs.Prelude.{◌≡◌, ◌+◌, ◌<◌, ◌≤◌, ◌↔◌, length, IfSome, IsTrue};
ghost use Rattle.cc_tokens.specs.Place.{place_of};
ghost use Rattle.cc_sources.specs.Joined.{joined, newline_after};
ghost use Rattle.cc_sources.specs.Places.{IsIn};

use super::joining::lacks_newline;
use super::text::NamedText;
use cc_tokens::{Place, place_at};

/// The place of a byte: the number of its text from 0, its offset there, and its line and column in that text.
#[derive(Clone, Copy)]
pub struct TextPlace {
    pub number: usize,
    pub at: usize,
    pub place: Place,
}

// Whether the byte at this offset belongs to a text, or is the newline after it.
fn is_within(bytes: &[u8], at: usize) -> bool
    ensures { IsTrue result ↔ (at < length bytes.now + length (newline_after bytes.now)) }
{
    at < bytes.len() || (at == bytes.len() && lacks_newline(bytes))
}

// The offset of a byte, counted from the end of a text and the newline after it.
fn after(bytes: &[u8], at: usize) -> usize
    requires { length bytes.now + length (newline_after bytes.now) ≤ at }
    ensures { result + (length bytes.now + length (newline_after bytes.now)) ≡ at }
{
    let at = at - bytes.len();
    if lacks_newline(bytes) { at - 1 } else { at }
}

// The place of the byte at this offset of the text with this number, or of the end of the text.
fn found(bytes: &[u8], number: usize, at: usize) -> TextPlace
    ensures number { result.number ≡ number }
    ensures at { at ≤ length bytes.now → result.at ≡ at }
    ensures within { result.at ≤ length bytes.now }
    ensures place { result.place ≡ place_of bytes.now result.at }
{
    let at = at.min(bytes.len());
    TextPlace {
        number,
        at,
        place: place_at(bytes, at),
    }
}

/// Returns the place of a byte of the joined text, or of the joined text's end. The newline between two texts counts as the
/// end of the first. `None` if there is no text.
pub fn place_in(texts: &[NamedText], at: usize) -> Option<TextPlace>
    ensures { at ≤ length (joined texts.now) → IfSome result (λ found. IsIn texts.now at found) }
{
    let mut left = at;
    let mut number = 0;
    for text in texts {
        let bytes = text.bytes.as_slice();
        if number + 1 == texts.len() || is_within(bytes, left) {
            return Some(found(bytes, number, left));
        }
        left = after(bytes, left);
        number += 1;
    }
    None
}
