// From a place to the offset of its byte.

ghost use Rattle.std.specs.Prelude.{◌≡◌, ◌≤◌, length, is_some, IfSome};

use cc_tokens::Place;

// The offset after this many ends of lines, or the end of the text if it has fewer.
fn line_start(text: &[u8], lines: usize) -> usize
    ensures { result ≤ length text.now }
{
    let mut left = lines;
    for (i, b) in text.iter().enumerate() {
        if left == 0 {
            return i;
        }
        if *b == b'\n' {
            left -= 1;
        }
    }
    text.len()
}

// The offset of a place in a text, or the text's end for a place past it.
fn offset_of(text: &[u8], place: Place) -> usize
    ensures { result ≤ length text.now }
{
    let start = line_start(text, place.line.saturating_sub(1));
    start
        .saturating_add(place.column.saturating_sub(1))
        .min(text.len())
}

/// The offset of a place, if there is one.
pub fn offset_in(text: &[u8], place: Option<Place>) -> Option<usize>
    ensures same { is_some result ≡ is_some place }
    ensures within { IfSome result (λ at. at ≤ length text.now) }
{
    match place {
        Some(place) => Some(offset_of(text, place)),
        None => None,
    }
}

/// Replaces an offset, if there is one, with `to`, or with the text's end if `to` is past it.
pub fn moved(at: Option<usize>, to: usize, text: &[u8]) -> Option<usize>
    ensures same { is_some result ≡ is_some at }
    ensures within { IfSome result (λ at. at ≤ length text.now) }
{
    match at {
        Some(_) => Some(to.min(text.len())),
        None => None,
    }
}
