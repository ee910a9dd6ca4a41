// Lines and columns.

ghost use Rattle.std.specs.Prelude.{◌≡◌, ◌+◌, ◌≤◌, ◌==◌, length, count_by};
ghost use Rattle.std.specs.List.{take_while};
ghost use Rattle.cc_tokens.specs.Place.{place_of, last_line_reversed};

/// A place in a text. Line and column count from 1; the column counts bytes.
#[derive(Clone, Copy, PartialEq, Eq, Debug)]
pub struct Place {
    pub line: usize,
    pub column: usize,
}

fn newlines(text: &[u8]) -> usize
    ensures count { result ≡ count_by (λ b. b == 10) text.now }
    ensures bound { result ≤ length text.now }
{
    text.iter().filter(|b| **b == 10).count()
}

fn last_line_len(text: &[u8]) -> usize
    ensures count { result ≡ length (last_line_reversed text.now) }
    ensures bound { result ≤ length text.now }
{
    text.iter().rev().take_while(|b| **b != 10).count()
}

/// Returns the place of the byte at an offset of a text. The offset may be the text's length: the place is then one past the last
/// byte.
pub fn place_at(text: &[u8], at: usize) -> Place
    requires { at ≤ length text.now }
    ensures { result ≡ place_of text.now at }
{
    let before = &text[..at];
    Place {
        line: 1 + newlines(before),
        column: 1 + last_line_len(before),
    }
}
