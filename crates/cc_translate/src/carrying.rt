// The wide text that a text of the profile carries: on each line, what follows the first `//|`.

ghost use Rattle.std.specs.Prelude.{◌≡◌, IfOk};
ghost use Rattle.std.specs.Option.{option_copied, option_map};
ghost use Rattle.std.specs.declared.vec.Vec.{Vec};
ghost use Rattle.cc_translate.specs.Carried.{marked, after_mark, carried};
ghost use Rattle.cc_translate.specs.internal.Cut.{IsCut};

use std::alloc::{AllocError, Global};

/// The first line of a text, and what follows its newline, if it has one.
#[derive(Clone, Copy)]
struct Cut<'a> {
    line: &'a [u8],
    rest: Option<&'a [u8]>,
}

fn first_line(text: &[u8]) -> Cut<'_>
    ensures { IsCut text.now result }
{
    for i in 0..text.len() {
        if text[i] == b'\n' {
            return Cut {
                line: &text[..i],
                rest: Some(&text[i + 1..]),
            };
        }
    }
    Cut {
        line: text,
        rest: None,
    }
}

// What follows the mark, if the bytes begin with it.
fn marked(bytes: &[u8]) -> Option<&[u8]>
    ensures { option_copied result ≡ marked bytes.now }
{
    match bytes {
        [first, second, third, rest @ ..] => {
            if *first == b'/' && *second == b'/' && *third == b'|' {
                Some(rest)
            } else {
                None
            }
        }
        [] | [_] | [_, _] => None,
    }
}

// What follows the first mark of a line, if it has one.
fn after_mark(line: &[u8]) -> Option<&[u8]>
    ensures { option_copied result ≡ after_mark line.now }
{
    for i in 0..line.len() {
        if let Some(rest) = marked(&line[i..]) {
            return Some(rest);
        }
    }
    None
}

/// Returns the wide text that a text of the profile carries: of each line, what follows the first `//|`, with newlines between.
/// `None` if a line has no `//|`. `AllocError` if memory runs out.
///
/// That a text carries a wide text does not say that it is a translation of it: `translate` says that of what it returns.
pub fn carried(alloc: Global, text: &[u8]) -> Result<Option<Vec<u8>>, AllocError>
    ensures { IfOk result (λ found. option_map (λ wide. wide.items) found ≡ carried text.now) }
{
    let mut found = Vec::new(alloc);
    let mut rest = text;
    loop {
        let next = first_line(rest);
        let Some(wide) = after_mark(next.line) else {
            return Ok(None);
        };
        found.extend_from_slice(wide)?;
        let Some(more) = next.rest else {
            return Ok(Some(found));
        };
        found.push(b'\n')?;
        rest = more;
    }
}

#[cfg(test)]
mod tests {
    use super::*;
    use std::test::Fail;

    // Whether a text carries this one, or none.
    fn carries(rt: &HostRuntime, text: &[u8], wanted: Option<&[u8]>) -> Result<bool, Fail> {
        let found = carried(rt.alloc(), text)?;
        Ok(match (&found, wanted) {
            (Some(found), Some(wanted)) => found.as_slice() == wanted,
            (None, None) => true,
            _ => false,
        })
    }

    #[test]
    fn lines_are_found(rt: HostRuntime) -> Result<(), Fail> {
        assert!(rt; carries(&rt, b"", None)?);
        assert!(rt; carries(&rt, b"//|", Some(b""))?);
        assert!(rt; carries(&rt, b"int x; //|int x;\n//|", Some(b"int x;\n"))?);
        assert!(rt; carries(&rt, b"///|a\n  //| //|b\n//|c", Some(b"a\n //|b\nc"))?);
        assert!(rt; carries(&rt, b"//|a\n", None)?);
        assert!(rt; carries(&rt, b"//|a\nb\n//|c", None)?);
        assert!(rt; carries(&rt, b"// |a", None)?);
        Ok(())
    }
}
