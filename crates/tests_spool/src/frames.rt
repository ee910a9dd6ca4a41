// The frame of a source in an answer: the source is found in it again, and no line of it counts as a fault.

use cc_spool::{fault_lines, frame, source_in};
use std::alloc::Global;

// Some lines of this source look like those of an answer, and it ends without a newline.
const TABLE: &str =
    "int t[3]={7,-2,258};\n/*\nfault 1 x\nsource 4\n*/\nint main(void){write_word(t[1]);return t[2];}";

const INTERRUPTED: &[u8] = b"fault 55 Interrupted\n";

// Whether an answer has this source, or none, and these lines report its faults.
fn has(alloc: Global, answer: &[u8], source: Option<&[u8]>, faults: &[u8]) -> bool {
    let is_found = match source_in(alloc, answer) {
        Ok(found) => found == source,
        Err(_) => false,
    };
    match fault_lines(alloc, answer) {
        Ok(told) => is_found && told.as_slice() == faults,
        Err(_) => false,
    }
}

// Whether no source is found in a frame if a line follows it.
fn is_alone(alloc: Global, text: &[u8]) -> bool {
    let mut more = Vec::new(alloc);
    let is_made = more.extend_from_slice(text).is_ok()
        && more.extend_from_slice(INTERRUPTED).is_ok();
    let is_so = is_made && has(alloc, more.as_slice(), None, INTERRUPTED);
    drop(more);
    is_so
}

// Whether a source is found in this frame, but not if the frame lacks its last byte or if a line follows it.
fn is_frame(alloc: Global, text: &[u8], source: &[u8]) -> bool {
    match text.split_last() {
        Some((_, cut)) => {
            has(alloc, text, Some(source), b"")
                && has(alloc, cut, None, INTERRUPTED)
                && is_alone(alloc, text)
        }
        None => false,
    }
}

// Whether a source has such a frame, which is this text if one is given.
fn is_framed(alloc: Global, source: &[u8], wanted: Option<&[u8]>) -> bool {
    if source.len() > 65_536 {
        return false;
    }
    let Ok(text) = frame(alloc, source) else {
        return false;
    };
    let is_so = is_frame(alloc, text.as_slice(), source);
    let is_wanted = match wanted {
        Some(wanted) => text.as_slice() == wanted,
        None => true,
    };
    drop(text);
    is_so && is_wanted
}

// Whether the longest source has such a frame.
fn is_longest_framed(alloc: Global) -> bool {
    let mut longest = Vec::new(alloc);
    for i in 0..65_536usize {
        if longest.push((i % 256) as u8).is_err() {
            return false;
        }
    }
    is_framed(alloc, longest.as_slice(), None)
}

#[test]
fn frames(rt: HostRuntime) {
    let alloc = rt.alloc();
    let main = b"source 16\nint main(void){}\n".as_slice();
    assert!(rt; is_framed(alloc, b"int main(void){}", Some(main)));
    for source in ["", "\n", "fault 1 x", "\nfault 1 x\n", "source 3\n", TABLE] {
        assert!(rt; is_framed(alloc, source.as_bytes(), None), "for {source}");
    }
    assert!(rt; is_longest_framed(alloc));
    let refused = b"fault 32 Absent\n".as_slice();
    assert!(rt; has(alloc, refused, None, refused));
}
