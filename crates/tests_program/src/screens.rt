// What a terminal shows of an answer, and what anything else gets.

use cc_screen::Screen;
use std::alloc::Global;
use std::io::Write;

// Bytes, and what a terminal shows for them.
static ROWS: [(&[u8], &[u8]); 7] = [
    (
        b"int main(void)\n{\treturn 0;}\n",
        b"int main(void)\n{\treturn 0;}\n",
    ),
    (
        b"\x1b[2J\x1b]0;owned\x07 \x08\x7f\x0b\x0c\r\0",
        b"?[2J?]0;owned? ??????",
    ),
    // Characters of two and three bytes in UTF-8.
    (b"\xc3\x9f \xe2\x80\x93", b"\xc3\x9f \xe2\x80\x93"),
    // A control character of two, and one of one byte.
    (b"\xc2\x9b1m", b"\xc2?1m"),
    (b"a\x9b1m", b"a?1m"),
    (b"\x9b", b"?"),
    (b"", b""),
];

// What is printed for these bytes.
fn printed(alloc: Global, bytes: &[u8], is_terminal: bool) -> Vec<u8> {
    let mut text = Vec::new(alloc);
    let mut screen = Screen::new(&mut text, is_terminal);
    let is_written = screen.write_all(bytes).is_ok() && screen.flush().is_ok();
    drop(screen);
    if !is_written {
        text.clear();
    }
    text
}

#[test]
fn control_bytes_on_a_terminal(rt: HostRuntime) {
    let alloc = rt.alloc();
    for (bytes, shown) in &ROWS {
        let on_terminal = printed(alloc, bytes, true);
        assert!(rt; on_terminal.as_slice() == *shown, "what is shown");
        let in_file = printed(alloc, bytes, false);
        assert!(rt; in_file.as_slice() == *bytes, "what a file gets");
    }
}
