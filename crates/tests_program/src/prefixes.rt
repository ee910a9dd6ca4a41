// Each prefix of a program: wherever a text is cut off, one fault is reported. Programs and what they write are in tests/rows (`interpret`, `check`).

use cc_task::Task;
use cc_tasks::perform;

// A function with 24 locals that are read one after the other.
static MANY_LOCALS: &str =
    "int f(int x){return x;}int main(void){int v1=read_word();int v2=read_word();int v3=read_word();int v4=read_word();int v5=read_word();int v6=read_word();int v7=read_word();int v8=read_word();int v9=read_word();int v10=read_word();int v11=read_word();int v12=read_word();int v13=read_word();int v14=read_word();int v15=read_word();int v16=read_word();int v17=read_word();int v18=read_word();int v19=read_word();int v20=read_word();int v21=read_word();int v22=read_word();int v23=read_word();int v24=read_word();write_word(f(0));write_word(0+v1+v2+v3+v4+v5+v6+v7+v8+v9+v10+v11+v12+v13+v14+v15+v16+v17+v18+v19+v20+v21+v22+v23+v24);}";

// Whether these bytes are one line with its end.
fn is_one_line(written: &[u8]) -> bool {
    let mut ends = 0usize;
    for byte in written {
        if *byte == b'\n' {
            ends = ends.saturating_add(1);
        }
    }
    ends == 1 && written.ends_with(b"\n".as_slice())
}

// Whether a text writes only a fault's line, with the status 1.
fn has_fault<H: AllocGlobal>(rt: &H, text: &[u8]) -> bool {
    let mut reader = text;
    let mut written = Vec::new(rt.alloc());
    let status = perform(rt, Task::Check, &mut reader, &mut written);
    status == 1
        && written.as_slice().starts_with(b"fault ".as_slice())
        && is_one_line(written.as_slice())
}

// Wherever a text is cut off, it is a program or has one fault line.
fn prefixes_have_faults<H: AllocGlobal>(rt: &H, text: &[u8]) -> bool {
    for end in 0..text.len() {
        if !has_fault(rt, &text[..end]) {
            return false;
        }
    }
    true
}

#[test]
fn every_prefix(rt: HostRuntime) {
    assert!(rt; prefixes_have_faults(&rt, MANY_LOCALS.as_bytes()));
}
