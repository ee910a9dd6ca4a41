// Texts of wide C that are printed as texts of the profile, the places of these, and the faults of those that are refused.

use cc_syntax::parse;
use cc_tokens::Place;
use cc_wide_check::is_translation;
use cc_wide_print::print;
use cc_wide_text::read;
use std::alloc::Global;
use std::test::Fail;

const TEXT: &[u8] =
    b"#define A 'a'\nint f(int c)\n{\n switch (c) { // c\n case A: case 0x1e + 1:\n  c = -c - -1;\n default: break;\n }\n return c;\n}";

#[test]
fn texts_are_printed(rt: HostRuntime) -> Result<(), Fail> {
    let wanted =
        b"\nint f(int c)\n{unsigned __s;\n{__s=c;__s=__s==97u?1u:__s==31u?1u:2u;do{\nif(__s<=1u){\nc= -c- -1;}\nif(__s<=2u){break;}\n}while(0);}\nreturn c;\n}";
    let found = read(rt.alloc(), TEXT)?;
    let printed = print(rt.alloc(), TEXT, &found, false)?;
    assert_eq!(rt; printed.text.as_slice(), wanted.as_slice());
    Ok(())
}

#[test]
fn lines_are_carried(rt: HostRuntime) -> Result<(), Fail> {
    let wide = b"enum { A = 1 };\n\nint x = A; // one\n";
    let wanted =
        b"                                                //|enum { A = 1 };\n                                                //|\nint x=1;                                        //|int x = A; // one\n                                                //|";
    let found = read(rt.alloc(), wide)?;
    let printed = print(rt.alloc(), wide, &found, true)?;
    assert_eq!(rt; printed.text.as_slice(), wanted.as_slice());
    Ok(())
}

#[test]
fn places_are_found(rt: HostRuntime) -> Result<(), Fail> {
    let found = read(rt.alloc(), TEXT)?;
    let printed = print(rt.alloc(), TEXT, &found, true)?;
    let wide = printed.place(TEXT, Place { line: 4, column: 6 });
    assert_eq!(rt; (wide.line, wide.column), (4, 10));
    let wide = printed.place(TEXT, Place { line: 6, column: 6 });
    assert_eq!(rt; (wide.line, wide.column), (6, 10));
    let wide = printed.place(
        TEXT,
        Place {
            line: 10,
            column: 1,
        },
    );
    assert_eq!(rt; (wide.line, wide.column), (10, 1));
    Ok(())
}

// A switch of ten cases: its choice is halved twice, and its sections are in two groups.
const MANY: &[u8] =
    b"int f(int c){switch(c){case 0:case 10:c=1;break;case 20:c=2;case 30:c=3;break;case 40:c=4;break;case 50:c=5;break;case 60:c=6;break;case 70:c=7;break;case 80:c=8;break;case 90:c=9;break;default:c=0;}return c;}int main(void){return f(30);}";

// Whether the program that a text of wide C is printed as, with some bytes replaced, is a translation of it; `None` if it is no program.
fn is_taken(alloc: Global, wide: &[u8], old: &[u8], new: &[u8]) -> Option<bool> {
    let Ok(found) = read(alloc, wide) else {
        return None;
    };
    let Ok(printed) = print(alloc, wide, &found, false) else {
        return None;
    };
    let text = printed.text.as_slice();
    for i in 0..text.len() {
        if text[i..].starts_with(old) {
            let mut other = Vec::from_slice(alloc, &text[..i]).ok()?;
            other.extend_from_slice(new).ok()?;
            other
                .extend_from_slice(&text[i.saturating_add(old.len()).min(text.len())..])
                .ok()?;
            let Ok(unit) = parse(alloc, other.as_slice()) else {
                return None;
            };
            return Some(is_translation(found.unit().externals(), unit.externals()));
        }
    }
    None
}

#[test]
fn halves_are_translations(rt: HostRuntime) -> Result<(), Fail> {
    let alloc = rt.alloc();
    assert!(rt; is_taken(alloc, MANY, b"if(__s<50u)", b"if(__s<50u)") == Some(true));
    assert!(rt; is_taken(alloc, MANY, b"if(__s<50u)", b"if(__s<51u)") == Some(false));
    assert!(rt; is_taken(alloc, MANY, b"if(__s<50u)", b"if(__s<=50u)") == Some(false));
    assert!(rt; is_taken(alloc, MANY, b"__s==40u?4u", b"__s==40u?5u") == Some(false));
    assert!(rt; is_taken(alloc, MANY, b"__s==40u?4u:", b"") == Some(false));
    assert!(rt; is_taken(alloc, MANY, b"if(__s<=5u){if", b"if(__s<=6u){if") == Some(false));
    assert!(rt; is_taken(alloc, MANY, b"if(__s<=5u){if", b"if(__s<=5u){;if") == Some(false));
    assert!(rt; is_taken(alloc, MANY, b"if(__s<=7u)", b"if(__s<=8u)") == Some(false));
    Ok(())
}

// The line and the column of the fault with this number, or 0 and 0.
fn refused(rt: &HostRuntime, text: &[u8], number: u32) -> (usize, usize) {
    let Ok(found) = read(rt.alloc(), text) else {
        return (0, 0);
    };
    match print(rt.alloc(), text, &found, true) {
        Ok(_) => (0, 0),
        Err(fault) => {
            if fault.number() != number {
                return (0, 0);
            }
            match fault.place() {
                Some(place) => (place.line, place.column),
                None => (0, 0),
            }
        }
    }
}

#[test]
fn wrong_labels_have_places(rt: HostRuntime) -> Result<(), Fail> {
    assert_eq!(rt;
        refused(&rt, b"int f(int c) { switch (c) { c = 1; } return c; }", 5),
        (1, 29)
    );
    assert_eq!(rt;
        refused(&rt, b"int f(int c) { switch (c) { case 1: } return c; }", 5),
        (1, 37)
    );
    assert_eq!(rt;
        refused(
            &rt,
            b"int f(int c) { switch (c) { case 1: int x; } return c; }",
            5
        ),
        (1, 37)
    );
    assert_eq!(rt;
        refused(
            &rt,
            b"int f(int c) { switch (c) case 1: c = 2; return c; }",
            5
        ),
        (1, 16)
    );
    assert_eq!(rt;
        refused(&rt, b"int f(int c) { case 1: c = 2; return c; }", 5),
        (1, 16)
    );
    assert_eq!(rt;
        refused(
            &rt,
            b"int f(int c) { if (c) { default: c = 2; } return c; }",
            5
        ),
        (1, 25)
    );
    assert_eq!(rt;
        refused(
            &rt,
            b"int f(int c) { switch (c) { { case 1: ; } } return c; }",
            5
        ),
        (1, 29)
    );
    assert_eq!(rt;
        refused(
            &rt,
            b"int f(int c) { switch (c) { case 1: { case 2: ; } } return c; }",
            5
        ),
        (1, 39)
    );
    assert_eq!(rt;
        refused(
            &rt,
            b"int f(int c) { switch (c) { case 1: ; case 2 - 1: ; } return c; }",
            12
        ),
        (1, 39)
    );
    assert_eq!(rt;
        refused(
            &rt,
            b"int f(int c) { switch (c) { default: ; default: ; } return c; }",
            12
        ),
        (1, 40)
    );
    assert_eq!(rt;
        refused(
            &rt,
            b"int f(int c) { switch (c) { case c: ; } return c; }",
            13
        ),
        (1, 29)
    );
    assert_eq!(rt;
        refused(
            &rt,
            b"int f(int c) { switch (c) { case 1 / 0: ; } return c; }",
            13
        ),
        (1, 29)
    );
    assert_eq!(rt;
        refused(
            &rt,
            b"int f(int c) { switch (c) { case 1: continue; } return c; }",
            18
        ),
        (1, 37)
    );
    assert_eq!(rt;
        refused(
            &rt,
            b"int f(int c) { while (c) { switch (c) { case 1: continue; } } return c; }",
            5
        ),
        (0, 0)
    );
    assert_eq!(rt;
        refused(&rt, b"int f(int c) { continue; return c; }", 18),
        (1, 16)
    );
    Ok(())
}
