// Texts of wide C that are read: their marked texts, and the faults of those that are refused.

use cc_wide_text::read;
use std::test::Fail;

#[test]
fn texts_are_marked(rt: HostRuntime) -> Result<(), Fail> {
    let text =
        b"#define N 3 // three\nstatic const int k = N;\nint main(void)\n{\n const int x = 'a';\n switch (x) { case N: case N ? 2 : 5: return (const int)1; default: break; }\n return k;\n}\n";
    let wanted =
        b"int k = 3 ; int main ( void ) { int x = 97 ; while ( __switch ) while ( x ) { __case = 3 ; __case = 3 ? 2 : 5 ; return ( int ) 1 ; __default ; break ; } return k ; } ";
    let found = read(rt.alloc(), text)?;
    assert_eq!(rt; found.unit.text(), wanted.as_slice());
    Ok(())
}

#[test]
fn names_are_replaced(rt: HostRuntime) -> Result<(), Fail> {
    let text =
        b"typedef unsigned word; enum op { ADD, SUB = 'a', MUL, };\nword f(const word x) { return (word)MUL + x; }";
    let wanted = b"unsigned int f ( unsigned int x ) { return ( unsigned int ) 98 + x ; } ";
    let found = read(rt.alloc(), text)?;
    assert_eq!(rt; found.unit.text(), wanted.as_slice());
    Ok(())
}

// The line and the column of the fault with this number, or 0 and 0.
fn refused(rt: &HostRuntime, text: &[u8], number: u32) -> (usize, usize) {
    match read(rt.alloc(), text) {
        Ok(_) => (0, 0),
        Err(fault) => {
            if fault.number() != number {
                return (0, 0);
            }
            match fault.place() {
                Some(place) => (place.line, place.column),
                None => (0, 0),
            }
        }
    }
}

// The marked text, or none.
fn marked_text(rt: &HostRuntime, text: &[u8]) -> Result<Vec<u8>, Fail> {
    let found = read(rt.alloc(), text)?;
    Ok(Vec::from_slice(rt.alloc(), found.unit.text())?)
}

#[test]
fn enumerators_are_numbers(rt: HostRuntime) -> Result<(), Fail> {
    let text =
        b"enum { A = 1 + 1, B = A * (A + 1), C, D = -3, E, F = 'a' }; typedef enum { G = 9 - 9 } g; enum h { H = (int)0xffffffff }; g x[7] = { A, B, C, D, E, F, G }; enum h y = H;";
    let wanted =
        b"signed int x [ 7 ] = { 2 , 6 , 7 , ( - 3 ) , ( - 2 ) , 97 , 0 } ; signed int y = ( - 1 ) ; ";
    let found = marked_text(&rt, text)?;
    assert_eq!(rt; found.as_slice(), wanted.as_slice());
    Ok(())
}

#[test]
fn replacements_are_bounded(rt: HostRuntime) -> Result<(), Fail> {
    let mut text = Vec::from_slice(rt.alloc(), b"#define A0 x x x x x x x x\n")?;
    for i in 1..12u32 {
        let before = i - 1;
        let line = format!(in rt.alloc(); "#define A{i} A{before} A{before}\n")?;
        text.extend_from_slice(line.as_bytes())?;
    }
    assert_eq!(rt; refused(&rt, text.as_slice(), 5), (10, 15));
    Ok(())
}

#[test]
fn long_texts_are_refused(rt: HostRuntime) -> Result<(), Fail> {
    let mut text = Vec::from_slice(rt.alloc(), b"#define A x x x x x x x x\n")?;
    for _ in 0..5000 {
        text.extend_from_slice(b"A ")?;
    }
    let is_long = match read(rt.alloc(), text.as_slice()) {
        Ok(_) => false,
        Err(fault) => fault.number() == 7,
    };
    assert!(rt; is_long);
    Ok(())
}

#[test]
fn labels_end_with_colons(rt: HostRuntime) -> Result<(), Fail> {
    assert_eq!(rt;
        refused(
            &rt,
            b"int f(int x) { switch (x) { case 1; x = 2 : ; } return x; }",
            5
        ),
        (1, 35)
    );
    assert_eq!(rt;
        refused(
            &rt,
            b"int f(int x) { switch (x) { default x: ; } return x; }",
            5
        ),
        (1, 37)
    );
    assert_eq!(rt;
        refused(
            &rt,
            b"int f(int x) { switch (x) { case 1 ? 2 : 3; } return x; }",
            5
        ),
        (1, 43)
    );
    Ok(())
}

#[test]
fn enumerators_are_constants(rt: HostRuntime) -> Result<(), Fail> {
    assert_eq!(rt; refused(&rt, b"enum { T = read_word() };", 5), (1, 8));
    assert_eq!(rt; refused(&rt, b"int n; enum { A, B = A + n };", 5), (1, 18));
    assert_eq!(rt; refused(&rt, b"enum { A = 2147483648u };", 5), (1, 8));
    assert_eq!(rt; refused(&rt, b"enum { A = 2147483647, B };", 5), (1, 24));
    assert_eq!(rt; refused(&rt, b"enum { A = 1 / 0 };", 5), (1, 8));
    assert_eq!(rt; refused(&rt, b"enum { A = };", 5), (1, 8));
    assert_eq!(rt; refused(&rt, b"enum { A = 1 2 };", 5), (1, 8));
    assert_eq!(rt; refused(&rt, b"enum { A = B, B = 2 };", 5), (1, 15));
    Ok(())
}

#[test]
fn defined_names_are_new(rt: HostRuntime) -> Result<(), Fail> {
    assert_eq!(rt; refused(&rt, b"int A; enum { A };", 5), (1, 15));
    assert_eq!(rt; refused(&rt, b"int f(int t); typedef int t;", 5), (1, 27));
    assert_eq!(rt; refused(&rt, b"enum { A }; typedef int A;", 5), (1, 25));
    assert_eq!(rt; refused(&rt, b"enum t { A }; enum t { B };", 5), (1, 22));
    assert_eq!(rt; refused(&rt, b"enum t x;", 5), (1, 8));
    Ok(())
}

#[test]
fn definitions_are_outside(rt: HostRuntime) -> Result<(), Fail> {
    assert_eq!(rt;
        refused(&rt, b"int a[1] = { 1 } typedef int t; ;", 5),
        (1, 18)
    );
    assert_eq!(rt; refused(&rt, b"int a[1] = { 1 } enum { A }; ;", 5), (1, 23));
    assert_eq!(rt;
        refused(&rt, b"int f(void) { enum { A }; return A; }", 5),
        (1, 20)
    );
    Ok(())
}

#[test]
fn storage_classes_come_once(rt: HostRuntime) -> Result<(), Fail> {
    assert_eq!(rt; refused(&rt, b"static static int x;", 5), (1, 8));
    assert_eq!(rt;
        refused(&rt, b"int f(void) { return (register int)1; }", 5),
        (1, 23)
    );
    assert_eq!(rt;
        refused(
            &rt,
            b"int f(void) { int a; a = 1; register static int b; return a; }",
            5
        ),
        (1, 38)
    );
    assert_eq!(rt; refused(&rt, b"int static x;", 5), (1, 5));
    Ok(())
}

#[test]
fn faults_have_places(rt: HostRuntime) -> Result<(), Fail> {
    assert_eq!(rt; refused(&rt, b"#define N 3\nint a;\nint __b;", 1), (3, 5));
    assert_eq!(rt; refused(&rt, b"#define N 3\nint a = '';", 1), (2, 9));
    assert_eq!(rt; refused(&rt, b"#define N 3\nint a = 09;", 3), (2, 9));
    assert_eq!(rt; refused(&rt, b"int N;\n#define N 3\n", 5), (2, 9));
    assert_eq!(rt; refused(&rt, b"#define F(x) x\nint a;", 5), (1, 10));
    assert_eq!(rt; refused(&rt, b"#define N 3\nint a;\nint N;", 5), (3, 5));
    assert_eq!(rt;
        refused(&rt, b"int f(void)\n{\n static int a;\n}", 5),
        (3, 2)
    );
    assert_eq!(rt;
        refused(&rt, b"int f(void)\n{\n switch (1) { case 1 }\n}", 5),
        (3, 22)
    );
    assert_eq!(rt; refused(&rt, b"case 1:;", 5), (1, 1));
    assert_eq!(rt; refused(&rt, b"enum { A, A };", 5), (1, 11));
    assert_eq!(rt; refused(&rt, b"typedef char c;", 5), (1, 9));
    assert_eq!(rt; refused(&rt, b"enum { A }; int f(int A);", 5), (1, 23));
    Ok(())
}

#[test]
fn characters_are_numbers(rt: HostRuntime) -> Result<(), Fail> {
    let text = b"#define A 'z' // it's\nint x='\\n'; /* '#' */ int y='\\177'; int z='\\x41'+A;";
    let wanted = b"int x = 10 ; int y = 127 ; int z = 65 + 122 ; ";
    let found = read(rt.alloc(), text)?;
    assert_eq!(rt; found.unit.text(), wanted.as_slice());
    assert_eq!(rt; refused(&rt, b"int x = 'a'u;", 1), (1, 9));
    assert_eq!(rt; refused(&rt, b"int __y;", 1), (1, 5));
    assert_eq!(rt; refused(&rt, b"int x; #define\n", 1), (1, 8));
    Ok(())
}
