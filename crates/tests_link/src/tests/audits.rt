// What an audit says about units as they were made, and about units with a changed word of code or byte of the certificate. Other
// certificates, texts and globals, and which part fails, are in `tests/rows/audits_of_disks.rows`.

use cc_emit::Piece;
use cc_link::{
    Allocation, Audit, CompiledUnit, Mode, StoredUnit, Unwatched, audit, compile,
    compile_watched_in, link, typed_unit,
};
use cc_ltl::{read_ltl, write_ltl};
use cc_rv32::image::{Code, Globals, Image};
use cc_types::TypedUnit;
use std::alloc::Global;
use std::sync::Arc;
use std::test::Fail;
use tests_texts::verdict::{each_passes, passes};
use tests_texts::worked::LONG;

/// What an audit says, as a word.
fn said(answer: Audit) -> &'static str {
    match answer {
        Audit::Confirmed => "confirmed",
        Audit::NoCertificate => "none",
        Audit::Unconfirmed => "unconfirmed",
    }
}

// The bytes of a unit's certificate.
fn certificate_of(unit: &StoredUnit) -> Result<&[u8], Fail> {
    match &unit.certificate {
        Some(certificate) => Ok(certificate.bytes()),
        None => Err(Fail::from("no certificate")),
    }
}

// Whether an audit confirms a unit.
fn is_confirmed(alloc: Global, unit: &StoredUnit) -> Result<bool, Fail> {
    let bytes = certificate_of(unit)?;
    Ok(said(audit(alloc, unit.source.bytes(), Some(bytes), &unit.image)?) == "confirmed")
}

// What an audit says about a text with a certificate and an image.
fn with_source(
    alloc: Global,
    text: &[u8],
    certificate: &[u8],
    image: &Image,
) -> Result<&'static str, Fail> {
    Ok(said(audit(alloc, text, Some(certificate), image)?))
}

// The image with this code and these globals.
fn image_of(alloc: Global, code: &[u32], globals: &[u32]) -> Result<Image, Fail> {
    let Ok(code) = Code::new(Vec::from_slice(alloc, code)?) else {
        return Err(Fail::from("no code"));
    };
    let Ok(globals) = Globals::new(Vec::from_slice(alloc, globals)?) else {
        drop(code);
        return Err(Fail::from("no globals"));
    };
    Ok(Image { code, globals })
}

/// Two functions, each of which reads or writes objects.
const OBJECTS: &str =
    "int a[2]={5,6};int b;int f(int n){b=a[n];return b;}int main(void){write_word(f(1));return a[0];}";

/// Arrays of bytes.
const BYTES: &str =
    "unsigned char c[2]={300,-1};int main(void){write_word(c[0]);write_word(c[1]);c[0]+=220;\
     write_word(c[0]);write_word(c[1]<<24);write_word(-1<c[1]);}";

/// Texts of every kind: without and with slots, with loops, with calls, and with objects.
static TEXTS: [&str; 6] = [
    "int main(void){}",
    "int main(void){int i;for(i=0;i<9;i++)if(i%2)write_word(i*i);return i;}",
    "int f(int n){if(n)return f(n-1);return 7;}int main(void){write_word(f(9));}",
    OBJECTS,
    BYTES,
    LONG,
];

// Whether an audit refuses the unit if the word of code at this place is changed.
fn refuses_word(alloc: Global, unit: &StoredUnit, place: usize) -> Result<bool, Fail> {
    let mut code = Vec::from_slice(alloc, unit.image.code.words())?;
    if place < code.len() {
        code[place] = code[place] ^ 0x80;
    }
    let image = image_of(alloc, code.as_slice(), unit.image.globals.words())?;
    let certificate = certificate_of(unit)?;
    Ok(with_source(alloc, unit.source.bytes(), certificate, &image)? == "unconfirmed")
}

// Whether an audit refuses the unit if a word of its code is changed, for every sixteenth word.
fn refuses_words(alloc: Global, unit: &StoredUnit) -> Result<bool, Fail> {
    for place in 0..unit.image.code.words().len() {
        if place % 16 == 0 && !refuses_word(alloc, unit, place)? {
            return Ok(false);
        }
    }
    Ok(true)
}

#[test]
fn a_word_of_code_changed(rt: HostRuntime) -> Result<(), Fail> {
    let unit = compile(rt.alloc(), LONG.as_bytes())?;
    let right = refuses_words(rt.alloc(), unit.stored());
    drop(unit);
    passes(right)
}

// Whether an audit refuses the unit if the byte of the certificate at this place is changed.
fn refuses_byte(alloc: Global, unit: &StoredUnit, own: &[u8], place: usize) -> Result<bool, Fail> {
    let mut other = Vec::from_slice(alloc, own)?;
    if place < other.len() {
        other[place] = other[place] ^ 1;
    }
    let word = with_source(alloc, unit.source.bytes(), other.as_slice(), &unit.image)?;
    Ok(word == "unconfirmed")
}

// Whether an audit refuses the unit if any one byte of its certificate is changed.
fn refuses_bytes(alloc: Global, unit: &StoredUnit) -> Result<bool, Fail> {
    let own = certificate_of(unit)?;
    for place in 0..own.len() {
        if !refuses_byte(alloc, unit, own, place)? {
            return Ok(false);
        }
    }
    Ok(true)
}

#[test]
fn a_byte_changed(rt: HostRuntime) -> Result<(), Fail> {
    let unit = compile(rt.alloc(), OBJECTS.as_bytes())?;
    let right = refuses_bytes(rt.alloc(), unit.stored());
    drop(unit);
    passes(right)
}

// The piece of a function whose LTL has a slot for each value.
fn spilled_piece(alloc: Global, unit: &Arc<TypedUnit>, function: usize) -> Result<Piece, Fail> {
    if function >= unit.functions() {
        return Err(Fail::from("no such function"));
    }
    let nobody = &mut Unwatched;
    Ok(compile_watched_in(
        alloc,
        Mode::Plain,
        unit,
        function,
        Allocation::Spilled,
        nobody,
    )?)
}

// A unit linked from pieces that have a slot for each value.
fn spilled_unit(alloc: Global, text: &[u8]) -> Result<CompiledUnit, Fail> {
    let unit = typed_unit(alloc, text)?;
    let mut pieces = Vec::new(alloc);
    for function in 0..unit.functions() {
        pieces.push(spilled_piece(alloc, &unit, function)?)?;
    }
    let made = link(alloc, &unit, pieces);
    drop(unit);
    Ok(made?)
}

fn is_confirmed_as_spilled(alloc: Global, text: &&'static str) -> Result<bool, Fail> {
    let spilled = spilled_unit(alloc, text.as_bytes())?;
    let right = is_confirmed(alloc, spilled.stored());
    drop(spilled);
    right
}

// Whether the compiler's own unit of a text differs from the spilled one, and is not confirmed by the spilled unit's
// certificate.
fn is_another(alloc: Global, spilled: &StoredUnit, own: &StoredUnit) -> Result<bool, Fail> {
    let certificate = certificate_of(spilled)?;
    let word = with_source(alloc, LONG.as_bytes(), certificate, &own.image)?;
    Ok(word == "unconfirmed" && !own.is_same(spilled))
}

// An allocation that is not the compiler's own is confirmed too, although its code differs.
#[test]
fn slots_for_all(rt: HostRuntime) -> Result<(), Fail> {
    each_passes(rt.alloc(), TEXTS.as_slice(), is_confirmed_as_spilled)?;
    let spilled = spilled_unit(rt.alloc(), LONG.as_bytes())?;
    let own = compile(rt.alloc(), LONG.as_bytes())?;
    let right = is_another(rt.alloc(), spilled.stored(), own.stored());
    drop(own);
    drop(spilled);
    passes(right)
}

// Whether a certificate has the number of functions, and then for each function the length and the bytes of its LTL.
fn is_spelled(alloc: Global, unit: &StoredUnit, functions: usize) -> Result<bool, Fail> {
    let Some((prefix, mut rest)) = certificate_of(unit)?.split_at_checked(4) else {
        return Ok(false);
    };
    let mut right = prefix[0] as usize == functions && prefix[1..] == [0, 0, 0];
    for _ in 0..functions {
        let Some((length, behind)) = rest.split_at_checked(4) else {
            return Ok(false);
        };
        let count = length[0] as usize + 256 * length[1] as usize + 65_536 * length[2] as usize;
        let Some((bytes, next)) = behind.split_at_checked(count) else {
            return Ok(false);
        };
        let ltl = read_ltl(alloc, bytes)?;
        right = right && write_ltl(alloc, &ltl)?.as_slice() == bytes;
        rest = next;
    }
    Ok(right && rest.is_empty())
}

fn spells(alloc: Global, row: &(&'static str, usize)) -> Result<bool, Fail> {
    let unit = compile(alloc, row.0.as_bytes())?;
    let right = is_spelled(alloc, unit.stored(), row.1);
    drop(unit);
    right
}

#[test]
fn what_a_certificate_spells(rt: HostRuntime) -> Result<(), Fail> {
    let rows = [
        (TEXTS[0], 1),
        (TEXTS[2], 2),
        (OBJECTS, 2),
        (BYTES, 1),
        (LONG, 2),
    ];
    each_passes(rt.alloc(), &rows, spells)
}
