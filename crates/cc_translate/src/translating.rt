// The one call: read, print, parse, compare, check.

ghost use Rattle.std.specs.Prelude.{◌≡◌, ◌≤◌, Some, length, IfOk, IfErr, OnOk};
ghost use Rattle.cc_tokens.specs.Tokens.{most_bytes};
ghost use Rattle.cc_ast.specs.Erase.{external_trees};
ghost use Rattle.cc_types.specs.Fault.{fault_number};
ghost use Rattle.cc_translate.specs.Carried.{carried};
ghost use Rattle.cc_translate.specs.Refused.{IsTranslateRefusal};
ghost use Rattle.cc_translate.specs.Translates.{DoTheSame, Translates};
ghost use Rattle.cc_translate.specs.internal.Answers.{IsDifference, IsFaultOf, IsNotPrinted, IsSlip, IsTranslatedTree};

use crate::carrying::carried;
use crate::fault::TranslateFault;
use crate::laws::translated_texts_do_the_same;
use cc_ast::External;
use cc_syntax::parse;
use cc_tokens::{Place, SyntaxFault};
use cc_types::TypeFault;
use cc_typing::check;
use cc_wide_check::{is_translation, keeps_labels};
use cc_wide_print::{PrintFault, Printed, print};
use cc_wide_text::read;
use std::alloc::Global;

/// A text of the profile that is a translation of a text of wide C, with the table of its places.
#[derive(Drop)]
pub struct Translation {
    pub printed: Printed,
}

impl Translation {
    /// The text of the profile, byte for byte.
    pub fn text(&self) -> &[u8]
        ensures { result.now ≡ self.now.printed.text.items }
    {
        self.printed.text.as_slice()
    }

    /// The place in the wide text that a place of the text comes from. Tested, not proved.
    pub fn place(&self, wide: &[u8], place: Place) -> Place {
        self.printed.place(wide, place)
    }
}

/// Why a text is no translation of a program. Places are those of the text.
#[derive(Drop)]
pub(crate) enum Difference {
    /// A switch of the program breaks the rules of labels.
    Labels,
    /// The text has no tree.
    Syntax(SyntaxFault),
    /// Its tree is not that of the lowered program.
    Other,
    /// `check` refuses it.
    Typing(TypeFault),
}

/// Whether the switches of the program that a marked tree is keep the rules of labels, and a text is a translation of it and a text of
/// the profile.
pub(crate) fn compare(alloc: Global, marked: &[External], text: &[u8]) -> Result<(), Difference>
    ensures translated { OnOk result (IsTranslatedTree (external_trees marked.now) text.now) }
    ensures fits { OnOk result (length text.now ≤ most_bytes) }
    ensures refused { IfErr result (λ difference. IsDifference (external_trees marked.now) text.now difference) }
{
    if !keeps_labels(marked) {
        return Err(Difference::Labels);
    }
    let unit = match parse(alloc, text) {
        Ok(unit) => unit,
        Err(fault) => return Err(Difference::Syntax(fault)),
    };
    if !is_translation(marked, unit.externals()) {
        return Err(Difference::Other);
    }
    let typed = match check(alloc, unit) {
        Ok(typed) => typed,
        Err(fault) => return Err(Difference::Typing(fault)),
    };
    drop(typed);
    Ok(())
}

// The fault at another place.
fn typing_at(fault: TypeFault, place: Place) -> TypeFault
    ensures number { fault_number result ≡ fault_number fault }
    ensures memory { fault ≡ TypeFault.OutOfMemory → result ≡ TypeFault.OutOfMemory }
{
    match fault {
        TypeFault::Unknown(_) => TypeFault::Unknown(place),
        TypeFault::Redeclared(_) => TypeFault::Redeclared(place),
        TypeFault::WrongKind(_) => TypeFault::WrongKind(place),
        TypeFault::WrongCount(_) => TypeFault::WrongCount(place),
        TypeFault::VoidValue(_) => TypeFault::VoidValue(place),
        TypeFault::BadReturn(_) => TypeFault::BadReturn(place),
        TypeFault::BadAssign(_) => TypeFault::BadAssign(place),
        TypeFault::BadBreak(_) => TypeFault::BadBreak(place),
        TypeFault::NoMain(_) => TypeFault::NoMain(place),
        TypeFault::Undefined(_) => TypeFault::Undefined(place),
        TypeFault::TooMany(_) => TypeFault::TooMany(place),
        TypeFault::OutOfMemory => TypeFault::OutOfMemory,
    }
}

// The fault of a wide text for which the printed text has no tree: only the limits of the profile are no slip of the printer.
fn not_parsed(wide: &[u8], printed: &Printed, fault: SyntaxFault) -> TranslateFault
    ensures { IsSlip result }
{
    let place = match fault.place() {
        Some(place) => Some(printed.place(wide, place)),
        None => None,
    };
    match (fault, place) {
        (SyntaxFault::TooDeep(_), Some(place)) => {
            TranslateFault::Print(SyntaxFault::TooDeep(place))
        }
        (SyntaxFault::SourceTooLarge, _) => TranslateFault::Print(SyntaxFault::SourceTooLarge),
        (SyntaxFault::OutOfMemory, _) => TranslateFault::Print(SyntaxFault::OutOfMemory),
        (_, place) => TranslateFault::Untranslated(place),
    }
}

// The fault of a wide text whose printed text is no translation.
fn fault_of(wide: &[u8], printed: &Printed, difference: Difference) -> TranslateFault
    ensures { IsFaultOf difference result }
{
    match difference {
        Difference::Syntax(fault) => not_parsed(wide, printed, fault),
        Difference::Labels | Difference::Other => TranslateFault::Untranslated(None),
        Difference::Typing(fault) => {
            let place = match fault.place() {
                Some(place) => printed.place(wide, place),
                None => Place { line: 1, column: 1 },
            };
            TranslateFault::Typing(typing_at(fault, place))
        }
    }
}

// The fault of a wide text that is not printed, given whether its switches keep the rules of labels: if they do, the printer has no
// reason to refuse them.
fn not_printed(fault: PrintFault, keeps: bool) -> TranslateFault
    ensures { IsNotPrinted keeps result }
{
    match fault {
        PrintFault::Redeclared(place) if !keeps => {
            TranslateFault::Labels(TypeFault::Redeclared(place))
        }
        PrintFault::WrongKind(place) if !keeps => {
            TranslateFault::Labels(TypeFault::WrongKind(place))
        }
        PrintFault::Redeclared(place) | PrintFault::WrongKind(place) => {
            TranslateFault::Untranslated(Some(place))
        }
        PrintFault::Unexpected(place) => TranslateFault::Print(SyntaxFault::Unexpected(place)),
        PrintFault::BadBreak(place) => TranslateFault::Continue(place),
        PrintFault::SourceTooLarge => TranslateFault::Print(SyntaxFault::SourceTooLarge),
        PrintFault::OutOfMemory => TranslateFault::Print(SyntaxFault::OutOfMemory),
    }
}

// Translates a text, and has the printer carry it or not.
fn translated(alloc: Global, wide: &[u8], is_carried: bool) -> Result<Translation, TranslateFault>
    ensures translates { IfOk result (λ t. Translates wide.now t.printed.text.items) }
    ensures fits { IfOk result (λ t. length t.printed.text.items ≤ most_bytes) }
    ensures refused { IfErr result (λ fault. IsTranslateRefusal wide.now fault) }
{
    let found = match read(alloc, wide) {
        Ok(found) => found,
        Err(fault) => return Err(TranslateFault::Read(fault)),
    };
    let marked = found.unit().externals();
    let printed = match print(alloc, wide, &found, is_carried) {
        Ok(printed) => printed,
        Err(fault) => return Err(not_printed(fault, keeps_labels(marked))),
    };
    match compare(alloc, marked, printed.text.as_slice()) {
        Ok(()) => Ok(Translation { printed }),
        Err(difference) => Err(fault_of(wide, &printed, difference)),
    }
}

/// Translates a text of wide C to a text of the profile, which does the same. Each line of the wide text is a line of the text, and
/// follows there after the first `//|`: so both together have at most 65,536 bytes, and a wide text some 25 KB.
///
/// Refuses with 1 to 7 exactly as `read`. Then, at a place of the wide text: 5 (Unexpected) for a label in a wrong place; 12
/// (Redeclared) and 13 (WrongKind) for labels; 18 (BadBreak) for a `continue` in no loop; 6 (TooDeep) and 11 to 21 if the translation
/// breaks a rule or limit of the profile. 7 (SourceTooLarge) if it would be too long, 40 (OutOfMemory) if memory runs out. 42
/// (Untranslated) if what has been printed is no translation, or does not carry the wide text. Which fault comes first, and its
/// place, are tested, not proved.
pub fn translate(alloc: Global, wide: &[u8]) -> Result<Translation, TranslateFault>
    ensures translates { IfOk result (λ t. Translates wide.now t.printed.text.items) }
    ensures same { IfOk result (λ t. DoTheSame wide.now t.printed.text.items) }
    ensures carries { IfOk result (λ t. carried t.printed.text.items ≡ Some wide.now) }
    ensures fits { IfOk result (λ t. length t.printed.text.items ≤ most_bytes) }
    ensures refused { IfErr result (λ fault. IsTranslateRefusal wide.now fault) }
{
    translated_texts_do_the_same();
    let done = match translated(alloc, wide, true) {
        Ok(done) => done,
        Err(fault) => return Err(fault),
    };
    match carried(alloc, done.text()) {
        Ok(Some(found)) if found.as_slice() == wide => Ok(done),
        Ok(_) => Err(TranslateFault::Untranslated(None)),
        Err(_) => Err(TranslateFault::Print(SyntaxFault::OutOfMemory)),
    }
}

/// Translates a text of wide C as `translate` does, without its lines: so only the text itself has at most 65,536 bytes.
pub fn translate_bare(alloc: Global, wide: &[u8]) -> Result<Translation, TranslateFault>
    ensures translates { IfOk result (λ t. Translates wide.now t.printed.text.items) }
    ensures same { IfOk result (λ t. DoTheSame wide.now t.printed.text.items) }
    ensures fits { IfOk result (λ t. length t.printed.text.items ≤ most_bytes) }
    ensures refused { IfErr result (λ fault. IsTranslateRefusal wide.now fault) }
{
    translated_texts_do_the_same();
    translated(alloc, wide, false)
}

#[cfg(test)]
mod tests {
    use super::*;
    use std::test::Fail;

    const TEXT: &[u8] =
        b"#define STX 2\nenum op { ADD = 'a', SUB };\nint main(void)\n{\n int n = 0;\n while (n < 3) {\n  switch (n) {\n  case 0: n = n + STX; break;\n  default: n++; continue;\n  }\n }\n return SUB;\n}\n";

    #[test]
    fn texts_are_translated(rt: HostRuntime) -> Result<(), Fail> {
        let done = translate(rt.alloc(), TEXT)?;
        let is_carried = match carried(rt.alloc(), done.text())? {
            Some(found) => found.as_slice() == TEXT,
            None => false,
        };
        assert!(rt; is_carried);
        let unit = parse(rt.alloc(), done.text())?;
        let typed = check(rt.alloc(), unit)?;
        assert_eq!(rt; typed.functions(), 1);
        Ok(())
    }

    #[test]
    fn bare_texts_carry_nothing(rt: HostRuntime) -> Result<(), Fail> {
        let wanted = b"int main(void){return 97;}";
        let done = translate_bare(rt.alloc(), b"int main(void){return 'a';}")?;
        assert_eq!(rt; done.text(), wanted.as_slice());
        assert!(rt; carried(rt.alloc(), done.text())?.is_none());
        Ok(())
    }

    // The line and the column of the fault with this number; 0 and 0 if it has no place, or if there is another fault.
    fn refused(rt: &HostRuntime, text: &[u8], number: u32) -> (usize, usize) {
        match translate(rt.alloc(), text) {
            Ok(_) => (0, 0),
            Err(fault) => {
                if fault.number() != number {
                    return (0, 0);
                }
                match fault.place() {
                    Some(place) => (place.line, place.column),
                    None => (0, 0),
                }
            }
        }
    }

    #[test]
    fn faults_have_wide_places(rt: HostRuntime) -> Result<(), Fail> {
        assert_eq!(rt;
            refused(&rt, b"int main(void)\n{ return '';\n}", 1),
            (2, 10)
        );
        assert_eq!(rt;
            refused(&rt, b"int main(void)\n{ return 1 +;\n}", 5),
            (2, 13)
        );
        assert_eq!(rt;
            refused(&rt, b"#define N 3\nint main(void)\n{ return N + x;\n}", 11),
            (3, 14)
        );
        assert_eq!(rt;
            refused(
                &rt,
                b"int main(void)\n{ switch (1) {\n case 2: case 2: return 1; }\n}",
                12
            ),
            (3, 10)
        );
        assert_eq!(rt;
            refused(
                &rt,
                b"int main(void)\n{ switch (1) {\n case 2: continue; }\n}",
                18
            ),
            (3, 10)
        );
        assert_eq!(rt; refused(&rt, b"int f(void)\n{ return 'a'; }\n", 19), (3, 1));
        Ok(())
    }

    #[test]
    fn deep_switches_are_refused(rt: HostRuntime) -> Result<(), Fail> {
        let mut text = Vec::from_slice(rt.alloc(), b"int main(void)\n{\n")?;
        for _ in 0..20 {
            text.extend_from_slice(b"switch (1) { case 1: ; default:\n")?;
        }
        text.extend_from_slice(b";")?;
        for _ in 0..20 {
            text.extend_from_slice(b"}")?;
        }
        text.extend_from_slice(b"return 0; }")?;
        let (line, _) = refused(&rt, text.as_slice(), 6);
        assert!(rt; line > 10);
        Ok(())
    }

    #[test]
    fn long_texts_are_refused(rt: HostRuntime) -> Result<(), Fail> {
        let mut text = Vec::new(rt.alloc());
        for _ in 0..2500 {
            text.extend_from_slice(b"// twenty bytes ..\n")?;
        }
        text.extend_from_slice(b"int main(void) { return 0; }\n")?;
        assert!(rt; translate_bare(rt.alloc(), text.as_slice()).is_ok());
        for _ in 0..800 {
            text.extend_from_slice(b"// twenty bytes ..\n")?;
        }
        let is_long = match translate(rt.alloc(), text.as_slice()) {
            Ok(_) => false,
            Err(fault) => fault.number() == 7,
        };
        assert!(rt; is_long);
        assert!(rt; translate_bare(rt.alloc(), text.as_slice()).is_ok());
        Ok(())
    }
}
