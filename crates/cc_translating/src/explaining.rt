// What a person reads about a fault, on standard error.

use cc_answers::words_of_task;
use cc_diagnostic::{Diagnostic, MessagePart, message};
use cc_sources::{Origin, write_diagnostic};
use cc_syntax_diagnostic::offset_in;
use cc_tokens::SyntaxFault;
use cc_translate::TranslateFault;
use cc_types::TypeFault;
use std::alloc::{AllocError, Global};
use std::io::{self, Write};

// The bytes of a name that begins at an offset; else the one byte there; nothing at the end.
fn word_at(text: &[u8], at: usize) -> &[u8] {
    let rest = text.get(at..).unwrap_or(b"");
    let length = rest
        .iter()
        .take_while(|b| b.is_ascii_alphanumeric() || **b == b'_')
        .count();
    rest.get(..length.max(1)).unwrap_or(rest)
}

// What to write in the place of a word that wide C does not have.
fn instead_of(word: &[u8]) -> Option<&'static str> {
    match word {
        b"struct" | b"union" => Some(": write an object, or an array, for each member"),
        b"goto" => Some(": write a loop, or a function"),
        b"sizeof" => Some(": write the number"),
        b"char" | b"short" | b"long" | b"float" | b"double" => {
            Some(": write `int` or `unsigned`; `char` is only the type of an array's elements")
        }
        b"extern" => Some(": a program is one text, or several that are joined"),
        b"static" => Some(" here: an object that lasts is declared outside functions"),
        b"include" | b"if" | b"ifdef" | b"ifndef" | b"undef" | b"pragma" => None,
        b"#" => Some(": only `#define NAME tokens` is, on a line of its own"),
        b"\"" => Some(": write an array of the characters"),
        b"'" => Some(
            " here: a character constant is one character from 0 to 127, such as 'a', '\\n' or '\\x1b'",
        ),
        b"." | b"~" => None,
        _ => None,
    }
}

// The words about a text that `read` refuses.
fn of_reading(fault: &SyntaxFault) -> &'static str {
    match fault {
        SyntaxFault::BadByte(_) => " is nothing that wide C has",
        SyntaxFault::UnclosedComment(_) => ": the comment is not closed",
        SyntaxFault::BadConstant(_) => " is no constant",
        SyntaxFault::ConstantTooLarge(_) => " is too large a constant",
        SyntaxFault::Unexpected(_) => " cannot come here",
        SyntaxFault::TooDeep(_) => " is too deep, or in too long an expression",
        SyntaxFault::SourceTooLarge => {
            "the text, with what its names are replaced by, has more than 65536 bytes"
        }
        SyntaxFault::OutOfMemory => "memory ran out",
    }
}

// The words about a text that is not printed.
fn of_printing(fault: &SyntaxFault) -> &'static str {
    match fault {
        SyntaxFault::Unexpected(_) => {
            " cannot come here: each label of a switch comes before a statement that is no declaration, and each statement after a label"
        }
        SyntaxFault::TooDeep(_) => {
            " is too deep, or in too long an expression, once it is translated"
        }
        SyntaxFault::SourceTooLarge => {
            "the translation, with the text in its comments, would have more than 65536 bytes: --bare leaves the text out"
        }
        _ => of_reading(fault),
    }
}

// The words about labels.
fn of_labels(fault: &TypeFault) -> &'static str {
    match fault {
        TypeFault::Redeclared(_) => ": the switch has such a label already",
        _ => ": the value of this label is not constant",
    }
}

// The words about a translation that `check` refuses.
fn of_typing(fault: &TypeFault) -> &'static str {
    match fault {
        TypeFault::Unknown(_) => " is not declared",
        TypeFault::Redeclared(_) => " is declared already, in another way or in the same scope",
        TypeFault::WrongKind(_) => " cannot be used so, or is no constant expression",
        TypeFault::WrongCount(_) => {
            " has a wrong number of arguments, or an array's length is wrong"
        }
        TypeFault::VoidValue(_) => " has no value: it is a `void` function",
        TypeFault::BadReturn(_) => ": a function returns a value if it is not `void`",
        TypeFault::BadAssign(_) => " cannot be assigned to",
        TypeFault::BadBreak(_) => " is not in a loop or switch",
        TypeFault::NoMain(_) => "the program has no `int main(void)`",
        TypeFault::Undefined(_) => " is called, and never defined",
        TypeFault::TooMany(_) => {
            " is too much: a function has at most 8 parameters and 256 locals, a program 64 functions and 65536 words of objects"
        }
        TypeFault::OutOfMemory => "memory ran out",
    }
}

fn said_of(fault: &TranslateFault) -> &'static str {
    match fault {
        TranslateFault::Read(fault) => of_reading(fault),
        TranslateFault::Print(fault) => of_printing(fault),
        TranslateFault::Labels(fault) => of_labels(fault),
        TranslateFault::Continue(_) => " is in no loop",
        TranslateFault::Typing(fault) => of_typing(fault),
        TranslateFault::Untranslated(_) => {
            "the translator made no translation of the text: please report the text"
        }
    }
}

// Whether a message begins with the word at the fault's place.
fn names_word(fault: &TranslateFault) -> bool {
    match fault {
        TranslateFault::Typing(TypeFault::NoMain(_)) | TranslateFault::Untranslated(_) => false,
        _ => true,
    }
}

// The word at an offset, and the words about it.
fn message_at(
    alloc: Global,
    wide: &[u8],
    at: usize,
    fault: &TranslateFault,
) -> Result<String, AllocError> {
    let said = MessagePart::Words(said_of(fault));
    let word = word_at(wide, at);
    if !names_word(fault) {
        return message(alloc, &[said]);
    }
    if word.is_empty() {
        return message(alloc, &[MessagePart::Words("the end of the text"), said]);
    }
    match (fault, instead_of(word)) {
        (TranslateFault::Read(_), Some(words)) => {
            let no = MessagePart::Words(" is not in wide C");
            message(
                alloc,
                &[MessagePart::Token(word), no, MessagePart::Words(words)],
            )
        }
        _ => message(alloc, &[MessagePart::Token(word), said]),
    }
}

/// The explanation of a fault: what is at its place in the wide text, what is wrong with it, and for what wide C does not have,
/// what to write instead.
pub fn explanation_of(
    alloc: Global,
    wide: &[u8],
    fault: &TranslateFault,
) -> Result<Diagnostic, AllocError> {
    let at = offset_in(wide, fault.place());
    let message = match at {
        Some(at) => message_at(alloc, wide, at, fault)?,
        None => message(alloc, &[MessagePart::Words(said_of(fault))])?,
    };
    Ok(Diagnostic {
        at,
        message,
        related: None,
    })
}

// Writes an explanation, if there is memory for it.
fn write_explanation<W: Write>(
    alloc: Global,
    wide: &[u8],
    origin: Origin<'_>,
    fault: &TranslateFault,
    writer: &mut W,
) -> io::Result<()> {
    let Ok(diagnostic) = explanation_of(alloc, wide, fault) else {
        return Ok(());
    };
    write_diagnostic(alloc, wide, origin, &diagnostic, writer)?;
    writer.flush()
}

/// Writes the explanation of a fault of a wide text that comes from `origin`. If memory runs out, or the writer fails, it is left
/// out.
pub fn explain<W: Write>(
    alloc: Global,
    wide: &[u8],
    origin: Origin<'_>,
    fault: &TranslateFault,
    writer: &mut W,
) {
    let _ = write_explanation(alloc, wide, origin, fault, writer);
}

/// Writes the explanation of a fault that is in no text, by its number.
pub fn explain_number<W: Write>(number: u32, writer: &mut W) {
    if let Some(words) = words_of_task(number) {
        let _ = writeln!(writer, "cclib: {words}");
        let _ = writer.flush();
    }
}
