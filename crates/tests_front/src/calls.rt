// Each public function of the front end's libraries, called once without a fault.

use cc_meaning::{
    MeaningFault, Stop, Words, calls_are_effects, calls_go_on, calls_keep_objects,
    functions_are_resolved, functions_have_meaning, interpret, names_have_numbers,
    programs_call_main, runs_go_on, units_have_meanings,
};
use cc_syntax::{
    Expression, External, Keyword, Place, Punctuator, Scalar, Statement, SyntaxFault,
    UnaryOperator, parse, parse_is_determined, place_at, tokens_are_determined,
    trees_are_determined,
};
use cc_types::{TypeFault, TypedUnit};
use cc_typing::{check, check_is_determined};
use std::alloc::{AllocError, Global};
use std::test::Fail;

/// A text's typed unit.
pub fn typed_unit(alloc: Global, text: &[u8]) -> Result<TypedUnit, Fail> {
    let unit = parse(alloc, text)?;
    match check(alloc, unit) {
        Ok(typed) => Ok(typed),
        Err(fault) => Err(Fail::from(fault)),
    }
}

/// Whether a run of this many steps on these input words ends with this value and has written these words.
fn ends(
    alloc: Global,
    typed: &TypedUnit,
    input: &[u32],
    steps: u64,
    value: u32,
    output: &[u32],
) -> Result<bool, MeaningFault> {
    let outcome = interpret(alloc, typed, input, steps)?;
    Ok(outcome.stop == Stop::Ended(value) && outcome.output.as_slice() == output)
}

#[test]
fn a_program_from_text_to_outcome(rt: HostRuntime) -> Result<(), Fail> {
    let text = b"int main(void){write_word(read_word()+5);return 7;}".as_slice();
    let typed = typed_unit(rt.alloc(), text)?;
    let keeps = typed.text() == text
        && typed.functions() == 1
        && typed.function_name(0) == b"main".as_slice();
    let ended = ends(
        rt.alloc(),
        &typed,
        [1u32, 2].as_slice(),
        1,
        7,
        [6u32].as_slice(),
    );
    drop(typed);
    assert!(rt; keeps && matches!(ended, Ok(true)));
    Ok(())
}

#[test]
fn places(rt: HostRuntime) {
    let text = b"ab\n\ncd".as_slice();
    for (offset, line, column) in [(0, 1, 1), (2, 1, 3), (3, 2, 1), (6, 3, 3)] {
        let place = place_at(text, offset);
        assert!(rt; place.line == line && place.column == column, "at {offset}");
    }
}

const HERE: Place = Place { line: 3, column: 2 };

static SYNTAX_FAULTS: [(SyntaxFault, u32); 8] = [
    (SyntaxFault::BadByte(HERE), 1),
    (SyntaxFault::UnclosedComment(HERE), 2),
    (SyntaxFault::BadConstant(HERE), 3),
    (SyntaxFault::ConstantTooLarge(HERE), 4),
    (SyntaxFault::Unexpected(HERE), 5),
    (SyntaxFault::TooDeep(HERE), 6),
    (SyntaxFault::SourceTooLarge, 7),
    (SyntaxFault::OutOfMemory, 40),
];

static TYPE_FAULTS: [(TypeFault, u32); 12] = [
    (TypeFault::Unknown(HERE), 11),
    (TypeFault::Redeclared(HERE), 12),
    (TypeFault::WrongKind(HERE), 13),
    (TypeFault::WrongCount(HERE), 14),
    (TypeFault::VoidValue(HERE), 15),
    (TypeFault::BadReturn(HERE), 16),
    (TypeFault::BadAssign(HERE), 17),
    (TypeFault::BadBreak(HERE), 18),
    (TypeFault::NoMain(HERE), 19),
    (TypeFault::Undefined(HERE), 20),
    (TypeFault::TooMany(HERE), 21),
    (TypeFault::OutOfMemory, 40),
];

#[test]
fn numbers_and_places_of_faults(rt: HostRuntime) {
    let of_syntax = SYNTAX_FAULTS.iter().all(|(fault, number)| {
        let wanted = if *number < 7 { Some(HERE) } else { None };
        fault.number() == *number && fault.place() == wanted
    });
    let of_types = TYPE_FAULTS.iter().all(|(fault, number)| {
        let wanted = if *number < 40 { Some(HERE) } else { None };
        fault.number() == *number && fault.place() == wanted
    });
    assert!(rt; of_syntax && of_types && MeaningFault::OutOfMemory.number() == 40);
}

/// Whether this is the tree of `unsigned f(int i){return -i;}`.
fn is_negation(externals: &[External]) -> bool {
    let [External::Definition(signature, body)] = externals else {
        return false;
    };
    let is_unsigned = matches!(signature.result, Some(Scalar::Unsigned));
    let is_named = signature.name.bytes.as_slice() == b"f".as_slice() && signature.name.at == 9;
    let [parameter] = signature.parameters.as_slice() else {
        return false;
    };
    let is_int = matches!(parameter.scalar, Scalar::Int);
    let [Statement::Return(18, Some(value))] = body.as_slice() else {
        return false;
    };
    let Expression::Unary(UnaryOperator::Minus, operand) = &**value else {
        return false;
    };
    let Expression::Name(used) = &**operand else {
        return false;
    };
    let is_used = used.bytes.as_slice() == b"i".as_slice() && used.at == 26;
    is_unsigned && is_named && is_int && is_used
}

#[test]
fn the_tree_of_a_text(rt: HostRuntime) -> Result<(), Fail> {
    let text = b"unsigned f(int i){return -i;}".as_slice();
    let unit = parse(rt.alloc(), text)?;
    let is_right = unit.text() == text && is_negation(unit.externals());
    drop(unit);
    assert!(rt; is_right);
    Ok(())
}

/// Whether the functions are `main` with three statements, and `f` with one parameter and no statements.
fn are_main_and_f(typed: &TypedUnit) -> bool {
    if typed.functions() != 2 {
        return false;
    }
    let (main, f) = (typed.definition(0), typed.definition(1));
    let are_named = typed.function_name(0) == b"main".as_slice()
        && typed.function_name(1) == b"f".as_slice();
    are_named
        && (main.signature.parameters.is_empty() && main.body.len() == 3)
        && (f.signature.parameters.len() == 1 && f.body.is_empty())
}

#[test]
fn the_definitions_of_a_unit(rt: HostRuntime) -> Result<(), Fail> {
    let text = b"int g=3;void f(int);int main(void){int i=5;f(i);return -g;}void f(int n){}";
    let typed = typed_unit(rt.alloc(), text.as_slice())?;
    let is_right = typed.externals().len() == 4 && are_main_and_f(&typed);
    drop(typed);
    assert!(rt; is_right);
    Ok(())
}

static SPELLINGS: [(Keyword, &[u8]); 3] = [
    (Keyword::Auto, b"auto"),
    (Keyword::While, b"while"),
    (Keyword::Bool, b"_Bool"),
];

static MARKS: [(Punctuator, &[u8]); 3] = [
    (Punctuator::OpenParenthesis, b"("),
    (Punctuator::NotEqual, b"!="),
    (Punctuator::ShiftRightAssign, b">>="),
];

// The spellings of keywords and punctuators (C99 6.4.1 and 6.4.6).
#[test]
fn spellings(rt: HostRuntime) {
    let words = SPELLINGS.iter().all(|(word, bytes)| word.bytes() == *bytes);
    let marks = MARKS.iter().all(|(mark, bytes)| mark.bytes() == *bytes);
    assert!(rt; words && marks);
}

fn keeps_words(alloc: Global) -> Result<bool, AllocError> {
    let words = Words::from_vec(vec![in alloc; 7u32, 4294967295]?);
    let shown = words.as_slice() == [7u32, 4294967295].as_slice();
    let given = words.into_vec();
    Ok(shown && given.as_slice() == [7u32, 4294967295].as_slice())
}

#[test]
fn words_of_a_vector(rt: HostRuntime) {
    assert!(rt; matches!(keeps_words(rt.alloc()), Ok(true)));
}

// The contracts of these functions are the laws; the calls do nothing.
#[test]
fn laws() {
    tokens_are_determined();
    trees_are_determined();
    parse_is_determined();
    check_is_determined();
    functions_have_meaning();
    runs_go_on();
    calls_are_effects();
    calls_go_on();
    calls_keep_objects();
    names_have_numbers();
    programs_call_main();
    functions_are_resolved();
    units_have_meanings();
}
