// Messages about a tree that breaks a rule or exceeds a limit.

ghost use Rattle.std.specs.Prelude.{◌≡◌, ◌≤◌, length, is_some, IfOk, IfSome};
ghost use Rattle.cc_types.specs.Fault.{fault_place};

use super::constant::{Cause, why};
use super::declarations::{Declaration, Declared, declarations, first_of, named_at};
use super::names::Standing;
use super::walk::{Note, Use, Walk};
use cc_scope::Entity;
use cc_syntax::{Object, Signature, Unit, parse};
use cc_syntax_diagnostic::{
    Diagnostic, MessagePart, Related, message, near_keyword, offset_in, said_of_foreign, words,
};
use cc_tokens::{Place, SyntaxFault, place_at};
use cc_types::{MOST_FUNCTIONS, MOST_LOCALS, MOST_PARAMETERS, MOST_WORDS, TypeFault, array_length};
use std::alloc::{AllocError, Global};

/// A text with a fault: the fault's offset, the word there, what the walk noted about it, and all declarations at file scope.
#[derive(Clone, Copy)]
struct View<'a> {
    text: &'a [u8],
    at: usize,
    word: &'a [u8],
    done: Option<Use>,
    standing: Option<Standing<'a>>,
    inside: Option<&'a Signature>,
    near: Option<&'a [u8]>,
    declarations: &'a [Declaration<'a>],
}

/// The word that begins at an offset.
pub fn word_at(text: &[u8], at: usize) -> &[u8] {
    let rest = text.get(at..).unwrap_or(b"");
    let length = rest
        .iter()
        .take_while(|b| b.is_ascii_alphanumeric() || **b == b'_')
        .count();
    rest.get(..length).unwrap_or(rest)
}

fn place_in(text: &[u8], at: usize) -> Place {
    place_at(text, at.min(text.len()))
}

impl<'a> View<'a> {
    fn word(&self) -> MessagePart<'a> {
        MessagePart::Token(self.word)
    }

    // The name of the function in which the fault is.
    fn function(&self) -> MessagePart<'a> {
        match self.inside {
            Some(signature) => MessagePart::Token(signature.name.bytes.as_slice()),
            None => MessagePart::Words("a function"),
        }
    }

    // The offset of the first declaration of what the name denotes; `None` for a builtin.
    fn declared_at(&self) -> Option<usize> {
        match self.standing {
            Some(standing) => standing.at,
            None => None,
        }
    }

    // A message that consists of the word, what to say about it, and a place.
    fn with_place(&self, alloc: Global, said: &'a str, at: usize) -> Result<String, AllocError> {
        let place = MessagePart::Place(place_in(self.text, at));
        message(alloc, &[self.word(), MessagePart::Words(said), place])
    }

    // A message that consists of the word and what to say about it.
    fn with(&self, alloc: Global, said: &'a str) -> Result<String, AllocError> {
        message(alloc, &[self.word(), MessagePart::Words(said)])
    }
}

// What kind of thing a name denotes, in words.
fn kind(standing: Standing<'_>) -> &'static str {
    match standing.entity {
        Entity::Variable(_) => " is a variable",
        Entity::Elements(_) => " is an array",
        Entity::Function(_) | Entity::WriteWord | Entity::ReadWord => " is a function",
    }
}

// What cannot be done with a name, in words.
fn not_done(done: Use) -> &'static str {
    match done {
        Use::Read => " and cannot be used as a value",
        Use::Indexed => " and cannot be indexed",
        Use::Written => " and cannot be assigned to",
        Use::Called(_) => " and cannot be called",
        Use::Declared | Use::Returned(_) | Use::Constant => " and cannot be used so",
    }
}

// The message about an expression that should be constant and is not.
fn no_constant(alloc: Global, view: &View<'_>) -> Result<String, AllocError> {
    let (said, from, to) = match why(view.text, view.at) {
        Cause::Name(from, to) => ("it has the name ", from, to),
        Cause::Call(from, to) => ("it has a call of ", from, to),
        Cause::Undefined => {
            let told =
                "this is no constant expression: its value is not defined, for a division by 0 or a shift outside 0 to 31";
            return words(alloc, told);
        }
    };
    let name = MessagePart::Token(view.text.get(from..to).unwrap_or(b""));
    let told = MessagePart::Words("this is no constant expression: ");
    message(alloc, &[told, MessagePart::Words(said), name])
}

// The message about a name that cannot be used as it is, or about an expression that should be constant and is not.
fn misused(alloc: Global, view: &View<'_>) -> Result<String, AllocError> {
    let (Some(done), Some(standing)) = (view.done, view.standing) else {
        return no_constant(alloc, view);
    };
    let kind = MessagePart::Words(kind(standing));
    let not_done = MessagePart::Words(not_done(done));
    match standing.at {
        None => message(alloc, &[view.word(), kind, not_done]),
        Some(at) => {
            let declared = MessagePart::Words(", declared at ");
            let place = MessagePart::Place(place_in(view.text, at));
            message(
                alloc,
                &[
                    view.word(),
                    kind,
                    declared,
                    place,
                    MessagePart::Words(","),
                    not_done,
                ],
            )
        }
    }
}

// The message about a name that is not declared: why it is not, or which name might be meant.
fn not_declared(alloc: Global, view: &View<'_>) -> Result<String, AllocError> {
    let what = MessagePart::Words(" is not declared");
    if let Some(said) = said_of_foreign(view.word) {
        let parts = [
            view.word(),
            what,
            MessagePart::Words(": "),
            MessagePart::Words(said),
        ];
        return message(alloc, &parts);
    }
    let near = match near_keyword(view.word) {
        Some(keyword) if view.near.is_none() => Some(keyword.as_bytes()),
        _ => view.near,
    };
    match near {
        Some(name) => {
            let asked = MessagePart::Words(": did you mean ");
            message(
                alloc,
                &[
                    view.word(),
                    what,
                    asked,
                    MessagePart::Token(name),
                    MessagePart::Words("?"),
                ],
            )
        }
        None => message(alloc, &[view.word(), what]),
    }
}

fn unknown(alloc: Global, view: &View<'_>) -> Result<String, AllocError> {
    match first_of(view.declarations, view.word) {
        Some(declaration) if declaration.name.at > view.at => {
            view.with_place(alloc, " is declared only later, at ", declaration.name.at)
        }
        _ => not_declared(alloc, view),
    }
}

// The offset of an earlier definition of a function with the word's name.
fn definition_before(view: &View<'_>) -> Option<usize> {
    for declaration in view.declarations {
        let name = declaration.name;
        if name.at < view.at
            && name.bytes.as_slice() == view.word
            && matches!(declaration.declared, Declared::Definition(_))
        {
            return Some(name.at);
        }
    }
    None
}

// Whether the name at the fault is that of a function's definition.
fn is_definition(view: &View<'_>) -> bool {
    match named_at(view.declarations, view.at) {
        Some(declaration) => matches!(declaration.declared, Declared::Definition(_)),
        None => false,
    }
}

// The message about a second declaration of a builtin. `declared` says how the builtin is declared.
fn built_in(alloc: Global, view: &View<'_>, declared: &'static str) -> Result<String, AllocError> {
    let refused = if is_definition(view) {
        ", and cannot be defined"
    } else {
        ", and cannot be declared otherwise"
    };
    message(
        alloc,
        &[
            view.word(),
            MessagePart::Words(" is built in, as "),
            MessagePart::Words(declared),
            MessagePart::Words(refused),
        ],
    )
}

// Whether the name at the fault is that of an object at file scope.
fn is_object(view: &View<'_>) -> bool {
    match named_at(view.declarations, view.at) {
        Some(declaration) => matches!(declaration.declared, Declared::Object(_)),
        None => false,
    }
}

// The message about a second declaration of an object, a parameter or a local, whose first one is at the offset `at`.
fn already_declared(alloc: Global, view: &View<'_>, at: usize) -> Result<String, AllocError> {
    let place = MessagePart::Place(place_in(view.text, at));
    let more = if is_object(view) {
        ": there are no tentative definitions in this C; declare it once"
    } else {
        ""
    };
    let what = MessagePart::Words(" is already declared at ");
    message(alloc, &[view.word(), what, place, MessagePart::Words(more)])
}

fn redeclared(alloc: Global, view: &View<'_>) -> Result<String, AllocError> {
    if is_definition(view)
        && let Some(at) = definition_before(view)
    {
        return view.with_place(alloc, " is already defined at ", at);
    }
    let Some(standing) = view.standing else {
        return view.with(alloc, " is already declared");
    };
    let at = standing.at.unwrap_or(0);
    match standing.entity {
        Entity::WriteWord => built_in(alloc, view, "void write_word(int)"),
        Entity::ReadWord => built_in(alloc, view, "int read_word(void)"),
        Entity::Function(_) => view.with_place(alloc, " is declared otherwise at ", at),
        Entity::Variable(_) | Entity::Elements(_) => already_declared(alloc, view, at),
    }
}

// The number of parameters of the function that a name denotes.
fn parameters(standing: Standing<'_>) -> usize {
    match standing.entity {
        Entity::Function(signature) => signature.parameters.len(),
        Entity::WriteWord => 1,
        Entity::ReadWord | Entity::Variable(_) | Entity::Elements(_) => 0,
    }
}

// The message about an array whose length or list is wrong.
fn wrong_length(alloc: Global, view: &View<'_>, object: &Object) -> Result<String, AllocError> {
    let (Object::Array(_, length, values) | Object::Bytes(_, length, values)) = object else {
        return view.with(alloc, " has a wrong length");
    };
    let values = values.as_slice();
    let count = array_length(length, values).unwrap_or(0);
    if length.is_none() {
        return view.with(alloc, " has neither a length nor initialisers");
    }
    if count == 0 {
        return view.with(alloc, " has a length below 1");
    }
    let given = MessagePart::Count(values.len());
    let count = MessagePart::Count(count);
    let for_length = MessagePart::Words(" initialisers for its length of ");
    message(
        alloc,
        &[
            view.word(),
            MessagePart::Words(" has "),
            given,
            for_length,
            count,
        ],
    )
}

// The message about a call with the wrong number of arguments.
fn wrong_call(
    alloc: Global,
    view: &View<'_>,
    taken: usize,
    given: usize,
) -> Result<String, AllocError> {
    let arguments = if taken == 1 {
        " argument, "
    } else {
        " arguments, "
    };
    message(
        alloc,
        &[
            view.word(),
            MessagePart::Words(" takes "),
            MessagePart::Count(taken),
            MessagePart::Words(arguments),
            MessagePart::Count(given),
            MessagePart::Words(" given"),
        ],
    )
}

fn wrong_count(alloc: Global, view: &View<'_>) -> Result<String, AllocError> {
    if let (Some(Use::Called(given)), Some(standing)) = (view.done, view.standing) {
        return wrong_call(alloc, view, parameters(standing), given);
    }
    match named_at(view.declarations, view.at) {
        Some(declaration) => match declaration.declared {
            Declared::Object(object) => wrong_length(alloc, view, object),
            Declared::Declaration(_) | Declared::Definition(_) => {
                view.with(alloc, " has a wrong count")
            }
        },
        None => view.with(alloc, " has a wrong count"),
    }
}

fn bad_return(alloc: Global, view: &View<'_>) -> Result<String, AllocError> {
    let told = match view.done {
        Some(Use::Returned(true)) => " is void and cannot return a value",
        _ => " has to return a value",
    };
    message(alloc, &[view.function(), MessagePart::Words(told)])
}

fn no_main(alloc: Global, view: &View<'_>) -> Result<String, AllocError> {
    match first_of(view.declarations, b"main") {
        None => words(alloc, "there is no int main(void)"),
        Some(declaration) => {
            let place = MessagePart::Place(place_in(view.text, declaration.name.at));
            let told = MessagePart::Words(" is no definition of int main(void)");
            message(alloc, &[MessagePart::Words("'main' at "), place, told])
        }
    }
}

fn undefined(alloc: Global, view: &View<'_>) -> Result<String, AllocError> {
    match view.declared_at() {
        Some(at) => view.with_place(alloc, " is called and never defined, only declared at ", at),
        None => view.with(alloc, " is called and never defined"),
    }
}

fn too_many_of_function(
    alloc: Global,
    view: &View<'_>,
    signature: &Signature,
) -> Result<String, AllocError> {
    let count = signature.parameters.len();
    let name = view.word();
    if count <= MOST_PARAMETERS {
        let past = MOST_FUNCTIONS + 1;
        return format!(in alloc;
            "{name} is the {past}th function that is defined, at most {MOST_FUNCTIONS} are allowed"
        );
    }
    format!(in alloc; "{name} has {count} parameters, at most {MOST_PARAMETERS} are allowed")
}

fn too_many(alloc: Global, view: &View<'_>) -> Result<String, AllocError> {
    match named_at(view.declarations, view.at) {
        Some(declaration) => match declaration.declared {
            Declared::Declaration(signature) | Declared::Definition(signature) => {
                too_many_of_function(alloc, view, signature)
            }
            Declared::Object(_) => {
                let name = view.word();
                format!(in alloc;
                    "{name} is too many: all objects at file scope have at most {MOST_WORDS} words together"
                )
            }
        },
        None => {
            let (name, function) = (view.word(), view.function());
            let past = MOST_LOCALS + 1;
            format!(in alloc;
                "{name} is the {past}th local of {function}, at most {MOST_LOCALS} are allowed"
            )
        }
    }
}

fn message_of(alloc: Global, view: &View<'_>, fault: &TypeFault) -> Result<String, AllocError> {
    match fault {
        TypeFault::Unknown(_) => unknown(alloc, view),
        TypeFault::Redeclared(_) => redeclared(alloc, view),
        TypeFault::WrongKind(_) | TypeFault::BadAssign(_) => misused(alloc, view),
        TypeFault::WrongCount(_) => wrong_count(alloc, view),
        TypeFault::VoidValue(_) => view.with(alloc, " is void: its call has no value to use"),
        TypeFault::BadReturn(_) => bad_return(alloc, view),
        TypeFault::BadBreak(_) => view.with(alloc, " is outside a loop"),
        TypeFault::NoMain(_) => no_main(alloc, view),
        TypeFault::Undefined(_) => undefined(alloc, view),
        TypeFault::TooMany(_) => too_many(alloc, view),
        TypeFault::OutOfMemory => words(alloc, "memory ran out"),
    }
}

/// What a walk over a unit notes at an offset.
///
/// Fails with `AllocError` if memory runs out.
pub fn noted<'a>(alloc: Global, unit: &'a Unit, at: usize) -> Result<Option<Note<'a>>, AllocError> {
    let mut walk = Walk::new(alloc, Vec::new(alloc), Some(at))?;
    let walked = walk.externals(unit.externals());
    let note = walk.note;
    drop(walk);
    walked?;
    Ok(note)
}

// A note about the first declaration of a function, if another one contradicts it.
fn related(view: &View<'_>, fault: &TypeFault) -> Option<Related> {
    let at = view.declared_at()?;
    if matches!(fault, TypeFault::Redeclared(_)) && !is_object(view) {
        Some(Related {
            at,
            words: "the first declaration",
        })
    } else {
        None
    }
}

/// A report about a unit: the message, and a note about another place.
#[derive(Drop)]
struct Told {
    message: String,
    related: Option<Related>,
}

// The view of a unit at an offset, given what was noted there.
fn view_of<'a>(
    unit: &'a Unit,
    note: Option<Note<'a>>,
    declarations: &'a [Declaration<'a>],
    at: usize,
) -> View<'a> {
    let text = unit.text();
    let mut view = View {
        text,
        at,
        word: word_at(text, at),
        done: None,
        standing: None,
        inside: None,
        near: None,
        declarations,
    };
    if let Some(
        Note {
            done,
            standing,
            inside,
            near,
        },
    ) = note
    {
        view.done = Some(done);
        view.standing = standing;
        view.inside = inside;
        view.near = near;
    }
    view
}

// The report of a unit's fault at an offset, given what was noted there and what the unit declares at file scope.
fn of_note<'a>(
    alloc: Global,
    unit: &'a Unit,
    declarations: &'a [Declaration<'a>],
    note: Option<Note<'a>>,
    fault: &TypeFault,
    at: usize,
) -> Result<Told, AllocError> {
    let view = view_of(unit, note, declarations, at);
    Ok(Told {
        message: message_of(alloc, &view, fault)?,
        related: related(&view, fault),
    })
}

/// Makes a diagnostic for a unit's fault at an offset, given what was noted there and what the unit declares at file scope.
///
/// Fails with `AllocError` if memory runs out.
pub fn told_of<'a>(
    alloc: Global,
    unit: &'a Unit,
    declarations: &'a [Declaration<'a>],
    note: Option<Note<'a>>,
    fault: &TypeFault,
    at: usize,
) -> Result<Diagnostic, AllocError> {
    let Told { message, related } = of_note(alloc, unit, declarations, note, fault, at)?;
    let at = Some(at);
    Ok(Diagnostic {
        at,
        message,
        related,
    })
}

// The report of a unit's fault at an offset.
fn of_unit(alloc: Global, unit: &Unit, fault: &TypeFault, at: usize) -> Result<Told, AllocError> {
    let note = noted(alloc, unit, at)?;
    let declarations = declarations(alloc, unit.externals())?;
    of_note(alloc, unit, declarations.as_slice(), note, fault, at)
}

/// Makes a diagnostic for the fault that `check` returned for a text's tree: the name, what it denotes and the place of its
/// first declaration, the counts, or the limit that was exceeded. `None` for a text without a tree.
///
/// Fails with `AllocError` if memory runs out.
pub fn of_typing(
    alloc: Global,
    text: &[u8],
    fault: &TypeFault,
) -> Result<Option<Diagnostic>, AllocError>
    // The diagnostic has a place exactly if the fault has one.
    ensures placed { IfOk result (λ some. IfSome some (λ told. is_some told.at ≡ is_some (fault_place fault.now))) }
    ensures within { IfOk result (λ some. IfSome some (λ told. IfSome told.at (λ at. at ≤ length text.now))) }
{
    let at = offset_in(text, fault.place());
    match parse(alloc, text) {
        Ok(unit) => {
            let told = of_unit(alloc, &unit, fault, at.unwrap_or(usize::MAX));
            drop(unit);
            let Told { message, related } = told?;
            Ok(Some(Diagnostic {
                at,
                message,
                related,
            }))
        }
        Err(SyntaxFault::OutOfMemory) => Err(AllocError),
        Err(fault) => {
            drop(fault);
            Ok(None)
        }
    }
}
