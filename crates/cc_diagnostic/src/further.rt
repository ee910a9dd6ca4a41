// The errors of scope and type after the first.
//
// `check` reports one error. The next one is found in a copy of the text in which the previous one is mended, so that no rule
// is implemented twice; the report is about the text itself. A name that was reported as undeclared, or as declared twice, is
// not reported again; nor is an error that only a mend has caused.
//
// One walk finds the names that are not declared, and all of them are mended before the first turn. Each turn checks the copy
// once and walks over the text once. There are at most 20 turns, and at most as many as check 131,072 bytes of copies: two for
// the longest text. So the search takes only some times as long as a check of the longest text, whatever the text is.

use super::declarations::{Declaration, Declared, declarations, first_of, named_at};
use super::mended::Mended;
use super::typing::{noted, told_of, word_at};
use super::walk::{Note, Stray, Use, Walk};
use cc_syntax::{SyntaxFault, Unit, parse};
use cc_syntax_diagnostic::{Diagnostic, offset_in, words};
use cc_tokens::{Place, Token};
use cc_types::{MOST_FUNCTIONS, TypeFault};
use cc_typing::check;
use std::alloc::{AllocError, Global};
use std::mem::replace;

/// At most this many errors are reported, the first one included.
const MOST_TOLD: usize = 20;

/// At most this many bytes of the text are checked, all turns together: each turn checks all of it.
const MOST_CHECKED: usize = 131_072;

/// The last report, if more errors were found than are reported.
const NOT_SHOWN: &str = "further errors are not shown: correct these first";

/// The last report, if the search took all its turns.
const NOT_SOUGHT: &str = "there may be further errors: correct these first";

/// The fault that a stray is; its report does not depend on the place that the fault has.
const UNKNOWN: TypeFault = TypeFault::Unknown(Place { line: 1, column: 1 });

/// A fault of the copy, and its offset in the text.
#[derive(Drop)]
struct Found {
    fault: TypeFault,
    at: usize,
}

/// A search for errors: the text with its tree, its declarations at file scope, and its copy; the names that the text declares
/// twice; the number and the offset of the fault that was mended last, and the offset of the last one that was reported;
/// whether NoMain (19) or Undefined (20) was found, which come after all other faults; the names that denote nothing, and how
/// many of them were reported; how many functions the copy defines; the reports, and what to say last if the search ends before all errors are reported.
#[derive(Drop)]
struct Search<'a> {
    unit: &'a Unit,
    declarations: Vec<Declaration<'a>>,
    copy: Mended,
    twice: Vec<&'a [u8]>,
    number: u32,
    at: usize,
    last: usize,
    late: bool,
    strays: Vec<Stray<'a>>,
    shown: usize,
    functions: usize,
    told: Vec<Diagnostic>,
    end: Option<&'static str>,
}

// Whether a name is used here rather than declared.
fn is_use(done: Use) -> bool {
    match done {
        Use::Read | Use::Indexed | Use::Written | Use::Called(_) => true,
        Use::Declared | Use::Returned(_) | Use::Constant => false,
    }
}

// Whether a fault comes after those of other kinds, wherever its place is.
fn is_late(fault: &TypeFault) -> bool {
    matches!(fault, TypeFault::NoMain(_) | TypeFault::Undefined(_))
}

// The fault of a unit; `None` if the unit breaks no rule and exceeds no limit.
fn fault_of(alloc: Global, unit: Unit) -> Result<Option<TypeFault>, AllocError> {
    match check(alloc, unit) {
        Ok(typed) => {
            drop(typed);
            Ok(None)
        }
        Err(TypeFault::OutOfMemory) => Err(AllocError),
        Err(fault) => Ok(Some(fault)),
    }
}

// The fault of a text that has a tree, with its offset reduced by `shift`.
fn found_in(alloc: Global, text: &[u8], shift: usize) -> Result<Option<Found>, AllocError> {
    match parse(alloc, text) {
        Ok(unit) => match fault_of(alloc, unit)? {
            Some(fault) => {
                let at = offset_in(text, fault.place()).unwrap_or(0);
                let at = at.saturating_sub(shift);
                Ok(Some(Found { fault, at }))
            }
            None => Ok(None),
        },
        Err(SyntaxFault::OutOfMemory) => Err(AllocError),
        Err(fault) => {
            drop(fault);
            Ok(None)
        }
    }
}

/// What the first walk finds: what is at the offset of the first fault, and the first strays, one more than can be reported.
#[derive(Drop)]
struct Begun<'a> {
    note: Option<Note<'a>>,
    strays: Vec<Stray<'a>>,
}

fn first_walk(alloc: Global, unit: &Unit, at: usize) -> Result<Begun<'_>, AllocError> {
    let mut walk = Walk::new(alloc, Vec::new(alloc), Some(at))?;
    walk.room = MOST_TOLD + 1;
    let walked = walk.externals(unit.externals());
    let begun = Begun {
        note: walk.note,
        strays: replace(&mut walk.strays, Vec::new(alloc)),
    };
    drop(walk);
    match walked {
        Ok(()) => Ok(begun),
        Err(error) => {
            drop(begun);
            Err(error)
        }
    }
}

// How many functions are defined at file scope.
fn definitions(declarations: &[Declaration<'_>]) -> usize {
    declarations
        .iter()
        .filter(|it| matches!(it.declared, Declared::Definition(_)))
        .count()
}

impl<'a> Search<'a> {
    // A search that reported the fault at the offset `at`, with the strays up to there, and has mended nothing.
    fn new(
        alloc: Global,
        unit: &'a Unit,
        strays: Vec<Stray<'a>>,
        at: usize,
    ) -> Result<Search<'a>, AllocError> {
        let declarations = declarations(alloc, unit.externals())?;
        let functions = definitions(declarations.as_slice());
        let shown = strays.iter().filter(|stray| stray.at <= at).count();
        Ok(Search {
            unit,
            declarations,
            copy: Mended::new(alloc, unit.text())?,
            twice: Vec::new(alloc),
            number: 0,
            at: 0,
            last: at,
            late: false,
            strays,
            shown,
            functions,
            told: Vec::new(alloc),
            end: None,
        })
    }

    fn is_twice(&self, word: &[u8]) -> bool {
        for twice in self.twice.as_slice() {
            if *twice == word {
                return true;
            }
        }
        false
    }

    // Whether a fault of the copy is also one of the text, and has not been reported.
    fn is_new(&self, fault: &TypeFault, at: usize, note: Option<Note<'a>>) -> bool {
        let word = word_at(self.unit.text(), at);
        match (fault, note) {
            (TypeFault::NoMain(_), _) => true,
            (TypeFault::Undefined(_), _) => !self.is_twice(word),
            _ if self.late || at <= self.last => false,
            (TypeFault::Unknown(_), _) | (_, None) => true,
            (_, Some(note)) => {
                !is_use(note.done) || (note.standing.is_some() && !self.is_twice(word))
            }
        }
    }

    // The offset up to which a name that breaks a rule at the offset `at` is renamed: the end of the part in which it denotes
    // nothing, or in which it denotes the later of two declarations.
    fn until(&self, fault: &TypeFault, at: usize, word: &[u8]) -> usize {
        let declared = self.declarations.as_slice();
        let end = self.unit.text().len();
        let here = at.saturating_add(1);
        match fault {
            TypeFault::Undefined(_) => end,
            TypeFault::Redeclared(_) if named_at(declared, at).is_some() => end,
            TypeFault::Unknown(_) => self.until_declared(at, word),
            _ => here,
        }
    }

    // The offset up to which a name that denotes nothing at the offset `at` is renamed.
    fn until_declared(&self, at: usize, word: &[u8]) -> usize {
        match first_of(self.declarations.as_slice(), word) {
            Some(declaration) => declaration.name.at.max(at.saturating_add(1)),
            None => self.unit.text().len(),
        }
    }

    // Mends a name or a constant expression that breaks a rule at an offset.
    fn mend_name(
        &mut self,
        alloc: Global,
        fault: &TypeFault,
        at: usize,
        done: Use,
    ) -> Result<(), AllocError> {
        let word = word_at(self.unit.text(), at);
        let until = self.until(fault, at, word);
        let tokens = self.copy.tokens(alloc)?;
        let mended = match (fault, done) {
            (_, Use::Constant) => {
                self.copy.mend_constant(tokens.as_slice(), at);
                Ok(())
            }
            (TypeFault::WrongCount(_), Use::Declared) => {
                self.copy.mend_length(tokens.as_slice(), word, at)
            }
            _ => self
                .copy
                .mend_name(tokens.as_slice(), word, done, at, until),
        };
        drop(tokens);
        mended
    }

    // Notes what must be known later about this fault.
    fn keep(&mut self, fault: &TypeFault, at: usize) -> Result<(), AllocError> {
        self.number = fault.number();
        self.at = at;
        self.late |= is_late(fault);
        let declared = self.declarations.as_slice();
        if matches!(fault, TypeFault::Redeclared(_)) && named_at(declared, at).is_some() {
            self.twice.push(word_at(self.unit.text(), at))?;
        }
        Ok(())
    }

    // Mends a fault of the copy at an offset.
    fn mend(
        &mut self,
        alloc: Global,
        fault: &TypeFault,
        at: usize,
        note: Option<Note<'a>>,
    ) -> Result<(), AllocError> {
        self.keep(fault, at)?;
        match fault {
            TypeFault::NoMain(_) => self.copy.add_main(),
            TypeFault::BadReturn(_) | TypeFault::BadBreak(_) => {
                let end = at.saturating_add(word_at(self.unit.text(), at).len());
                self.copy.blank(at, end);
                Ok(())
            }
            _ => {
                let done = match note {
                    Some(note) => note.done,
                    None => Use::Declared,
                };
                self.mend_name(alloc, fault, at, done)
            }
        }
    }

    // Mends a name that denotes nothing, unless the copy would then exceed a limit.
    fn mend_stray(&mut self, tokens: &[Token], stray: Stray<'a>) -> Result<(), AllocError> {
        let Stray { at, word, note } = stray;
        let is_called = matches!(note.done, Use::Called(_));
        if (is_called && self.functions >= MOST_FUNCTIONS) || !self.copy.has_room(word, note.done) {
            return Ok(());
        }
        self.functions += usize::from(is_called);
        let until = self.until_declared(at, word);
        self.copy.mend_name(tokens, word, note.done, at, until)
    }

    // Mends the names that denote nothing.
    fn mend_strays(&mut self, alloc: Global) -> Result<(), AllocError> {
        let tokens = self.copy.tokens(alloc)?;
        let mut mended = Ok(());
        for number in 0..self.strays.len() {
            if mended.is_ok()
                && let Some(stray) = self.strays.get(number).copied()
            {
                mended = self.mend_stray(tokens.as_slice(), stray);
            }
        }
        drop(tokens);
        mended
    }

    // Reports a fault of the text, if not too many were reported.
    fn tell(
        &mut self,
        alloc: Global,
        fault: &TypeFault,
        at: usize,
        note: Option<Note<'a>>,
    ) -> Result<(), AllocError> {
        self.last = at;
        // The first error of all is reported by another call.
        if self.told.len() + 1 >= MOST_TOLD {
            self.end = Some(NOT_SHOWN);
            return Ok(());
        }
        let told = told_of(
            alloc,
            self.unit,
            self.declarations.as_slice(),
            note,
            fault,
            at,
        )?;
        self.told.push(told)?;
        Ok(())
    }

    // Reports the names up to an offset that denote nothing and were not reported yet.
    fn tell_strays(&mut self, alloc: Global, until: usize) -> Result<(), AllocError> {
        for number in self.shown..self.strays.len() {
            let Some(Stray { at, note, .. }) = self.strays.get(number).copied() else {
                return Ok(());
            };
            if at > until {
                return Ok(());
            }
            self.shown = number + 1;
            self.tell(alloc, &UNKNOWN, at, Some(note))?;
        }
        Ok(())
    }

    // Ends the search at a limit that is exceeded: what comes after it is not reported.
    fn end_at(&mut self, alloc: Global, at: usize) -> Result<bool, AllocError> {
        self.tell_strays(alloc, at)?;
        self.shown = self.strays.len();
        Ok(false)
    }

    // Takes one turn for a fault of the copy at an offset: reports the names that come before it and denote nothing, and the
    // fault, if it is new; and mends it. Returns false if the search ends: the fault is the one that was mended last or a limit,
    // or too many errors were found.
    fn turn(&mut self, alloc: Global, fault: &TypeFault, at: usize) -> Result<bool, AllocError> {
        if at == self.at && fault.number() == self.number {
            return Ok(false);
        }
        if matches!(fault, TypeFault::TooMany(_)) {
            return self.end_at(alloc, at);
        }
        let note = noted(alloc, self.unit, at)?;
        let until = if is_late(fault) { usize::MAX } else { at };
        self.tell_strays(alloc, until)?;
        if self.is_new(fault, at, note) {
            self.tell(alloc, fault, at, note)?;
        }
        if self.end.is_some() {
            return Ok(false);
        }
        self.mend(alloc, fault, at, note)?;
        Ok(true)
    }

    // The next fault of the copy.
    fn next(&self, alloc: Global) -> Result<Option<Found>, AllocError> {
        let joined = self.copy.joined(alloc)?;
        let found = found_in(alloc, joined.as_slice(), self.copy.shift());
        drop(joined);
        found
    }

    // How many turns the search may take.
    fn turns(&self) -> usize {
        let length = self.unit.text().len().max(1);
        (MOST_CHECKED / length).clamp(1, MOST_TOLD)
    }

    // Reports the errors after the one that was mended last.
    fn go_on(&mut self, alloc: Global) -> Result<(), AllocError> {
        for _ in 0..self.turns() {
            let Some(Found { fault, at }) = self.next(alloc)? else {
                return Ok(());
            };
            let turned = self.turn(alloc, &fault, at);
            drop(fault);
            if !turned? {
                return Ok(());
            }
        }
        self.end = Some(NOT_SOUGHT);
        Ok(())
    }

    // Reports that errors may be left, if they may be.
    fn tell_end(&mut self, alloc: Global) -> Result<(), AllocError> {
        if let Some(end) = self.end {
            let message = words(alloc, end)?;
            let (at, related) = (None, None);
            self.told.push(Diagnostic {
                at,
                message,
                related,
            })?;
        }
        Ok(())
    }

    // Mends the first fault, unless it is a name that denotes nothing: those are mended together.
    fn mend_first(
        &mut self,
        alloc: Global,
        first: &TypeFault,
        at: usize,
        note: Option<Note<'a>>,
    ) -> Result<(), AllocError> {
        if self.shown > 0 {
            self.keep(first, at)?;
        } else {
            self.mend(alloc, first, at, note)?;
        }
        self.mend_strays(alloc)
    }

    // Reports the errors after the first one.
    fn run(
        &mut self,
        alloc: Global,
        first: &TypeFault,
        at: usize,
        note: Option<Note<'a>>,
    ) -> Result<(), AllocError> {
        self.mend_first(alloc, first, at, note)?;
        self.go_on(alloc)?;
        self.tell_strays(alloc, usize::MAX)?;
        self.tell_end(alloc)
    }
}

// The reports of a unit's errors after the first one, which is at an offset.
fn of_unit(
    alloc: Global,
    unit: &Unit,
    first: &TypeFault,
    at: usize,
) -> Result<Vec<Diagnostic>, AllocError> {
    let Begun { note, strays } = first_walk(alloc, unit, at)?;
    let mut search = Search::new(alloc, unit, strays, at)?;
    let found = search.run(alloc, first, at, note);
    let told = replace(&mut search.told, Vec::new(alloc));
    drop(search);
    match found {
        Ok(()) => Ok(told),
        Err(error) => {
            drop(told);
            Err(error)
        }
    }
}

// The reports of a unit's errors after the first one: none if that one has no place or is a limit.
fn after_first(
    alloc: Global,
    unit: &Unit,
    first: &TypeFault,
) -> Result<Vec<Diagnostic>, AllocError> {
    match (first, offset_in(unit.text(), first.place())) {
        (TypeFault::TooMany(_), _) | (_, None) => Ok(Vec::new(alloc)),
        (_, Some(at)) => of_unit(alloc, unit, first, at),
    }
}

/// Makes diagnostics for the errors of scope and type after the first one, which is the fault that `check` returned for the
/// text's tree. There are at most 19, in the order of their places, with 19 (NoMain) and 20 (Undefined) last, and a note if
/// there are more errors, or may be. A limit that is exceeded (21) is reported only if it comes first, and no error after it is
/// reported. A text without a tree has no such errors.
///
/// Names that are not declared are all found by one walk. For the others at most 20 versions of the text are checked, and at most
/// as many as have 131,072 bytes together (but one at least). Fails with `AllocError` if memory runs out.
pub fn further_of_typing(
    alloc: Global,
    text: &[u8],
    first: &TypeFault,
) -> Result<Vec<Diagnostic>, AllocError> {
    match parse(alloc, text) {
        Ok(unit) => {
            let told = after_first(alloc, &unit, first);
            drop(unit);
            told
        }
        Err(SyntaxFault::OutOfMemory) => Err(AllocError),
        Err(fault) => {
            drop(fault);
            Ok(Vec::new(alloc))
        }
    }
}
