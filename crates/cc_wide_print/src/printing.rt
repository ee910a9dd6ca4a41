// The walk over the marked tree, which says what each token belongs to, and its tokens.

use crate::fault::PrintFault;
use crate::labels::{
    FEW_CASES, FEW_SECTIONS, Label, Mark, Range, count_in, default_section, has_word,
    is_declaration, is_switch, mark_of, middle, nesting_of_all, section_count,
};
use crate::printed::Printed;
use crate::writer::{Writer, between};
use cc_ast::{Expression, External, Statement};
use cc_tokens::{Place, Token, TokenKind, place_at, tokens};
use cc_wide_text::{WideText, constant_of};
use std::alloc::{AllocError, Global};

/// The column in which the wide text's lines begin, if there is room for that.
const WIDTH: usize = 48;

/// What `continue` does: there is no loop; or it goes to the loop; or it has to leave switches first, the innermost with this
/// number.
#[derive(Clone, Copy)]
enum Around {
    Outside,
    Loop,
    Caught(usize),
}

/// What has been printed, and which token comes next.
#[derive(Drop)]
struct Printer<'a> {
    alloc: Global,
    wide: &'a [u8],
    marked: &'a [u8],
    tokens: &'a [Token],
    origins: &'a [usize],
    next: usize,
    writer: Writer<'a>,
}

// The name of the local of a switch inside `depth` others.
fn hidden(alloc: Global, depth: usize) -> Result<Vec<u8>, AllocError> {
    let mut name = Vec::from_slice(alloc, b"__s")?;
    for _ in 0..depth {
        name.push(b's')?;
    }
    Ok(name)
}

fn within(around: Around, depth: usize) -> Around {
    match around {
        Around::Outside => Around::Outside,
        Around::Loop | Around::Caught(_) => Around::Caught(depth),
    }
}

fn is_punctuator(kind: TokenKind, wanted: &[u8]) -> bool {
    match kind {
        TokenKind::Punctuator(found) => found.bytes() == wanted,
        _ => false,
    }
}

impl Printer<'_> {
    // ---- tokens

    // The offset in the wide text that the next token comes from.
    fn here(&self) -> usize {
        if self.next < self.origins.len() {
            self.origins[self.next]
        } else {
            self.wide.len()
        }
    }

    fn place(&self) -> Place {
        place_at(self.wide, self.here().min(self.wide.len()))
    }

    fn skip(&mut self, count: usize) {
        self.next = self.next.saturating_add(count);
    }

    // Writes bytes that come from where the next token comes from.
    fn put(&mut self, bytes: &[u8]) -> Result<(), PrintFault> {
        let at = self.here();
        self.writer.put(at, bytes)
    }

    fn copy(&mut self) -> Result<(), PrintFault> {
        if self.next < self.tokens.len() {
            let token = self.tokens[self.next];
            let marked = self.marked;
            self.put(between(marked, token.from, token.to))?;
        }
        self.skip(1);
        Ok(())
    }

    // Copies the tokens up to this punctuator, and this.
    fn copy_through(&mut self, last: &[u8]) -> Result<(), PrintFault> {
        let tokens = self.tokens;
        for i in self.next..tokens.len() {
            self.copy()?;
            if is_punctuator(tokens[i].kind, last) {
                return Ok(());
            }
        }
        Ok(())
    }

    // How many tokens there are from the next one, a parenthesis, to the one that closes it.
    fn parenthesised(&self) -> usize {
        let mut open: usize = 0;
        for i in self.next..self.tokens.len() {
            if is_punctuator(self.tokens[i].kind, b"(") {
                open = open.saturating_add(1);
            }
            if is_punctuator(self.tokens[i].kind, b")") {
                open = open.saturating_sub(1);
            }
            if open == 0 {
                return i.saturating_sub(self.next).saturating_add(1);
            }
        }
        0
    }

    fn copy_all(&mut self, count: usize) -> Result<(), PrintFault> {
        for _ in 0..count {
            self.copy()?;
        }
        Ok(())
    }

    fn copy_parenthesised(&mut self) -> Result<(), PrintFault> {
        let count = self.parenthesised();
        self.copy_all(count)
    }

    fn put_hidden(&mut self, depth: usize) -> Result<(), PrintFault> {
        let name = hidden(self.alloc, depth)?;
        self.put(name.as_slice())
    }

    // Writes a number of type unsigned.
    fn put_number(&mut self, number: usize) -> Result<(), PrintFault> {
        let digits = format!(in self.alloc; "{number}u")?;
        self.put(digits.as_bytes())
    }

    // ---- switches

    // Writes `x=0u;break;` in braces.
    fn put_leaving(&mut self, depth: usize) -> Result<(), PrintFault> {
        self.put(b"{")?;
        self.put_hidden(depth)?;
        self.put(b"=0u;break;}")
    }

    fn continues(&mut self, around: Around) -> Result<(), PrintFault> {
        match around {
            Around::Outside => Err(PrintFault::BadBreak(self.place())),
            Around::Loop => self.copy_through(b";"),
            Around::Caught(depth) => {
                self.put_leaving(depth)?;
                self.skip(2);
                Ok(())
            }
        }
    }

    // The place in the wide text that an offset of the marked text comes from.
    fn place_of(&self, at: usize) -> Place {
        let mut origin = self.wide.len();
        for i in 0..self.tokens.len().min(self.origins.len()) {
            if at < self.tokens[i].to {
                origin = self.origins[i];
                break;
            }
        }
        place_at(self.wide, origin.min(self.wide.len()))
    }

    // The offset of the first semicolon from an offset of the marked text on.
    fn semicolon(&self, at: usize) -> usize {
        for i in at..self.marked.len() {
            if self.marked[i] == b';' {
                return i;
            }
        }
        self.marked.len()
    }

    // The word of the label whose mark begins at an offset of the marked text: that of its constant, converted to int.
    fn word(&self, at: usize) -> Result<u32, PrintFault> {
        let from = at.saturating_add(b"__case = ".len());
        let mut value = Vec::from_slice(self.alloc, b"( int ) ( ")?;
        value.extend_from_slice(between(self.marked, from, self.semicolon(at)))?;
        value.extend_from_slice(b") ")?;
        match constant_of(self.alloc, value.as_slice())? {
            Some(word) => Ok(word),
            None => Err(PrintFault::WrongKind(self.place_of(at))),
        }
    }

    // The label of a section.
    fn label(&self, mark: Mark, section: usize) -> Result<Label, PrintFault> {
        let word = match mark {
            Mark::Case(at) => Some(self.word(at)?),
            Mark::Default(_) => None,
        };
        Ok(Label { word, section })
    }

    // The labels of a switch's block.
    fn labels(&self, all: &[Statement]) -> Result<Vec<Label>, PrintFault> {
        let mut labels = Vec::new(self.alloc);
        let mut section: usize = 0;
        let mut after_label = false;
        for tree in all {
            let Some(mark) = mark_of(tree) else {
                after_label = false;
                continue;
            };
            if !after_label {
                section = section.saturating_add(1);
            }
            after_label = true;
            let label = self.label(mark, section)?;
            if has_word(labels.as_slice(), label.word) {
                return Err(PrintFault::Redeclared(self.place_of(mark.at())));
            }
            if labels.push(label).is_err() {
                return Err(PrintFault::OutOfMemory);
            }
        }
        Ok(labels)
    }

    // Writes `x==1u?1u:x==7u?2u:3u`, with the cases in a range.
    fn put_chain(
        &mut self,
        depth: usize,
        range: Range,
        labels: &[Label],
        default: usize,
    ) -> Result<(), PrintFault> {
        for label in labels {
            if let Some(word) = label.word {
                if range.has(word) {
                    self.put_hidden(depth)?;
                    self.put(b"==")?;
                    self.put_number(word as usize)?;
                    self.put(b"?")?;
                    self.put_number(label.section)?;
                    self.put(b":")?;
                }
            }
        }
        self.put_number(default)
    }

    // Writes the choice of a section among the cases in a range: `x=x==1u?1u:x==7u?2u:3u;`, or two of them, `if(x<9u)..else ..`.
    fn put_choice(
        &mut self,
        levels: usize,
        depth: usize,
        range: Range,
        labels: &[Label],
        default: usize,
    ) -> Result<(), PrintFault> {
        let count = count_in(range, labels);
        if levels == 0 || count <= FEW_CASES {
            self.put_hidden(depth)?;
            self.put(b"=")?;
            self.put_chain(depth, range, labels, default)?;
            return self.put(b";");
        }
        let middle = middle(range, count / 2, labels);
        self.put(b"if(")?;
        self.put_hidden(depth)?;
        self.put(b"<")?;
        self.put_number(middle as usize)?;
        self.put(b")")?;
        self.put_choice(levels - 1, depth, range.below(middle), labels, default)?;
        self.put(b"else")?;
        self.put_choice(levels - 1, depth, range.from(middle), labels, default)
    }

    // Writes the choice of a section among all cases of a block.
    fn choice(&mut self, depth: usize, all: &[Statement]) -> Result<(), PrintFault> {
        let labels = self.labels(all)?;
        let default = default_section(labels.as_slice(), section_count(all));
        let levels = count_in(Range::ALL, labels.as_slice());
        self.put_choice(levels, depth, Range::ALL, labels.as_slice(), default)
    }

    // Ends the group that ends before a section, and begins those that begin with it, if a switch has so many sections.
    fn put_groups(&mut self, depth: usize, count: usize, section: usize) -> Result<(), PrintFault> {
        let mut before: usize = 0;
        let mut left = count;
        for _ in 0..count {
            if left <= FEW_SECTIONS {
                break;
            }
            let half = left / 2;
            let last = before.saturating_add(half);
            if section <= last {
                if section == before.saturating_add(1) {
                    self.put_section(depth, last)?;
                }
                left = half;
            } else {
                if section == last.saturating_add(1) {
                    self.writer.append(b"}")?;
                }
                before = last;
                left = left.saturating_sub(half);
            }
        }
        Ok(())
    }

    // Begins a section, or a group that ends with it: `if(x<=1u){`.
    fn put_section(&mut self, depth: usize, section: usize) -> Result<(), PrintFault> {
        self.put(b"if(")?;
        self.put_hidden(depth)?;
        self.put(b"<=")?;
        self.put_number(section)?;
        self.put(b"){")
    }

    // Writes what follows a switch: the `continue` that it has been left by.
    fn put_after(&mut self, around: Around, depth: usize) -> Result<(), PrintFault> {
        if let Around::Outside = around {
            return Ok(());
        }
        self.put(b"if(")?;
        self.put_hidden(depth)?;
        self.put(b"==0u)")?;
        match around {
            Around::Caught(outer) => self.put_leaving(outer),
            _ => self.put(b"continue;"),
        }
    }

    // Writes the sections of a switch's block.
    #[cycle(statements)]
    fn sections(
        &mut self,
        all: &[Statement],
        around: Around,
        depth: usize,
    ) -> Result<(), PrintFault> {
        let count = section_count(all);
        let mut section: usize = 0;
        let mut after_label = false;
        for tree in all {
            if mark_of(tree).is_some() {
                if !after_label {
                    if 0 < section {
                        self.writer.append(b"}")?;
                    }
                    section = section.saturating_add(1);
                    self.put_groups(depth, count, section)?;
                    self.put_section(depth, section)?;
                }
                after_label = true;
                self.skip_through_semicolon();
                continue;
            }
            if section == 0 || is_declaration(tree) {
                return Err(PrintFault::Unexpected(self.place()));
            }
            after_label = false;
            self.statement(tree, around, depth.saturating_add(1))?;
        }
        if after_label {
            return Err(PrintFault::Unexpected(self.place()));
        }
        if 0 < section {
            self.writer.append(b"}")?;
        }
        Ok(())
    }

    fn skip_through_semicolon(&mut self) {
        let tokens = self.tokens;
        for i in self.next..tokens.len() {
            self.skip(1);
            if is_punctuator(tokens[i].kind, b";") {
                return;
            }
        }
    }

    // Writes a switch, which the marked text has as `while ( __switch ) while ( e ) { .. }`.
    #[cycle(statements)]
    fn switch(&mut self, body: &Statement, around: Around, depth: usize) -> Result<(), PrintFault> {
        let Statement::While(_, block) = body else {
            return Err(PrintFault::Unexpected(self.place()));
        };
        let Statement::Block(all) = &**block else {
            return Err(PrintFault::Unexpected(self.place()));
        };
        self.put(b"{")?;
        self.put_hidden(depth)?;
        self.put(b"=")?;
        self.skip(5);
        let count = self.parenthesised();
        self.skip(1);
        self.copy_all(count.saturating_sub(2))?;
        self.put(b";")?;
        self.choice(depth, all.as_slice())?;
        self.put(b"do{")?;
        self.skip(2);
        self.sections(all.as_slice(), within(around, depth), depth)?;
        self.put(b"}while(0);")?;
        self.put_after(around, depth)?;
        self.put(b"}")?;
        self.skip(1);
        Ok(())
    }

    // ---- statements

    #[cycle(statements)]
    fn statement(
        &mut self,
        tree: &Statement,
        around: Around,
        depth: usize,
    ) -> Result<(), PrintFault> {
        match tree {
            Statement::Block(all) => {
                self.copy()?;
                self.statements(all.as_slice(), around, depth)?;
                self.copy()
            }
            Statement::Perform(_) if mark_of(tree).is_some() => {
                Err(PrintFault::Unexpected(self.place()))
            }
            Statement::Local(_, _)
            | Statement::Perform(_)
            | Statement::Return(_, _)
            | Statement::Break(_) => self.copy_through(b";"),
            Statement::Continue(_) => self.continues(around),
            Statement::If(_, held) => {
                self.copy()?;
                self.copy_parenthesised()?;
                self.statement(held, around, depth)
            }
            Statement::IfElse(_, held, other) => {
                self.copy()?;
                self.copy_parenthesised()?;
                self.statement(held, around, depth)?;
                self.copy()?;
                self.statement(other, around, depth)
            }
            Statement::While(test, body) if is_switch(test) => self.switch(body, around, depth),
            Statement::DoWhile(body, _) => {
                self.copy()?;
                self.statement(body, Around::Loop, depth)?;
                self.copy_through(b";")
            }
            Statement::While(_, body) | Statement::For(_, _, _, body) => {
                self.copy()?;
                self.copy_parenthesised()?;
                self.statement(body, Around::Loop, depth)
            }
        }
    }

    #[cycle(statements)]
    fn statements(
        &mut self,
        all: &[Statement],
        around: Around,
        depth: usize,
    ) -> Result<(), PrintFault> {
        for tree in all {
            self.statement(tree, around, depth)?;
        }
        Ok(())
    }

    // ---- a unit

    // Declares the locals of switches that are up to this many deep.
    fn put_locals(&mut self, nesting: usize) -> Result<(), PrintFault> {
        if nesting == 0 {
            return Ok(());
        }
        self.writer.append(b"unsigned ")?;
        for i in 1..nesting {
            let name = hidden(self.alloc, nesting.saturating_sub(i))?;
            self.writer.append(name.as_slice())?;
            self.writer.append(b",")?;
        }
        self.writer.append(b"__s;")
    }

    fn external(&mut self, tree: &External) -> Result<(), PrintFault> {
        match tree {
            External::Declaration(_) | External::Objects(_, _) => self.copy_through(b";"),
            External::Definition(_, body) => {
                self.copy_through(b"{")?;
                self.put_locals(nesting_of_all(body.as_slice()))?;
                self.statements(body.as_slice(), Around::Outside, 0)?;
                self.copy()
            }
        }
    }

    fn unit(&mut self, all: &[External]) -> Result<(), PrintFault> {
        for tree in all {
            self.external(tree)?;
        }
        Ok(())
    }
}

// Prints with the wide lines from a column on.
fn print_with(
    alloc: Global,
    wide: &[u8],
    read: &WideText,
    carried: bool,
    width: usize,
) -> Result<Printed, PrintFault> {
    let marked = read.unit.text();
    let Ok(found) = tokens(alloc, marked) else {
        return Err(PrintFault::OutOfMemory);
    };
    let mut printer = Printer {
        alloc,
        wide,
        marked,
        tokens: found.as_slice(),
        origins: read.origins.as_slice(),
        next: 0,
        writer: Writer::new(alloc, wide, carried, width),
    };
    printer.unit(read.unit.externals())?;
    let Printer { writer, .. } = printer;
    writer.finish()
}

/// Prints a text of wide C, as it has been read, as a text of the profile: at most 65,536 bytes.
///
/// Each line of the wide text is a line of the printed text. If it is carried, it follows there after the first `//|`.
///
/// Refuses with 7 (SourceTooLarge) if the printed text would be longer, and with 40 (OutOfMemory) if memory runs out; and, at the
/// first place, with 5, 12, 13 or 18 what is no program although it has a marked tree. Whether the printed text does what the wide
/// text does is decided by whoever calls.
pub fn print(
    alloc: Global,
    wide: &[u8],
    read: &WideText,
    carried: bool,
) -> Result<Printed, PrintFault> {
    match print_with(alloc, wide, read, carried, WIDTH) {
        Err(PrintFault::SourceTooLarge) if carried => print_with(alloc, wide, read, carried, 0),
        other => other,
    }
}
