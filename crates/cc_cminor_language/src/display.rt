// The text of Cminor: a line for each statement, indented by two more spaces inside an `if`, a `loop` or a `block`. Variables are
// `v0`, `v1` and so on, objects `o0`, functions `f0`; words are unsigned decimals; `byte` precedes an element that is a byte. A
// sequence is written as the lines of its statements.

use super::code::{Expression, Statement};
use super::pair::CminorPair;
use std::fmt;

impl fmt::Display for Expression {
    fn fmt<W: fmt::Write>(&self, f: &mut fmt::Formatter<W>) -> fmt::Result {
        match self {
            Expression::Constant(word) => write!(f, "{word}"),
            Expression::Local(variable) => write!(f, "v{variable}"),
            Expression::Unary(operator, operand) => {
                let name = operator.name();
                write!(f, "{name}({operand})")
            }
            Expression::Binary(operator, left, right) => {
                let name = operator.name();
                write!(f, "{name}({left}, {right})")
            }
            Expression::Load(width, object, index) => {
                let mark = width.mark();
                write!(f, "{mark}o{object}[{index}]")
            }
        }
    }
}

fn write_result<W: fmt::Write>(f: &mut fmt::Formatter<W>, to: Option<usize>) -> fmt::Result {
    match to {
        Some(variable) => write!(f, "v{variable} = "),
        None => Ok(()),
    }
}

fn write_arguments<W: fmt::Write>(
    f: &mut fmt::Formatter<W>,
    arguments: &[Expression],
) -> fmt::Result {
    let mut first = true;
    for argument in arguments {
        if !first {
            write!(f, ", ")?;
        }
        write!(f, "{argument}")?;
        first = false;
    }
    Ok(())
}

fn write_indent<W: fmt::Write>(f: &mut fmt::Formatter<W>, depth: usize) -> fmt::Result {
    for _ in 0..depth {
        write!(f, "  ")?;
    }
    Ok(())
}

// Writes the lines of a statement at this depth.
fn write_statement<W: fmt::Write>(
    f: &mut fmt::Formatter<W>,
    depth: usize,
    statement: &Statement,
) -> fmt::Result {
    if let Statement::Sequence(all) = statement {
        for statement in all {
            write_statement(f, depth, statement)?;
        }
        return Ok(());
    }
    let inner = depth.saturating_add(1);
    write_indent(f, depth)?;
    match statement {
        Statement::Sequence(_) => Ok(()),
        Statement::Skip => writeln!(f, "skip"),
        Statement::Set(variable, value) => writeln!(f, "v{variable} = {value}"),
        Statement::Store(width, object, index, value) => {
            let mark = width.mark();
            writeln!(f, "{mark}o{object}[{index}] = {value}")
        }
        Statement::Call(to, function, arguments) => {
            write_result(f, *to)?;
            write!(f, "call f{function}(")?;
            write_arguments(f, arguments.as_slice())?;
            writeln!(f, ")")
        }
        Statement::Read(to) => {
            write_result(f, *to)?;
            writeln!(f, "read")
        }
        Statement::Write(value) => writeln!(f, "write {value}"),
        Statement::If(test, nonzero, otherwise) => {
            writeln!(f, "if {test}")?;
            write_statement(f, inner, nonzero)?;
            write_indent(f, depth)?;
            writeln!(f, "else")?;
            write_statement(f, inner, otherwise)
        }
        Statement::Loop(body) => {
            writeln!(f, "loop")?;
            write_statement(f, inner, body)
        }
        Statement::Block(body) => {
            writeln!(f, "block")?;
            write_statement(f, inner, body)
        }
        Statement::Exit(blocks) => writeln!(f, "exit {blocks}"),
        Statement::Return(value) => writeln!(f, "return {value}"),
    }
}

impl fmt::Display for Statement {
    fn fmt<W: fmt::Write>(&self, f: &mut fmt::Formatter<W>) -> fmt::Result {
        write_statement(f, 0, self)
    }
}

impl fmt::Display for CminorPair {
    fn fmt<W: fmt::Write>(&self, f: &mut fmt::Formatter<W>) -> fmt::Result {
        let function = self.function();
        writeln!(f, "f{function}")?;
        write_statement(f, 1, self.code())
    }
}
