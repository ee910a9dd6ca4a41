// The text of RTL: the parameters and the entry, and a line for each node.

use crate::node::Node;
use crate::rtl::Rtl;
use std::fmt;

impl fmt::Display for Rtl {
    fn fmt<W: fmt::Write>(&self, f: &mut fmt::Formatter<W>) -> fmt::Result {
        let parameters = self.parameters();
        let entry = self.entry();
        writeln!(f, "parameters {parameters}, entry {entry}")?;
        for label in 0..self.len() {
            let node = self.node(label);
            writeln!(f, "{label}: {node}")?;
        }
        Ok(())
    }
}

impl fmt::Display for Node {
    fn fmt<W: fmt::Write>(&self, f: &mut fmt::Formatter<W>) -> fmt::Result {
        match self {
            Node::Nop { next } => write!(f, "nop -> {next}"),
            Node::Const { to, word, next } => write!(f, "r{to} = {word} -> {next}"),
            Node::Move { to, from, next } => write!(f, "r{to} = r{from} -> {next}"),
            Node::Unary {
                operator,
                to,
                from,
                next,
            } => {
                let operator = operator.name();
                write!(f, "r{to} = {operator} r{from} -> {next}")
            }
            Node::Binary {
                operator,
                to,
                left,
                right,
                next,
            } => {
                let operator = operator.name();
                write!(f, "r{to} = {operator} r{left}, r{right} -> {next}")
            }
            Node::Load {
                width,
                object,
                to,
                index,
                next,
            } => {
                let mark = width.mark();
                write!(f, "r{to} = {mark}object{object}[r{index}] -> {next}")
            }
            Node::Store {
                width,
                object,
                index,
                from,
                next,
            } => {
                let mark = width.mark();
                write!(f, "{mark}object{object}[r{index}] = r{from} -> {next}")
            }
            Node::Call {
                function,
                arguments,
                to,
                next,
            } => {
                if let Some(to) = to {
                    write!(f, "r{to} = ")?;
                }
                write!(f, "call {function}")?;
                for argument in arguments.as_slice() {
                    write!(f, " r{argument}")?;
                }
                write!(f, " -> {next}")
            }
            Node::Read { to, next } => write!(f, "r{to} = read -> {next}"),
            Node::Write { from, next } => write!(f, "write r{from} -> {next}"),
            Node::Branch {
                from,
                if_nonzero,
                if_zero,
            } => write!(f, "branch r{from} -> {if_nonzero}, {if_zero}"),
            Node::Return { from } => write!(f, "return r{from}"),
        }
    }
}
