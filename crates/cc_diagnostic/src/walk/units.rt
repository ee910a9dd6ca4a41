// The walk over external declarations.

use super::{Use, Walk};
use crate::code::{Function, Instruction};
use crate::ends::never_left;
use crate::names::{Lead, Standing};
use crate::warning::Warning;
use cc_layout::Extent;
use cc_scope::Entity;
use cc_syntax::{
    ConstantExpression, External, Identifier, Object, Parameter, Signature, Statement,
};
use cc_tokens::Scalar;
use cc_types::array_length;
use cc_words::Width;
use std::alloc::AllocError;

fn is_main(name: &Identifier) -> bool {
    name.bytes.as_slice() == b"main".as_slice()
}

impl<'a> Walk<'a> {
    // Declares a function if its name is new in this scope. Returns its number if the name denotes a function.
    fn declare_function(&mut self, signature: &'a Signature) -> Option<usize> {
        let name = &signature.name;
        let standing = self.names.find_inner(name.bytes.as_slice());
        self.note(name.at, Use::Declared, standing);
        if let Some(standing) = standing {
            return match standing.lead {
                Lead::Function(number) => Some(number),
                Lead::Local(_) | Lead::Words(_) | Lead::Builtin => None,
            };
        }
        let number = self.functions.len();
        let function = Function {
            name,
            start: usize::MAX,
            parameters: 0,
            variables: 0,
        };
        self.failed |= self.functions.push(function).is_err();
        let standing = Standing {
            entity: Entity::Function(signature),
            at: Some(name.at),
            lead: Lead::Function(number),
        };
        self.declare(name, standing);
        Some(number)
    }

    fn parameters(&mut self, trees: &'a [Parameter]) {
        for tree in trees {
            match &tree.name {
                Some(name) => {
                    self.variable(name, tree.scalar);
                }
                None => self.variables = self.variables.saturating_add(1),
            }
        }
    }

    // Writes a function's instructions.
    fn body(&mut self, signature: &'a Signature, statements: &'a [Statement]) -> Function<'a> {
        let name = &signature.name;
        let parameters = signature.parameters.as_slice();
        self.taken = self
            .operators
            .as_slice()
            .iter()
            .filter(|at| **at < name.at)
            .count();
        let start = self.code.len();
        self.parameters(parameters);
        self.statements(statements);
        if signature.result.is_some() && !is_main(name) && !never_left(statements) {
            self.warn(Warning::NoReturn(name));
        }
        self.emit(Instruction::Constant(0));
        self.emit(Instruction::Return);
        Function {
            name,
            start,
            parameters: parameters.len(),
            variables: self.variables.saturating_sub(parameters.len()),
        }
    }

    fn definition(&mut self, signature: &'a Signature, statements: &'a [Statement]) {
        let number = self.declare_function(signature);
        let around = self.names.open();
        self.inside = Some(signature);
        self.variables = 0;
        let function = self.body(signature, statements);
        self.inside = None;
        self.names.close(around);
        if let Some(place) = self.functions.get_mut(number.unwrap_or(usize::MAX)) {
            *place = function;
        }
    }

    fn declaration(&mut self, signature: &'a Signature) {
        self.declare_function(signature);
        let around = self.names.open();
        self.variables = 0;
        self.parameters(signature.parameters.as_slice());
        self.names.close(around);
    }

    fn constant(&mut self, tree: &ConstantExpression) {
        self.note(tree.at, Use::Constant, None);
    }

    // Declares an object, whose elements get the next free words at file scope.
    fn declare_object(
        &mut self,
        name: &'a Identifier,
        entity: Entity<'a>,
        length: usize,
        width: Width,
    ) {
        let standing = self.names.find_inner(name.bytes.as_slice());
        self.note(name.at, Use::Declared, standing);
        let offset = self.words;
        self.words = offset.saturating_add(length);
        let standing = Standing {
            entity,
            at: Some(name.at),
            lead: Lead::Words(Extent {
                offset,
                length,
                width,
            }),
        };
        self.declare(name, standing);
    }

    fn array(
        &mut self,
        scalar: Scalar,
        width: Width,
        name: &'a Identifier,
        given: &'a Option<ConstantExpression>,
        values: &'a [ConstantExpression],
    ) {
        let length = array_length(given, values).unwrap_or(0);
        self.declare_object(name, Entity::Elements(scalar), length, width);
        if let Some(given) = given {
            self.constant(given);
        }
        for value in values {
            self.constant(value);
        }
    }

    fn object(&mut self, scalar: Scalar, tree: &'a Object) {
        match tree {
            Object::Single(name, initial) => {
                self.declare_object(name, Entity::Variable(scalar), 1, Width::Word);
                if let Some(initial) = initial {
                    self.constant(initial);
                }
            }
            Object::Array(name, given, values) => {
                self.array(scalar, Width::Word, name, given, values.as_slice());
            }
            Object::Bytes(name, given, values) => {
                self.array(Scalar::Int, Width::Byte, name, given, values.as_slice());
            }
        }
    }

    fn external(&mut self, tree: &'a External) {
        match tree {
            External::Declaration(signature) => self.declaration(signature),
            External::Definition(signature, body) => self.definition(signature, body.as_slice()),
            External::Objects(scalar, objects) => {
                for object in objects.as_slice() {
                    self.object(*scalar, object);
                }
            }
        }
    }

    /// Visits all external declarations of a unit. Fails with `AllocError` if memory was refused on the way.
    pub fn externals(&mut self, trees: &'a [External]) -> Result<(), AllocError> {
        for tree in trees {
            self.external(tree);
        }
        if self.failed { Err(AllocError) } else { Ok(()) }
    }
}
