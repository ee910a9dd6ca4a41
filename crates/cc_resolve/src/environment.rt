// The environment of a statement: the names in scope with their types, the numbers of the locals in scope, and file scope.

ghost use Rattle.std.specs.Prelude.{◌≡◌, ◌≤◌, [], ◌∷◌, length, drop, None, Some, IfOk, OnOk};
ghost use Rattle.cc_ast.specs.Erase.{parameter_tree};
ghost use Rattle.cc_types.specs.Scope.{parameter_declared, with_declared, first_file_scope, found};
ghost use Rattle.cc_scope.specs.Entities.{entity_of};
ghost use Rattle.cc_scope.specs.Bindings.{closed, file_level};
ghost use Rattle.cc_types.specs.Types.{variable_type, element_type, result_type, or_int};
ghost use Rattle.cc_layout.specs.Environment.{inner, number_in, with_local, types_in};
ghost use Rattle.cc_layout.specs.Layout.{callee, extent_of, object_number};

use super::layout::Layout;
use cc_ast::{Parameter, Scalar};
use cc_layout::{Callee, Extent};
use cc_scope::{Bindings, Entity, Scope};
use std::alloc::{AllocError, Global};
use std::marker::Model;

const UNNAMED: &[u8] = b"";

/// The names in scope, the numbers of the locals among them, and what the names of file scope refer to.
#[derive(Drop)]
pub struct Environment<'a> {
    visible: Scope<'a>,
    locals: Bindings<'a>,
    layout: Layout<'a>,
}

impl<'a> Model for Environment<'a> {
    ghost use Rattle.cc_layout.specs.Environment as environment;
    ghost use Rattle.cc_resolve.specs.Numberings.{local_names};

    ghost Value = { environment.Environment };

    ghost view = { λ e. record { visible = e.visible; locals = local_names e.locals; layout = e.layout } };
}

impl<'a> Environment<'a> {
    /// Returns the environment at the start of a text: file scope with the builtins, and no locals. `AllocError` if memory runs
    /// out.
    pub fn new(alloc: Global, layout: Layout<'a>) -> Result<Environment<'a>, AllocError>
        ensures { IfOk result (λ v. v ≡ record { visible = file_level first_file_scope.bindings; locals = []; layout = layout.entry }) }
    {
        let visible = Scope::new(alloc)?;
        Ok(Environment {
            visible,
            locals: Bindings::new(alloc),
            layout,
        })
    }

    /// Declares a name in file scope if it is new; an earlier declaration stays as it is.
    pub(crate) fn declare_in_file(
        &mut self,
        name: &'a [u8],
        entity: Entity<'a>,
    ) -> Result<(), AllocError>
        requires { self.old.visible.inner ≡ [] }
        ensures { OnOk result (self.new ≡ record self.old { visible = file_level (with_declared name.now (entity_of entity.entry) (record { bindings = self.old.visible.outer; defined = [] })).bindings }) }
    {
        self.visible.declare_in_file(name, entity)?;
        Ok(())
    }

    /// Opens an inner scope, and returns how many names the scope around it has declared. The `close` that ends the inner scope
    /// takes that number.
    pub fn open(&mut self) -> usize
        ensures scope { self.new ≡ inner self.old }
        ensures around { result ≡ length self.old.visible.inner }
    {
        self.visible.open()
    }

    /// Closes the innermost scope and removes its names. The scope around it has declared `around` names. The locals keep their
    /// numbers.
    pub fn close(&mut self, around: usize)
        requires { around ≤ length self.old.visible.outer }
        ensures { self.new ≡ record self.old { visible = closed around self.old.visible } }
    {
        self.visible.close(around);
    }

    /// Declares a local, which gets the next number.
    pub(crate) fn declare(&mut self, scalar: Scalar, name: &'a [u8]) -> Result<(), AllocError>
        ensures { OnOk result (self.new ≡ with_local scalar name.now self.old) }
    {
        self.visible.declare(name, Entity::Variable(scalar))?;
        self.locals.push(name, Entity::Variable(scalar))?;
        Ok(())
    }

    /// Declares a parameter, which gets the next number whether it has a name or not.
    pub(crate) fn declare_parameter(&mut self, parameter: &'a Parameter) -> Result<(), AllocError>
        ensures { OnOk result (self.new ≡ record self.old {
          visible = parameter_declared parameter.now.scalar (parameter_tree parameter.now).name self.old.visible;
          locals = elim (parameter_tree parameter.now).name [ None ↦ [] | Some x ↦ x.text ] ∷ self.old.locals;
        }) }
    {
        match &parameter.name {
            Some(name) => self.declare(parameter.scalar, name.bytes.as_slice()),
            None => {
                self.locals
                    .push(UNNAMED, Entity::Variable(parameter.scalar))?;
                Ok(())
            }
        }
    }

    /// Removes the newest local, if the innermost scope has one.
    pub fn undeclare(&mut self)
        ensures { self.new ≡ record self.old { visible = record self.old.visible { inner = drop 1 self.old.visible.inner }; locals = drop 1 self.old.locals } }
    {
        self.visible.undeclare();
        self.locals.pop();
    }

    /// Removes all locals, once none of them is in scope.
    pub(crate) fn forget_locals(&mut self)
        ensures { self.new ≡ record self.old { locals = [] } }
    {
        while self.locals.len() > 0 {
            self.locals.pop();
        }
    }

    /// Frees the names. This function exists so that the crates above need not show how each part is dropped.
    pub fn release(self) {}

    /// How many locals are in scope.
    pub fn len(&self) -> usize
        ensures { result ≡ length self.now.locals }
    {
        self.locals.len()
    }

    /// The type of a variable's value. A name that is not a variable counts as a variable of type `int`.
    pub fn variable_type(&self, name: &[u8]) -> Scalar
        ensures { result ≡ variable_type (found (types_in self.now) name.now) }
    {
        match self.visible.find(name) {
            Some(Entity::Variable(scalar)) => scalar,
            _ => Scalar::Int,
        }
    }

    /// The type of an array's elements. A name that is not an array counts as an array of `int`.
    pub fn element_type(&self, name: &[u8]) -> Scalar
        ensures { result ≡ element_type (found (types_in self.now) name.now) }
    {
        match self.visible.find(name) {
            Some(Entity::Elements(scalar)) => scalar,
            _ => Scalar::Int,
        }
    }

    /// The type of a call's value: `int` for a void function, or for a name that is not a function.
    pub fn call_type(&self, name: &[u8]) -> Scalar
        ensures { result ≡ or_int (result_type (found (types_in self.now) name.now)) }
    {
        match self.visible.find(name) {
            Some(Entity::Function(signature)) => match signature.result {
                Some(scalar) => scalar,
                None => Scalar::Int,
            },
            _ => Scalar::Int,
        }
    }

    /// The number of the local that a name refers to, or `None` if the name does not refer to a local. The number is how many
    /// locals were in scope when the local was declared.
    pub fn local(&self, name: &[u8]) -> Option<usize>
        ensures { result ≡ number_in self.now.locals name.now }
    {
        match self.locals.find(name) {
            Some(newest) => Some(newest.number),
            None => None,
        }
    }

    /// Where the words of the named object are. If no object has the name, the extent has no words, at offset 0. A local with
    /// the same name does not hide the object.
    pub fn object(&self, name: &[u8]) -> Extent
        ensures { result ≡ extent_of self.now.layout.objects name.now }
    {
        self.layout.extent(name)
    }

    /// The number of the named object in the order of declarations, or `None` if no object has the name.
    pub fn object_number(&self, name: &[u8]) -> Option<usize>
        ensures { result ≡ object_number self.now.layout.objects name.now }
    {
        self.layout.object_number(name)
    }

    /// What a called name refers to: a builtin, or the number of a function in the order of definitions. If no function has the
    /// name, the number is how many functions there are.
    pub fn callee(&self, name: &[u8]) -> Callee
        ensures { result ≡ callee self.now.layout name.now }
    {
        self.layout.callee(name)
    }
}
