// The declarations of objects, without the constant expressions in them. `naming` contains the declaration so far, and `list` the
// array so far.

ghost use Rattle.std.specs.Prelude.{◌≡◌, [], ◌∷◌, ◌++◌, IfOk, None};
ghost use Rattle.cc_ast.specs.Erase.{name_tree, external_trees, object_tree, object_trees, optional_constant, constant_trees};
ghost use Rattle.cc_ast.specs.Tree.{Single};
ghost use Rattle.cc_syntax.specs.internal.Parser.{char_step, single_step, separated, object_step, first_step_object, object_next_step, sizing_step, sized_step, listing_step, end_list, valuing_step, scalar_of, array_of};
ghost use Rattle.cc_syntax.specs.internal.ParserView.{name_at, naming_view, Gives};

use crate::parser::cursor::Cursor;
use crate::parser::role::Role;
use crate::parser::state::{Context, Naming, ObjectKind, Outer, Parser, Part, Values, no_name};
use crate::parser::stop::Stop;
use cc_ast::{AssignmentOperator, ConstantExpression, External, Identifier, Object};
use cc_tokens::Scalar;
use std::alloc::{AllocError, Global};
use std::mem::replace;

/// The type in the declaration: `Unsigned` for `unsigned char`.
fn scalar_of(kind: ObjectKind) -> Scalar
    ensures { result ≡ scalar_of kind }
{
    match kind {
        ObjectKind::Words(scalar) => scalar,
        ObjectKind::Bytes => Scalar::Unsigned,
    }
}

/// Makes an array whose elements are of this kind.
fn array_of(
    kind: ObjectKind,
    name: Identifier,
    size: Option<ConstantExpression>,
    values: Vec<ConstantExpression>,
) -> Object
    ensures { object_tree result ≡ array_of kind (name_tree name) (optional_constant size) (constant_trees values.items) }
{
    match kind {
        ObjectKind::Words(_) => Object::Array(name, size, values),
        ObjectKind::Bytes => Object::Bytes(name, size, values),
    }
}

/// Adds a complete object.
pub fn add_object(objects: &mut Vec<Object>, object: Object) -> Result<(), AllocError>
    ensures { IfOk result (λ _. object_trees objects.new.items ≡ object_trees objects.old.items ++ object_tree object ∷ []) }
{
    objects.push(object)?;
    Ok(())
}

/// Completes the last name in a declaration of objects, as an array.
pub fn add_array(alloc: Global, naming: &mut Naming, list: &mut Values) -> Result<(), AllocError>
    ensures objects { IfOk result (λ _. object_trees naming.new.objects.items ≡ object_trees naming.old.objects.items ++ array_of naming.old.kind (name_tree naming.old.name) (optional_constant list.old.size) (constant_trees list.old.values.items) ∷ []) }
    ensures kind { naming.new.kind ≡ naming.old.kind }
{
    let name = replace(&mut naming.name, no_name(alloc));
    let size = replace(&mut list.size, None);
    let values = replace(&mut list.values, Vec::new(alloc));
    add_object(
        &mut naming.objects,
        array_of(naming.kind, name, size, values),
    )
}

impl Parser {
    /// Reads `char`, which only `unsigned` may precede.
    pub fn step_char(&mut self, scalar: Scalar) -> Result<(), Stop>
        ensures { Gives (char_step (external_trees self.old.externals.items) scalar) result self.new }
    {
        match scalar {
            Scalar::Unsigned => {
                self.naming.kind = ObjectKind::Bytes;
                self.naming.objects.clear();
                self.to_file(Outer::ObjectNext)
            }
            Scalar::Int => Err(Stop::Unexpected),
        }
    }

    /// Reads a token after the name of the first object in a declaration.
    pub fn step_first_object(&mut self, object_type: Option<Scalar>, role: Role) -> Result<(), Stop>
        ensures { Gives (first_step_object (external_trees self.old.externals.items) object_type (name_tree self.old.naming.name) role) result self.new }
    {
        match object_type {
            Some(scalar) => {
                self.naming.kind = ObjectKind::Words(scalar);
                self.naming.objects.clear();
                self.step_object(role)
            }
            None => Err(Stop::Unexpected),
        }
    }

    /// Reads a further name in a declaration of objects.
    pub fn step_object_next(&mut self, role: Role, cursor: &Cursor<'_>) -> Result<(), Stop>
        ensures { Gives (object_next_step (external_trees self.old.externals.items) self.old.naming.kind (object_trees self.old.naming.objects.items) role (name_at cursor.now)) result self.new }
    {
        match role {
            Role::Identifier => {
                self.naming.name = cursor.name(self.alloc)?;
                self.to_file(Outer::ObjectNamed)
            }
            _ => Err(Stop::Unexpected),
        }
    }

    /// Reads a token after the name of an object.
    pub fn step_object(&mut self, role: Role) -> Result<(), Stop>
        ensures { Gives (object_step (external_trees self.old.externals.items) (naming_view self.old.naming) role) result self.new }
    {
        match role {
            Role::OpenBracket => self.to_file(Outer::Sizing),
            _ => self.step_single(role),
        }
    }

    /// Reads a token after the name of an object that is not an array. Only array elements can be `unsigned char`.
    fn step_single(&mut self, role: Role) -> Result<(), Stop>
        ensures { Gives (single_step (external_trees self.old.externals.items) (naming_view self.old.naming) self.old.naming.kind role) result self.new }
    {
        match self.naming.kind {
            ObjectKind::Words(_) => match role {
                Role::Assignment(AssignmentOperator::Plain) => self.to_file(Outer::Initialising),
                _ => self.end_single(role),
            },
            ObjectKind::Bytes => Err(Stop::Unexpected),
        }
    }

    /// Reads the token after a single object without a value.
    fn end_single(&mut self, role: Role) -> Result<(), Stop>
        ensures { Gives (separated (external_trees self.old.externals.items) self.old.naming.kind (object_trees self.old.naming.objects.items ++ Single (name_tree self.old.naming.name) None ∷ []) role) result self.new }
    {
        let name = replace(&mut self.naming.name, no_name(self.alloc));
        add_object(&mut self.naming.objects, Object::Single(name, None))?;
        self.end_object(role)
    }

    /// Reads a token after the opening bracket of an array.
    pub fn step_sizing(&mut self, role: Role, cursor: &Cursor<'_>) -> Result<(), Stop>
        ensures { Gives (sizing_step (external_trees self.old.externals.items) (naming_view self.old.naming) role (name_at cursor.now)) result self.new }
    {
        match role {
            Role::CloseBracket => {
                self.list.size = None;
                self.to_file(Outer::Sized)
            }
            _ => {
                let part = Part::Size(cursor.at());
                self.step_first(Context::Object(part), role, cursor)
            }
        }
    }

    /// Reads a token after the length of an array.
    pub fn step_sized(&mut self, role: Role) -> Result<(), Stop>
        ensures { Gives (sized_step (external_trees self.old.externals.items) (naming_view self.old.naming) (optional_constant self.old.list.size) role) result self.new }
    {
        match role {
            Role::Assignment(AssignmentOperator::Plain) => self.to_file(Outer::Listing),
            _ => {
                self.list.values.clear();
                add_array(self.alloc, &mut self.naming, &mut self.list)?;
                self.end_object(role)
            }
        }
    }

    /// Reads the opening brace of an initialiser list.
    pub fn step_listing(&mut self, role: Role) -> Result<(), Stop>
        ensures { Gives (listing_step (external_trees self.old.externals.items) (naming_view self.old.naming) (optional_constant self.old.list.size) role) result self.new }
    {
        match role {
            Role::OpenBrace => {
                self.list.values.clear();
                self.to_file(Outer::Valuing)
            }
            _ => Err(Stop::Unexpected),
        }
    }

    /// Reads the first token of a value in an initialiser list, or the end of the list.
    pub fn step_valuing(&mut self, role: Role, cursor: &Cursor<'_>) -> Result<(), Stop>
        ensures { Gives (valuing_step (external_trees self.old.externals.items) (naming_view self.old.naming) (optional_constant self.old.list.size) (constant_trees self.old.list.values.items) role (name_at cursor.now)) result self.new }
    {
        match role {
            Role::CloseBrace => self.end_list(),
            _ => {
                let part = Part::Value(cursor.at());
                self.step_first(Context::Object(part), role, cursor)
            }
        }
    }

    /// Reads the closing brace of an initialiser list, after a comma.
    fn end_list(&mut self) -> Result<(), Stop>
        ensures { Gives (end_list (external_trees self.old.externals.items) (naming_view self.old.naming) (optional_constant self.old.list.size) (constant_trees self.old.list.values.items)) result self.new }
    {
        if self.list.values.is_empty() {
            return Err(Stop::Unexpected);
        }
        add_array(self.alloc, &mut self.naming, &mut self.list)?;
        self.to_file(Outer::Listed)
    }

    /// Reads the token after a complete object.
    pub fn end_object(&mut self, role: Role) -> Result<(), Stop>
        ensures { Gives (separated (external_trees self.old.externals.items) self.old.naming.kind (object_trees self.old.naming.objects.items) role) result self.new }
    {
        match role {
            Role::Comma => self.to_file(Outer::ObjectNext),
            Role::Semicolon => {
                let objects = replace(&mut self.naming.objects, Vec::new(self.alloc));
                let scalar = scalar_of(self.naming.kind);
                self.externals.push(External::Objects(scalar, objects))?;
                self.to_file(Outer::Between)
            }
            _ => Err(Stop::Unexpected),
        }
    }
}
