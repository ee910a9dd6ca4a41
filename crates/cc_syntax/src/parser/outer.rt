// The tokens at file scope up to a function's body, outside full expressions: the heads of functions. Declarations of objects are
// in `objects`.

ghost use Rattle.std.specs.Prelude.{◌≡◌, IfOk, Some, None};
ghost use Rattle.std.specs.Option.{option_map};
ghost use Rattle.cc_ast.specs.Erase.{name_tree, external_trees, signature_tree, parameter_trees};
ghost use Rattle.cc_syntax.specs.internal.Parser.{external_step, typed_step, result_sign_step, named_step, parameter_step, parameters_step, only_void_step, parameter_named_step, parameter_typed_step, parameter_sign_step, headed_step, outer_step, with_parameter, all_named};
ghost use Rattle.cc_syntax.specs.internal.ParserView.{name_at, outer_of, Gives};

use crate::parser::cursor::Cursor;
use crate::parser::role::Role;
use crate::parser::state::{Context, Outer, Parser, Part, Stage, no_name, no_signature};
use crate::parser::stop::Stop;
use cc_ast::{External, Identifier, Parameter, Signature};
use cc_tokens::Scalar;
use std::alloc::AllocError;
use std::mem::replace;

/// Adds a parameter to a function's head.
fn add_parameter(
    signature: &mut Signature,
    scalar: Scalar,
    name: Option<Identifier>,
) -> Result<(), AllocError>
    ensures { IfOk result (λ _. signature_tree signature.new ≡ with_parameter (signature_tree signature.old) scalar (option_map name_tree name)) }
{
    signature.parameters.push(Parameter { scalar, name })?;
    Ok(())
}

/// Whether every parameter has a name.
fn are_named(parameters: &[Parameter]) -> bool
    ensures { result ≡ all_named (parameter_trees parameters.now) }
{
    parameters.iter().all(|parameter| parameter.name.is_some())
}

impl Parser {
    /// Reads the first token of an external declaration.
    fn step_external(&mut self, role: Role) -> Result<(), Stop>
        ensures { Gives (external_step (external_trees self.old.externals.items) role) result self.new }
    {
        match role {
            Role::Int => self.to_file(Outer::Typed(Some(Scalar::Int))),
            Role::SignWord(scalar) => self.to_file(Outer::ResultSign(scalar)),
            Role::Void => self.to_file(Outer::Typed(None)),
            _ => Err(Stop::Unexpected),
        }
    }

    /// Reads a name after a type or `void`.
    fn step_typed(
        &mut self,
        result_type: Option<Scalar>,
        role: Role,
        cursor: &Cursor<'_>,
    ) -> Result<(), Stop>
        ensures { Gives (typed_step (external_trees self.old.externals.items) result_type role (name_at cursor.now)) result self.new }
    {
        match role {
            Role::Identifier => {
                self.naming.name = cursor.name(self.alloc)?;
                self.to_file(Outer::Named(result_type))
            }
            _ => Err(Stop::Unexpected),
        }
    }

    /// Reads a token after `signed` or `unsigned`.
    fn step_result_sign(
        &mut self,
        scalar: Scalar,
        role: Role,
        cursor: &Cursor<'_>,
    ) -> Result<(), Stop>
        ensures { Gives (result_sign_step (external_trees self.old.externals.items) scalar role (name_at cursor.now)) result self.new }
    {
        match role {
            Role::Int => self.to_file(Outer::Typed(Some(scalar))),
            Role::Char => self.step_char(scalar),
            _ => self.step_typed(Some(scalar), role, cursor),
        }
    }

    /// Reads a token after the first name of an external declaration.
    fn step_named(&mut self, result_type: Option<Scalar>, role: Role) -> Result<(), Stop>
        ensures { Gives (named_step (external_trees self.old.externals.items) result_type (name_tree self.old.naming.name) role) result self.new }
    {
        match role {
            Role::OpenParenthesis => {
                let name = replace(&mut self.naming.name, no_name(self.alloc));
                self.signature = Signature {
                    result: result_type,
                    name,
                    parameters: Vec::new(self.alloc),
                };
                self.to_file(Outer::Parameters)
            }
            _ => self.step_first_object(result_type, role),
        }
    }

    /// Reads the first token of a parameter.
    fn step_parameter(&mut self, role: Role) -> Result<(), Stop>
        ensures { Gives (parameter_step (external_trees self.old.externals.items) (signature_tree self.old.signature) role) result self.new }
    {
        match role {
            Role::Int => self.to_file(Outer::ParameterTyped(Scalar::Int)),
            Role::SignWord(scalar) => self.to_file(Outer::ParameterSign(scalar)),
            _ => Err(Stop::Unexpected),
        }
    }

    /// Reads a token after the opening parenthesis of a function's parameters.
    fn step_parameters(&mut self, role: Role) -> Result<(), Stop>
        ensures { Gives (parameters_step (external_trees self.old.externals.items) (signature_tree self.old.signature) role) result self.new }
    {
        match role {
            Role::Void => self.to_file(Outer::OnlyVoid),
            Role::CloseParenthesis => self.to_file(Outer::Headed),
            _ => self.step_parameter(role),
        }
    }

    /// Reads the closing parenthesis after `void`.
    fn step_only_void(&mut self, role: Role) -> Result<(), Stop>
        ensures { Gives (only_void_step (external_trees self.old.externals.items) (signature_tree self.old.signature) role) result self.new }
    {
        match role {
            Role::CloseParenthesis => self.to_file(Outer::Headed),
            _ => Err(Stop::Unexpected),
        }
    }

    /// Reads a token after a parameter.
    fn step_parameter_named(&mut self, role: Role) -> Result<(), Stop>
        ensures { Gives (parameter_named_step (external_trees self.old.externals.items) (signature_tree self.old.signature) role) result self.new }
    {
        match role {
            Role::Comma => self.to_file(Outer::ParameterNext),
            Role::CloseParenthesis => self.to_file(Outer::Headed),
            _ => Err(Stop::Unexpected),
        }
    }

    /// Reads a token after a parameter's type.
    fn step_parameter_typed(
        &mut self,
        scalar: Scalar,
        role: Role,
        cursor: &Cursor<'_>,
    ) -> Result<(), Stop>
        ensures { Gives (parameter_typed_step (external_trees self.old.externals.items) (signature_tree self.old.signature) scalar role (name_at cursor.now)) result self.new }
    {
        match role {
            Role::Identifier => {
                let name = cursor.name(self.alloc)?;
                add_parameter(&mut self.signature, scalar, Some(name))?;
                self.to_file(Outer::ParameterNamed)
            }
            _ => {
                add_parameter(&mut self.signature, scalar, None)?;
                self.step_parameter_named(role)
            }
        }
    }

    /// Reads a token after `signed` or `unsigned` in a parameter's type.
    fn step_parameter_sign(
        &mut self,
        scalar: Scalar,
        role: Role,
        cursor: &Cursor<'_>,
    ) -> Result<(), Stop>
        ensures { Gives (parameter_sign_step (external_trees self.old.externals.items) (signature_tree self.old.signature) scalar role (name_at cursor.now)) result self.new }
    {
        match role {
            Role::Int => self.to_file(Outer::ParameterTyped(scalar)),
            _ => self.step_parameter_typed(scalar, role, cursor),
        }
    }

    /// Reads a token after a function's parameters: the end of its declaration, or the beginning of a body, which requires that
    /// every parameter has a name.
    fn step_headed(&mut self, role: Role) -> Result<(), Stop>
        ensures { Gives (headed_step (external_trees self.old.externals.items) (signature_tree self.old.signature) role) result self.new }
    {
        match role {
            Role::Semicolon => {
                let signature = replace(&mut self.signature, no_signature(self.alloc));
                self.externals.push(External::Declaration(signature))?;
                self.to_file(Outer::Between)
            }
            Role::OpenBrace => {
                if !are_named(self.signature.parameters.as_slice()) {
                    return Err(Stop::Unexpected);
                }
                self.body.finished.clear();
                self.body.open.clear();
                self.to_body(Stage::Item)
            }
            _ => Err(Stop::Unexpected),
        }
    }

    /// Reads a token at file scope, outside full expressions.
    #[inline(never)]
    pub fn step_outer(&mut self, role: Role, cursor: &Cursor<'_>) -> Result<(), Stop>
        ensures { Gives (outer_step (external_trees self.old.externals.items) (outer_of self.old self.old.outer) role (name_at cursor.now)) result self.new }
    {
        match self.outer {
            Outer::Between => self.step_external(role),
            Outer::ResultSign(scalar) => self.step_result_sign(scalar, role, cursor),
            Outer::Typed(scalar) => self.step_typed(scalar, role, cursor),
            Outer::Named(scalar) => self.step_named(scalar, role),
            Outer::Parameters => self.step_parameters(role),
            Outer::OnlyVoid => self.step_only_void(role),
            Outer::ParameterNext => self.step_parameter(role),
            Outer::ParameterSign(scalar) => self.step_parameter_sign(scalar, role, cursor),
            Outer::ParameterTyped(scalar) => self.step_parameter_typed(scalar, role, cursor),
            Outer::ParameterNamed => self.step_parameter_named(role),
            Outer::Headed => self.step_headed(role),
            Outer::ObjectNext => self.step_object_next(role, cursor),
            Outer::ObjectNamed => self.step_object(role),
            Outer::Sizing => self.step_sizing(role, cursor),
            Outer::Sized => self.step_sized(role),
            Outer::Initialising => {
                let part = Part::Single(cursor.at());
                self.step_first(Context::Object(part), role, cursor)
            }
            Outer::Listing => self.step_listing(role),
            Outer::Valuing => self.step_valuing(role, cursor),
            Outer::Listed => self.end_object(role),
        }
    }
}
