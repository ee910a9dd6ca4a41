// What names denote.

ghost use Rattle.std.specs.Prelude.{◌≡◌, Some};
ghost use Rattle.cc_ast.specs.Erase.{parameter_trees, signature_tree};
ghost use Rattle.cc_scope.specs.Entities.{optional_entity};
ghost use Rattle.cc_scope.specs.internal.Scopes.{scalars};
ghost use Rattle.cc_types.specs.Scope.{function_entity, same_scalar, same_scalars, same_result};
ghost use Rattle.cc_types.specs.Rules.{differs};

use cc_ast::{Parameter, Scalar, Signature};

/// What a name denotes.
#[derive(Clone, Copy)]
pub enum Entity<'a> {
    /// An object with one value: a variable, a parameter or a local.
    Variable(Scalar),
    /// An array, with the type of its elements.
    Elements(Scalar),
    /// A function, with its first declaration.
    Function(&'a Signature),
    /// The builtin `void write_word(int)`.
    WriteWord,
    /// The builtin `int read_word(void)`.
    ReadWord,
}

fn same_scalar(one: Scalar, other: Scalar) -> bool
    ensures { result ≡ same_scalar one other }
{
    match one {
        Scalar::Int => matches!(other, Scalar::Int),
        Scalar::Unsigned => matches!(other, Scalar::Unsigned),
    }
}

/// Whether two functions' results have the same type.
pub fn same_result(one: Option<Scalar>, other: Option<Scalar>) -> bool
    ensures { result ≡ same_result one other }
{
    match one {
        None => other.is_none(),
        Some(scalar) => match other {
            None => false,
            Some(second) => same_scalar(scalar, second),
        },
    }
}

fn same_types(one: &[Parameter], other: &[Parameter]) -> bool
    ensures { result ≡ same_scalars (scalars (parameter_trees one.now)) (scalars (parameter_trees other.now)) }
{
    if one.len() != other.len() {
        return false;
    }
    for (index, parameter) in one.iter().enumerate() {
        if !same_scalar(parameter.scalar, other[index].scalar) {
            return false;
        }
    }
    true
}

/// Whether a declaration of a function contradicts what its name already denotes.
pub fn differs(standing: Option<Entity<'_>>, signature: &Signature) -> bool
    ensures { result ≡ differs (optional_entity standing.entry) (function_entity (signature_tree signature.now)) }
{
    let parameters = signature.parameters.as_slice();
    match standing {
        None => false,
        Some(Entity::Variable(_) | Entity::Elements(_)) => true,
        Some(Entity::Function(first)) => {
            !(same_result(first.result, signature.result)
                && same_types(first.parameters.as_slice(), parameters))
        }
        Some(Entity::WriteWord) => match parameters {
            [only] => !(signature.result.is_none() && same_scalar(Scalar::Int, only.scalar)),
            _ => true,
        },
        Some(Entity::ReadWord) => {
            !(same_result(Some(Scalar::Int), signature.result) && parameters.is_empty())
        }
    }
}
