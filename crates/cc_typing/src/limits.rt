// The limits that a unit exceeds: on the parameters of a function, on its locals, on functions, and on the words of all
// objects.

ghost use Rattle.std.specs.Prelude.{◌≡◌, None};
ghost use Rattle.cc_ast.specs.Erase.{object_tree, object_trees, signature_tree, external_tree, external_trees};
ghost use Rattle.cc_types.specs.Counts.{count_after};
ghost use Rattle.cc_types.specs.internal.Externals.{defines, objects_in};
ghost use Rattle.cc_types.specs.Limits.{most_functions, function_names, objects, object_name, parameter_excesses, external_excesses, externals_excesses, excesses};
ghost use Rattle.cc_typing.specs.internal.Counts.{excess_of, word_count, with_words, words_after};
ghost use Rattle.cc_typing.specs.internal.Findings.{noted};

use super::findings::earlier;
use cc_ast::{External, Object, Signature};
use cc_types::{
    Count, MOST_FUNCTIONS, MOST_LOCALS, MOST_PARAMETERS, MOST_WORDS, Rule, RuleError, count_locals,
    object_words,
};

// The earlier of two errors: `first`, if there is one, and the one for the limit exceeded at the offset `past`, if there is
// such an offset.
fn with_excess(first: Option<RuleError>, past: Option<usize>) -> Option<RuleError>
    ensures { result ≡ noted first (excess_of past) }
{
    match past {
        None => first,
        Some(at) => Some(earlier(
            first,
            RuleError {
                rule: Rule::TooMany,
                at,
            },
        )),
    }
}

// ---- words

// How many words the objects so far have, and the offset of the object that exceeded the limit on words.
#[derive(Drop)]
struct Words {
    taken: usize,
    past: Option<usize>,
}

fn object_place(object: &Object) -> usize
    ensures { result ≡ (object_name (object_tree object.now)).at }
{
    match object {
        Object::Single(name, _) | Object::Array(name, _, _) | Object::Bytes(name, _, _) => name.at,
    }
}

impl Words {
    fn add(&mut self, object: &Object)
        ensures { word_count self.new ≡ with_words (word_count self.old) (object_tree object.now) }
    {
        if self.past.is_some() {
            return;
        }
        let words = object_words(object);
        if self.taken > MOST_WORDS || words > MOST_WORDS - self.taken {
            self.past = Some(object_place(object));
        } else {
            self.taken += words;
        }
    }

    fn add_all(&mut self, objects: &[Object])
        ensures { word_count self.new ≡ words_after (word_count self.old) (object_trees objects.now) }
    {
        for object in objects {
            self.add(object);
        }
    }

    fn add_external(&mut self, external: &External)
        ensures { word_count self.new ≡ words_after (word_count self.old) (objects_in (external_tree external.now)) }
    {
        match external {
            External::Objects(_, declared) => self.add_all(declared.as_slice()),
            External::Declaration(_) | External::Definition(_, _) => {}
        }
    }
}

// ---- a unit

fn with_parameters(first: Option<RuleError>, signature: &Signature) -> Option<RuleError>
    ensures { result ≡ noted first (parameter_excesses (signature_tree signature.now)) }
{
    if signature.parameters.as_slice().len() > MOST_PARAMETERS {
        with_excess(first, Some(signature.name.at))
    } else {
        first
    }
}

fn with_external(first: Option<RuleError>, external: &External) -> Option<RuleError>
    ensures { result ≡ noted first (external_excesses (external_tree external.now)) }
{
    match external {
        External::Declaration(signature) => with_parameters(first, signature),
        External::Definition(signature, body) => {
            let mut count = Count::new(MOST_LOCALS);
            count_locals(&mut count, body.as_slice());
            with_excess(with_parameters(first, signature), count.past)
        }
        External::Objects(_, _) => first,
    }
}

fn with_externals(mut first: Option<RuleError>, externals: &[External]) -> Option<RuleError>
    ensures { result ≡ noted first (externals_excesses (external_trees externals.now)) }
{
    for external in externals {
        first = with_external(first, external);
    }
    first
}

fn count_function(count: &mut Count, external: &External)
    ensures { count.new ≡ count_after count.old (defines (external_tree external.now)) }
{
    match external {
        External::Definition(signature, _) => count.add(&signature.name),
        External::Declaration(_) | External::Objects(_, _) => {}
    }
}

fn past_functions(externals: &[External]) -> Option<usize>
    ensures { result ≡ (count_after (record { most = most_functions; names = 0; past = None }) (function_names (external_trees externals.now))).past }
{
    let mut count = Count::new(MOST_FUNCTIONS);
    for external in externals {
        count_function(&mut count, external);
    }
    count.past
}

fn past_words(externals: &[External]) -> Option<usize>
    ensures { result ≡ (words_after (record { taken = 0; past = None }) (objects (external_trees externals.now))).past }
{
    let mut words = Words {
        taken: 0,
        past: None,
    };
    for external in externals {
        words.add_external(external);
    }
    words.past
}

/// The earliest of these errors: `first`, if there is one, and the ones for the limits that the unit exceeds.
pub fn with_excesses(first: Option<RuleError>, externals: &[External]) -> Option<RuleError>
    ensures { result ≡ noted first (excesses (external_trees externals.now)) }
{
    let first = with_externals(first, externals);
    let first = with_excess(first, past_functions(externals));
    with_excess(first, past_words(externals))
}
