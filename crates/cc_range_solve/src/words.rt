// The ranges of objects before the run.

use crate::thresholds::nothing;
use cc_ast::{ConstantExpression, External, Object};
use cc_range::Range;
use cc_types::{array_length, constant_word};
use std::alloc::{AllocError, Global};

fn word_of(tree: &ConstantExpression) -> u32 {
    constant_word(tree).unwrap_or(0)
}

// The range of the elements of an array; a byte keeps the low eight bits.
fn of_values(
    length: &Option<ConstantExpression>,
    values: &[ConstantExpression],
    is_bytes: bool,
) -> Range {
    let mut range = nothing();
    for value in values {
        let word = word_of(value);
        range = range.joined(Range::only(if is_bytes { word % 256 } else { word }));
    }
    if array_length(length, values).unwrap_or(0) > values.len() {
        range = range.joined(Range::only(0));
    }
    range
}

fn of_object(tree: &Object) -> Range {
    match tree {
        Object::Single(_, None) => Range::only(0),
        Object::Single(_, Some(value)) => Range::only(word_of(value)),
        Object::Array(_, length, values) => of_values(length, values.as_slice(), false),
        Object::Bytes(_, length, values) => of_values(length, values.as_slice(), true),
    }
}

/// The ranges of all objects of a unit before the run, in the order of their declarations.
pub(crate) fn first_objects(alloc: Global, trees: &[External]) -> Result<Vec<Range>, AllocError> {
    let mut ranges = Vec::new(alloc);
    for tree in trees {
        if let External::Objects(_, objects) = tree {
            for object in objects {
                ranges.push(of_object(object))?;
            }
        }
    }
    Ok(ranges)
}
