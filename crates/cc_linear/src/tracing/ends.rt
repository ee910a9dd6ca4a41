// Branch tunnelling: where the chain of empty blocks from each label ends.

ghost use Rattle.std.specs.Prelude.{◌≡◌, ◌<◌, length, IfOk, All};
ghost use Rattle.cc_linear.specs.internal.Ends.{Sound, HasEnds};

use std::alloc::{AllocError, Global};

/// Sets the end of a label to the end of the next label, if that end is known.
fn settle(next: &[usize], known: &mut Vec<bool>, ends: &mut Vec<usize>, label: usize)
    requires inside { All (λ n. n < length next.now) next.now }
    requires known_long { length known.old.items ≡ length next.now }
    requires ends_long { length ends.old.items ≡ length next.now }
    requires label { label < length next.now }
    requires sound { Sound next.now known.old.items ends.old.items }
    ensures known_long { length known.new.items ≡ length next.now }
    ensures ends_long { length ends.new.items ≡ length next.now }
    ensures sound { Sound next.now known.new.items ends.new.items }
{
    let after = next[label];
    if !known[label] && known[after] {
        ends[label] = ends[after];
        known[label] = true;
    }
}

/// The label at which the chain from each label ends. `next` has the successor of an empty block, and for any other block its own label.
/// Err: memory ran out.
pub fn chain_ends(alloc: Global, next: &[usize]) -> Result<Vec<usize>, AllocError>
    requires inside { All (λ n. n < length next.now) next.now }
    ensures long { IfOk result (λ ends. length ends.items ≡ length next.now) }
    ensures inside { IfOk result (λ ends. All (λ e. e < length next.now) ends.items) }
    ensures ends { IfOk result (λ ends. HasEnds next.now ends.items) }
{
    let count = next.len();
    let mut ends: Vec<usize> = Vec::with_capacity(alloc, count)?;
    for label in 0..count {
        ends.push(label)?;
    }
    let mut known = vec![in alloc; false; count]?;
    let mut seen = vec![in alloc; false; count]?;
    let mut path: Vec<usize> = Vec::new(alloc);
    for start in 0..count {
        let mut at = start;
        while !seen[at] {
            seen[at] = true;
            path.push(at)?;
            at = next[at];
        }
        // the path has reached a known chain, or a cycle, which keeps this label
        known[at] = true;
        while let Some(label) = path.pop() {
            settle(next, &mut known, &mut ends, label);
        }
    }
    Ok(ends)
}
