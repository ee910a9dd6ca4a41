// The labels to which the entry leads.

ghost use Rattle.std.specs.Prelude.{◌≡◌, ◌<◌, length, IfOk, All};
ghost use Rattle.std.specs.List.{Contains};
ghost use Rattle.cc_linear.specs.internal.Reached.{InGraph, ClosedTo, WaysBelow, HasWays, Found, Grew};

use super::ways::Ways;
use std::alloc::{AllocError, Global};

/// Adds a label, unless it was found before.
fn find(seen: &mut Vec<bool>, found: &mut Vec<usize>, label: usize) -> Result<(), AllocError>
    requires label { label < length seen.old.items }
    requires found { Found seen.old.items found.old.items }
    ensures long { IfOk result (λ _. length seen.new.items ≡ length seen.old.items) }
    ensures found { IfOk result (λ _. Found seen.new.items found.new.items) }
    ensures there { IfOk result (λ _. Contains found.new.items label) }
    ensures grew { IfOk result (λ _. Grew found.old.items found.new.items) }
{
    if !seen[label] {
        seen[label] = true;
        found.push(label)?;
    }
    Ok(())
}

/// Adds the labels to which a block leads.
fn find_ways(seen: &mut Vec<bool>, found: &mut Vec<usize>, ways: Ways) -> Result<(), AllocError>
    requires ways { WaysBelow (length seen.old.items) ways }
    requires found { Found seen.old.items found.old.items }
    ensures long { IfOk result (λ _. length seen.new.items ≡ length seen.old.items) }
    ensures found { IfOk result (λ _. Found seen.new.items found.new.items) }
    ensures there { IfOk result (λ _. HasWays found.new.items ways) }
    ensures grew { IfOk result (λ _. Grew found.old.items found.new.items) }
{
    match ways {
        Ways::Leaves => Ok(()),
        Ways::One(next) => find(seen, found, next),
        Ways::Two(taken, other) => {
            find(seen, found, taken)?;
            find(seen, found, other)
        }
    }
}

/// The entry and all labels to which it leads. Err: memory ran out.
pub fn reached(alloc: Global, graph: &[Ways], entry: usize) -> Result<Vec<usize>, AllocError>
    requires graph { InGraph graph.now }
    requires entry { entry < length graph.now }
    ensures entry { IfOk result (λ found. Contains found.items entry) }
    ensures closed { IfOk result (λ found. ClosedTo graph.now found.items (length found.items)) }
    ensures inside { IfOk result (λ found. All (λ l. l < length graph.now) found.items) }
{
    let mut seen = vec![in alloc; false; graph.len()]?;
    let mut found: Vec<usize> = Vec::with_capacity(alloc, graph.len())?;
    find(&mut seen, &mut found, entry)?;
    let mut at = 0;
    while at < found.len() {
        let ways = graph[found[at]];
        find_ways(&mut seen, &mut found, ways)?;
        at += 1;
    }
    Ok(found)
}
