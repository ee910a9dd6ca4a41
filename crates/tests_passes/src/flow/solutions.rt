// Live variables of small pieces of code, worked out by hand.

use crate::flow::live::{A, B, C, Live, graph, of_nodes, set};
use cc_flow::{Graph, solve_backward};
use std::alloc::{AllocError, Global};
use std::test::Fail;
use tests_texts::verdict::row_passes;

/// What a node reads, what it writes, and what is live before it.
type Wanted = (u8, u8, u8);

/// The nodes of some code, and its edges.
type Code = (&'static [Wanted], &'static [(usize, usize)]);

static CODES: [Code; 5] = [
    // Appel, Modern Compiler Implementation, 10.1: a := 0; b := a + 1; c := c + b; a := b * 2; if a < n goto the second; return c.
    (
        &[
            (0, A, C),
            (A, B, A | C),
            (B | C, C, B | C),
            (B, A, B | C),
            (A, 0, A | C),
            (C, 0, C),
        ],
        &[(0, 1), (1, 2), (2, 3), (3, 4), (4, 1), (4, 5)],
    ),
    // straight code
    (
        &[(0, A, 0), (A, B, A), (B, 0, B), (0, 0, 0)],
        &[(0, 1), (1, 2), (2, 3)],
    ),
    // nested loops: the inner one is 2, 3, 4, and the outer one is 1 to 5
    (
        &[
            (0, A, B | C),
            (A, 0, A | B | C),
            (B, 0, B | C),
            (0, B, C),
            (0, 0, B | C),
            (C, A, B | C),
            (0, 0, 0),
        ],
        &[
            (0, 1),
            (1, 2),
            (1, 6),
            (2, 3),
            (3, 4),
            (4, 2),
            (2, 5),
            (5, 1),
        ],
    ),
    // no edge leads to 3 and 4 from elsewhere, but they have sets; 4 leads only to itself
    (
        &[(0, 0, B), (B, 0, B), (0, 0, 0), (C, 0, B | C), (A, B, A)],
        &[(0, 1), (1, 2), (3, 1), (4, 4)],
    ),
    // no nodes
    (&[], &[]),
];

// The live sets of code with these nodes.
fn solved(alloc: Global, graph: &Graph, nodes: &[Wanted]) -> Result<Vec<Live>, AllocError> {
    let code = of_nodes(alloc, nodes)?;
    let solution = solve_backward(alloc, graph, &code);
    drop(code);
    Ok(solution?.into_vec())
}

// Whether these are the live sets of the nodes.
fn are_live(found: &[Live], nodes: &[Wanted]) -> bool {
    let mut right = found.len() == nodes.len();
    for (set_found, (_, _, wanted)) in found.iter().zip(nodes) {
        right = right && *set_found == set(*wanted);
    }
    right
}

fn is_solved(alloc: Global, row: &Code) -> Result<bool, Fail> {
    let graph = graph(alloc, row.0.len(), row.1)?;
    let found = solved(alloc, &graph, row.0);
    drop(graph);
    Ok(are_live(found?.as_slice(), row.0))
}

#[test]
fn live_sets(rt: HostRuntime) -> Result<(), Fail> {
    for number in 0..CODES.len() {
        row_passes(number, is_solved(rt.alloc(), &CODES[number]))?;
    }
    Ok(())
}
