// How often a node is visited, in code of 4,096 nodes, which is the limit for a function.

use crate::flow::live::{A, B, C, Code, idle, lead, put, set};
use cc_flow::{Graph, solve_backward};
use std::alloc::{AllocError, Global};
use std::test::Fail;
use tests_texts::verdict::row_passes;

const NODES: usize = 4096;

/// Code of 4,096 nodes. Each leads to the next one, or to the one before if the code is numbered backward.
struct Long {
    is_backward: bool,
    /// Other edges.
    edges: &'static [(usize, usize)],
    /// Nodes with what they read and what they write.
    nodes: &'static [(usize, u8, u8)],
    /// What is live before node 0.
    live: u8,
    /// How many visits there are at least, and at most.
    visits: (u64, u64),
}

static LONG: [Long; 3] = [
    // straight code takes one visit a node
    Long {
        is_backward: false,
        edges: &[],
        nodes: &[(4095, A | B | C, 0), (2000, C, A)],
        live: B | C,
        visits: (4096, 4096),
    },
    // a loop from 1000 to 3000 within one from 100 to 4000 takes a few visits a node
    Long {
        is_backward: false,
        edges: &[(3000, 1000), (4000, 100)],
        nodes: &[(200, A, 0), (1500, B, 0), (4095, C, 0)],
        live: A | B | C,
        visits: (0, 3 * 4096),
    },
    // the worst order takes as many visits as there are rises, since a node waits again only if a fact rose
    Long {
        is_backward: true,
        edges: &[],
        nodes: &[(0, A, 0)],
        live: A,
        visits: (0, 2 * 4096),
    },
];

fn lead_all(graph: &mut Graph, row: &Long) -> Result<(), AllocError> {
    for node in 1..NODES {
        if row.is_backward {
            lead(graph, node, node - 1)?;
        } else {
            lead(graph, node - 1, node)?;
        }
    }
    for (from, to) in row.edges {
        lead(graph, *from, *to)?;
    }
    Ok(())
}

fn code_of(alloc: Global, row: &Long) -> Result<Code, AllocError> {
    let mut code = idle(alloc, NODES)?;
    for (node, reads, writes) in row.nodes {
        put(&mut code, *node, *reads, *writes);
    }
    Ok(code)
}

// Whether these variables are live before node 0, and how many visits that took.
fn solved(alloc: Global, graph: &Graph, code: &Code, live: u8) -> Result<(bool, u64), AllocError> {
    let solution = solve_backward(alloc, graph, code)?;
    let first = solution.as_slice().first().copied();
    Ok((first == Some(set(live)), code.visits.get()))
}

fn is_solved_on(alloc: Global, graph: &mut Graph, row: &Long) -> Result<bool, Fail> {
    lead_all(graph, row)?;
    let code = code_of(alloc, row)?;
    let solved = solved(alloc, graph, &code, row.live);
    drop(code);
    let (is_live, visits) = solved?;
    Ok(is_live && row.visits.0 <= visits && visits <= row.visits.1)
}

fn is_solved(alloc: Global, row: &Long) -> Result<bool, Fail> {
    let mut graph = Graph::new(alloc, NODES)?;
    let answer = is_solved_on(alloc, &mut graph, row);
    drop(graph);
    answer
}

#[test]
fn visits(rt: HostRuntime) -> Result<(), Fail> {
    for number in 0..LONG.len() {
        row_passes(number, is_solved(rt.alloc(), &LONG[number]))?;
    }
    Ok(())
}
