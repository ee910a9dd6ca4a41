// Live variables among three, with a count of the visits.

ghost use Rattle.std.proofs.Common.{arith};
ghost use Rattle.tests_passes.specs.Live.{below, none, both, room, laws, carried, carried_up};

use cc_flow::{Facts, Graph, Transfer};
use std::alloc::{AllocError, Global};
use std::cell::Cell;

/// A set of the variables a, b and c.
#[derive(Clone, Copy, PartialEq, Eq)]
pub struct Live {
    pub a: bool,
    pub b: bool,
    pub c: bool,
}

/// The variables that a node reads, and those that it writes.
#[derive(Clone, Copy)]
pub struct Node {
    pub reads: Live,
    pub writes: Live,
}

/// The nodes of some code, and a count of the visits.
#[derive(Drop)]
pub struct Code {
    pub nodes: Vec<Node>,
    pub visits: Cell<u64>,
}

impl Facts for Live {
    ghost below = { below };

    ghost bottom = { none };

    ghost lub = { both };

    ghost room = { room };

    ghost height = { 3 };

    fn least(_alloc: Global) -> Result<Live, AllocError> {
        Ok(Live {
            a: false,
            b: false,
            c: false,
        })
    }

    fn join(&mut self, other: &Live) -> Result<bool, AllocError> {
        let old = *self;
        let new = Live {
            a: old.a | other.a,
            b: old.b | other.b,
            c: old.c | other.c,
        };
        *self = new;
        Ok(old.a != new.a || old.b != new.b || old.c != new.c)
    }

    ghost laws = { laws };

    ghost bounded = { Prim.omega arith };
}

impl Transfer<Live> for Code {
    ghost carries = { λ code. carried code.nodes.items };

    fn apply(&self, _alloc: Global, node: usize, behind: &Live) -> Result<Live, AllocError> {
        self.visits.set(self.visits.get().saturating_add(1));
        let none = Live {
            a: false,
            b: false,
            c: false,
        };
        let nothing = Node {
            reads: none,
            writes: none,
        };
        let at = self.nodes.get(node).copied().unwrap_or(nothing);
        Ok(Live {
            a: at.reads.a | (behind.a & !at.writes.a),
            b: at.reads.b | (behind.b & !at.writes.b),
            c: at.reads.c | (behind.c & !at.writes.c),
        })
    }

    ghost monotone = { λ code. carried_up code.nodes.items };
}

/// The variables as bits of a set.
pub const A: u8 = 1;

pub const B: u8 = 2;

pub const C: u8 = 4;

/// The set of these bits.
pub fn set(bits: u8) -> Live {
    Live {
        a: bits & A != 0,
        b: bits & B != 0,
        c: bits & C != 0,
    }
}

/// Code of this many nodes that neither read nor write.
pub fn idle(alloc: Global, nodes: usize) -> Result<Code, AllocError> {
    let node = Node {
        reads: set(0),
        writes: set(0),
    };
    Ok(Code {
        nodes: vec![in alloc; node; nodes]?,
        visits: Cell::new(0),
    })
}

/// Makes a node read and write these variables, if the code has such a node.
pub fn put(code: &mut Code, node: usize, reads: u8, writes: u8) {
    if node < code.nodes.len() {
        code.nodes[node] = Node {
            reads: set(reads),
            writes: set(writes),
        };
    }
}

/// Code with these nodes: what each reads, and what it writes.
pub fn of_nodes(alloc: Global, nodes: &[(u8, u8, u8)]) -> Result<Code, AllocError> {
    let mut code = idle(alloc, nodes.len())?;
    for (node, (reads, writes, _)) in nodes.iter().enumerate() {
        put(&mut code, node, *reads, *writes);
    }
    Ok(code)
}

/// A graph of this many nodes with these edges, except edges that leave the graph.
pub fn graph(alloc: Global, nodes: usize, edges: &[(usize, usize)]) -> Result<Graph, AllocError> {
    let mut graph = Graph::new(alloc, nodes)?;
    for (from, to) in edges {
        lead(&mut graph, *from, *to)?;
    }
    Ok(graph)
}

/// Adds an edge, if both ends are nodes.
pub fn lead(graph: &mut Graph, from: usize, to: usize) -> Result<(), AllocError> {
    if from < graph.len() && to < graph.len() {
        graph.add_edge(from, to)?;
    }
    Ok(())
}
