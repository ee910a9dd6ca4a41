// Which webs need different locations, and which location each web would like.
//
// A web interferes with every web that is live after a node that sets it, except one that a move copies into it. The registers that a node
// overwrites by itself, as a call does most registers, are forbidden to what is live after the node. A web that is passed, returned or
// copied wishes for the register or the web that would save a move, weighted by how often that move would be done.

use crate::bits::Matrix;
use crate::nodes::{Shape, beside_constant, operands};
use crate::registers::{
    ARGUMENT_REGISTERS, DESTROYED, RESULT, Registers, SERVICE, argument_register, only,
};
use crate::webs::{Crossing, Crossings, Webs};
use cc_rtl_language::Node;
use std::alloc::{AllocError, Global};

/// What a web would share a register with.
#[derive(Clone, Copy)]
pub enum Partner {
    Register(u8),
    Web(u32),
}

/// A wish, and how many moves it would save.
#[derive(Clone, Copy)]
pub struct Wish {
    pub partner: Partner,
    pub weight: u32,
}

/// What is known about a web: the registers that it cannot have; how often it is read or set, and how often only set; how often a
/// call keeps it; how often it is a piece after a call, or before one; and the number of its last wish in the graph.
#[derive(Clone, Copy)]
pub struct Web {
    pub forbidden: Registers,
    pub cost: u32,
    pub set: u32,
    pub kept: u32,
    pub entered: u32,
    pub left: u32,
    pub last_wish: u32,
}

impl Web {
    /// What a register would save if calls did not cut the web: a move each time that the web is read or set, but not the moves
    /// from and to its slot at calls. A web that nothing sets has its word in the slot already.
    pub fn saves(&self) -> u32 {
        let stores = if self.set > 0 { self.left } else { 0 };
        self.cost
            .saturating_sub(self.entered)
            .saturating_sub(stores)
    }
}

/// The webs that a node other than a call reads, in the order of its operands.
#[derive(Clone, Copy)]
pub struct Read {
    pub first: Option<u32>,
    pub second: Option<u32>,
}

/// A function and its webs.
#[derive(Clone, Copy)]
pub struct Code<'a> {
    pub shape: &'a Shape<'a>,
    pub webs: &'a Webs,
}

impl<'a> Code<'a> {
    /// The web of a register that is live before a node.
    pub fn at(self, node: usize, register: u32) -> Option<u32> {
        self.webs.at(self.shape, node, register)
    }

    /// The webs that a node other than a call reads.
    pub fn read(self, at: usize, node: &Node) -> Read {
        let [first, second] = operands(node);
        Read {
            first: self.of_register(at, first),
            second: self.of_register(at, second),
        }
    }

    fn of_register(self, at: usize, register: Option<u32>) -> Option<u32> {
        match register {
            Some(register) => self.at(at, register),
            None => None,
        }
    }

    /// The webs that are live after a node, unless it is a branch.
    pub fn behind(self, node: usize) -> &'a [u32] {
        match self.shape.behind(node) {
            Some(behind) => self.webs.in_front(behind),
            None => &[],
        }
    }
}

/// A wish, and the number of the web's previous wish.
#[derive(Clone, Copy)]
pub struct Wished {
    pub wish: Wish,
    pub before: u32,
}

/// Webs, the interferences between them, and their wishes. Wishes are numbered from 1; number 0 means none.
#[derive(Drop)]
pub struct Graph {
    pub edges: Matrix,
    pub webs: Vec<Web>,
    wishes: Vec<Wished>,
}

impl Graph {
    /// The graph of a function. `Err` if memory runs out.
    pub fn of(alloc: Global, code: Code<'_>) -> Result<Graph, AllocError> {
        let mut graph = Graph::empty(alloc, code.webs.count(), code.shape.rtl.len())?;
        graph.add_nodes(alloc, code)?;
        Ok(graph)
    }

    /// How many wishes there are.
    pub fn wishes(&self) -> usize {
        self.wishes.len()
    }

    /// The wish with a number.
    pub fn wished(&self, number: u32) -> Option<Wished> {
        let at = (number as usize).checked_sub(1)?;
        self.wishes.get(at).copied()
    }

    // A graph of `count` webs about which nothing is known yet, with room for one wish for each node.
    fn empty(alloc: Global, count: u32, nodes: usize) -> Result<Graph, AllocError> {
        Ok(Graph {
            edges: Matrix::new(alloc, count)?,
            webs: vec![in alloc; no_web(); count as usize]?,
            wishes: Vec::with_capacity(alloc, nodes)?,
        })
    }

    fn add_nodes(&mut self, alloc: Global, code: Code<'_>) -> Result<(), AllocError> {
        let mut crossings = Crossings::new(alloc);
        let rtl = code.shape.rtl;
        for at in 0..rtl.len() {
            let node = rtl.node(at);
            let read = code.read(at, node);
            self.count_reads(code, at, node, read);
            if let Node::Call { .. } = node {
                code.webs.crossings(code.shape, at, &mut crossings)?;
                self.add_crossings(code, at, crossings.all.as_slice());
            }
            self.add_node(code, at, node, read)?;
            if at == rtl.entry() as usize {
                self.add_entry(code, at)?;
            }
        }
        Ok(())
    }

    // Adds what happens before the entry: all parameters are set at once.
    fn add_entry(&mut self, code: Code<'_>, at: usize) -> Result<(), AllocError> {
        for parameter in 0..code.shape.rtl.parameters().min(ARGUMENT_REGISTERS) {
            if let Some(web) = code.at(at, parameter) {
                self.count_set(web, 1);
                self.add_edges(code.webs.in_front(at), web, None);
                self.wish_for(Some(web), argument_register(parameter as usize), 1)?;
            }
        }
        Ok(())
    }

    fn add_node(
        &mut self,
        code: Code<'_>,
        at: usize,
        node: &Node,
        read: Read,
    ) -> Result<(), AllocError> {
        if let Some(web) = code.webs.result(at) {
            self.count_set(web, code.shape.weight(at));
            self.add_edges(code.behind(at), web, copied(node, read));
        }
        self.forbid_overwritten(code, at, node, read);
        self.add_wishes(code, at, node, read)
    }

    // A web that a call cuts is set after the call; a web that the call keeps whole can be in no register that the call destroys.
    fn add_crossings(&mut self, code: Code<'_>, at: usize, crossings: &[Crossing]) {
        let weight = code.shape.weight(at);
        for crossing in crossings {
            if crossing.is_cut() {
                self.add_edges(code.behind(at), crossing.behind, None);
                self.count_crossing(*crossing, weight);
            } else {
                self.count_kept(crossing.before, weight);
            }
        }
    }

    // What a node sets interferes with what is live afterwards, except with the web that the node copies.
    fn add_edges(&mut self, behind: &[u32], set: u32, copied: Option<u32>) {
        for web in behind {
            if *web != set && Some(*web) != copied {
                self.edges.put(set, *web);
            }
        }
    }

    // The registers that a read or a write overwrites by itself are forbidden to what is live after the node. The node's result, and the
    // word that it takes from such a register, are exceptions.
    fn forbid_overwritten(&mut self, code: Code<'_>, at: usize, node: &Node, read: Read) {
        match node {
            Node::Read { .. } => {
                let set = code.webs.result(at);
                self.forbid_all(code.behind(at), set, only(RESULT) | only(SERVICE));
            }
            Node::Write { .. } => {
                self.forbid_all(code.behind(at), read.first, only(RESULT));
                self.forbid_all(code.behind(at), None, only(SERVICE));
            }
            _ => {}
        }
    }

    fn forbid_all(&mut self, webs: &[u32], but: Option<u32>, registers: Registers) {
        for web in webs {
            if Some(*web) != but
                && let Some(known) = self.webs.get_mut(*web as usize)
            {
                known.forbidden |= registers;
            }
        }
    }

    fn add_wishes(
        &mut self,
        code: Code<'_>,
        at: usize,
        node: &Node,
        read: Read,
    ) -> Result<(), AllocError> {
        let weight = code.shape.weight(at);
        let set = code.webs.result(at);
        match node {
            Node::Move { .. } => self.wish_both(read.first, set, weight),
            Node::Call { arguments, .. } => {
                for (number, argument) in arguments.as_slice().iter().enumerate() {
                    let web = code.at(at, *argument);
                    self.wish_for(web, argument_register(number), weight)?;
                }
                self.wish_for(set, Some(RESULT), weight)
            }
            Node::Read { .. } => self.wish_for(set, Some(RESULT), weight),
            Node::Write { .. } | Node::Return { .. } => {
                self.wish_for(read.first, Some(RESULT), weight)
            }
            Node::Const { to, .. } => self.wish_both(set, overwriting(code, at, *to), weight),
            _ => Ok(()),
        }
    }

    fn wish_for(
        &mut self,
        web: Option<u32>,
        register: Option<u8>,
        weight: u32,
    ) -> Result<(), AllocError> {
        match (web, register) {
            (Some(web), Some(register)) => self.wish(web, Partner::Register(register), weight),
            _ => Ok(()),
        }
    }

    fn wish_both(
        &mut self,
        one: Option<u32>,
        other: Option<u32>,
        weight: u32,
    ) -> Result<(), AllocError> {
        match (one, other) {
            (Some(one), Some(other)) if one != other => {
                self.wish(one, Partner::Web(other), weight)?;
                self.wish(other, Partner::Web(one), weight)
            }
            _ => Ok(()),
        }
    }

    fn wish(&mut self, web: u32, partner: Partner, weight: u32) -> Result<(), AllocError> {
        if let Some(known) = self.webs.get_mut(web as usize) {
            let wish = Wish { partner, weight };
            let before = known.last_wish;
            self.wishes.push(Wished { wish, before })?;
            known.last_wish = u32::try_from(self.wishes.len()).unwrap_or(0);
        }
        Ok(())
    }

    fn count_reads(&mut self, code: Code<'_>, at: usize, node: &Node, read: Read) {
        let weight = code.shape.weight(at);
        self.count_read(read.first, weight);
        self.count_read(read.second, weight);
        if let Node::Call { arguments, .. } = node {
            for register in arguments.as_slice() {
                self.count_read(code.at(at, *register), weight);
            }
        }
    }

    fn count_read(&mut self, web: Option<u32>, weight: u32) {
        if let Some(web) = web
            && let Some(known) = self.webs.get_mut(web as usize)
        {
            known.cost = known.cost.saturating_add(weight);
        }
    }

    fn count_set(&mut self, web: u32, weight: u32) {
        if let Some(known) = self.webs.get_mut(web as usize) {
            known.cost = known.cost.saturating_add(weight);
            known.set = known.set.saturating_add(weight);
        }
    }

    // A web that a call keeps can be in no register that the call destroys.
    fn count_kept(&mut self, web: u32, weight: u32) {
        if let Some(known) = self.webs.get_mut(web as usize) {
            known.forbidden |= DESTROYED;
            known.kept = known.kept.saturating_add(weight);
        }
    }

    fn count_crossing(&mut self, crossing: Crossing, weight: u32) {
        if let Some(known) = self.webs.get_mut(crossing.before as usize) {
            known.left = known.left.saturating_add(weight);
        }
        if let Some(known) = self.webs.get_mut(crossing.behind as usize) {
            known.entered = known.entered.saturating_add(weight);
        }
    }
}

fn no_web() -> Web {
    Web {
        forbidden: 0,
        cost: 0,
        set: 0,
        kept: 0,
        entered: 0,
        left: 0,
        last_wish: 0,
    }
}

// The web that a move copies.
fn copied(node: &Node, read: Read) -> Option<u32> {
    match node {
        Node::Move { .. } => read.first,
        _ => None,
    }
}

// The web that the node after a constant sets, if that node is the last to read the constant and the constant fits in an immediate of its
// instruction.
fn overwriting(code: Code<'_>, at: usize, constant: u32) -> Option<u32> {
    let behind = code.shape.behind(at)?;
    let node = code.shape.rtl.at(behind)?;
    beside_constant(node, constant)?;
    if code.at(code.shape.behind(behind)?, constant).is_some() {
        return None;
    }
    code.webs.result(behind)
}
