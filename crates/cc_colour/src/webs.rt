// Webs: a web is what one location is chosen for.
//
// If a node leads to another and keeps a register that is live before both, the register's two points need the same location, so
// they belong to one web. A register that is used for several values in turn, as temporaries are, falls into several webs, each
// with a location of its own. A result that nobody reads is a web without points.
//
// A web may be cut at calls. Its points before a call and after it are then not joined, so it can be in one place before the call
// and in another after it, with a slot in between. A web that is not cut is whole; the pieces of a whole web have it as their
// origin.

use crate::forest::Forest;
use crate::nodes::{Shape, result};
use crate::points::Points;
use cc_rtl_language::Node;
use std::alloc::{AllocError, Global};

/// Functions with more points or webs than this are not coloured.
const MOST_POINTS: usize = 16_777_216;

const MOST_WEBS: u32 = 8_192;

/// The whole webs, and which of them are cut.
#[derive(Clone, Copy)]
pub struct Cuts<'a> {
    pub whole: &'a Webs,
    pub cut: &'a [bool],
}

impl Cuts<'_> {
    fn is_cut(self, point: usize) -> bool {
        match self.whole.webs.get(point) {
            Some(web) => self.cut.get(*web as usize).copied().unwrap_or(false),
            None => false,
        }
    }
}

/// The webs of a register before a call and after it; they are the same unless the call cuts the web.
#[derive(Clone, Copy)]
pub struct Crossing {
    pub before: u32,
    pub behind: u32,
}

impl Crossing {
    pub fn is_cut(self) -> bool {
        self.before != self.behind
    }
}

/// A list of crossings, and the room used to find them.
#[derive(Drop)]
pub struct Crossings {
    pub all: Vec<Crossing>,
    points: Vec<(usize, usize)>,
}

impl Crossings {
    pub fn new(alloc: Global) -> Crossings {
        Crossings {
            all: Vec::new(alloc),
            points: Vec::new(alloc),
        }
    }
}

/// The whole web of each piece. A number without an entry is a whole web itself.
#[derive(Drop)]
pub struct Origins {
    origins: Vec<u32>,
}

impl Origins {
    /// The origins if all webs are whole. They take no memory.
    pub fn same(alloc: Global) -> Origins {
        Origins {
            origins: Vec::new(alloc),
        }
    }

    /// Whether each piece is a whole web.
    pub fn are_same(&self) -> bool {
        self.origins.is_empty()
    }

    /// The whole web of a piece.
    pub fn of(&self, web: u32) -> u32 {
        self.origins.get(web as usize).copied().unwrap_or(web)
    }
}

/// The webs of a function: the web of each point, and of each node's result.
#[derive(Drop)]
pub struct Webs {
    points: Points,
    webs: Vec<u32>,
    results: Vec<Option<u32>>,
    count: u32,
}

impl Webs {
    /// The webs of a function, cut if cuts are given; None if there are too many. `Err` if memory runs out.
    pub fn of(
        alloc: Global,
        shape: &Shape<'_>,
        cuts: Option<Cuts<'_>>,
    ) -> Result<Option<Webs>, AllocError> {
        let points = Points::of(alloc, shape.rtl.len(), shape.live)?;
        if points.count() > MOST_POINTS {
            drop(points);
            return Ok(None);
        }
        let mut forest = Forest::new(alloc, points.count())?;
        join_all(alloc, shape, &points, cuts, &mut forest)?;
        let (webs, count) = forest.numbered(alloc)?;
        let mut all = Webs {
            points,
            webs,
            results: Vec::with_capacity(alloc, shape.rtl.len())?,
            count,
        };
        all.find_results(shape)?;
        if all.count > MOST_WEBS {
            drop(all);
            return Ok(None);
        }
        Ok(Some(all))
    }

    /// The number of webs.
    pub fn count(&self) -> u32 {
        self.count
    }

    /// The webs that are live before a node.
    pub fn in_front(&self, node: usize) -> &[u32] {
        let first = self.points.first(node);
        let end = self.points.first(node.saturating_add(1));
        self.webs.get(first..end).unwrap_or(&[])
    }

    /// The web of a register that is live before a node.
    pub fn at(&self, shape: &Shape<'_>, node: usize, register: u32) -> Option<u32> {
        let point = self.points.point(shape.live, node, register)?;
        self.webs.get(point).copied()
    }

    /// The web of a node's result.
    pub fn result(&self, node: usize) -> Option<u32> {
        self.results.get(node).copied().flatten()
    }

    /// The whole web of each piece. `Err` if memory runs out.
    pub fn origins(&self, alloc: Global, whole: &Webs) -> Result<Origins, AllocError> {
        let mut origins = vec![in alloc; 0u32; self.count as usize]?;
        for (piece, web) in self.webs.iter().zip(whole.webs.iter()) {
            put_origin(origins.as_mut_slice(), Some(*piece), Some(*web));
        }
        for (piece, web) in self.results.iter().zip(whole.results.iter()) {
            put_origin(origins.as_mut_slice(), *piece, *web);
        }
        Ok(Origins { origins })
    }

    /// For each register that a call keeps, puts its webs before and after the call in a list; at another node the list is empty.
    /// `Err` if memory runs out.
    pub fn crossings(
        &self,
        shape: &Shape<'_>,
        node: usize,
        crossings: &mut Crossings,
    ) -> Result<(), AllocError> {
        crossings.all.clear();
        if let Some((set, behind)) = shape.call(node) {
            self.points
                .common(shape.live, node, behind, set, &mut crossings.points)?;
            for (before, behind) in &crossings.points {
                let crossing = Crossing {
                    before: web_of(self.webs.as_slice(), *before),
                    behind: web_of(self.webs.as_slice(), *behind),
                };
                crossings.all.push(crossing)?;
            }
        }
        Ok(())
    }

    // Finds the web of each result: the web that goes on after its node, or a new one.
    fn find_results(&mut self, shape: &Shape<'_>) -> Result<(), AllocError> {
        for at in 0..shape.rtl.len() {
            let web = match result(shape.rtl.node(at)) {
                None => None,
                Some(register) => Some(self.result_web(shape, at, register)),
            };
            self.results.push(web)?;
        }
        Ok(())
    }

    fn result_web(&mut self, shape: &Shape<'_>, node: usize, register: u32) -> u32 {
        if let Some(behind) = shape.behind(node)
            && let Some(web) = self.at(shape, behind, register)
        {
            return web;
        }
        let web = self.count;
        self.count = self.count.saturating_add(1);
        web
    }
}

fn web_of(webs: &[u32], point: usize) -> u32 {
    webs.get(point).copied().unwrap_or(0)
}

fn put_origin(origins: &mut [u32], piece: Option<u32>, web: Option<u32>) {
    if let Some(piece) = piece
        && let Some(web) = web
        && let Some(origin) = origins.get_mut(piece as usize)
    {
        *origin = web;
    }
}

// Joins the points of each register that a node keeps, before the node and before each node to which it leads, unless they are
// cut.
fn join_all(
    alloc: Global,
    shape: &Shape<'_>,
    points: &Points,
    cuts: Option<Cuts<'_>>,
    forest: &mut Forest,
) -> Result<(), AllocError> {
    let mut common = Vec::new(alloc);
    for at in 0..shape.rtl.len() {
        let node = shape.rtl.node(at);
        let set = result(node);
        let cuts = match node {
            Node::Call { .. } => cuts,
            _ => None,
        };
        for next in shape.next_of(at) {
            if let Some(next) = next {
                points.common(shape.live, at, next, set, &mut common)?;
                join_points(forest, common.as_slice(), cuts);
            }
        }
    }
    Ok(())
}

fn join_points(forest: &mut Forest, common: &[(usize, usize)], cuts: Option<Cuts<'_>>) {
    for (point, other) in common {
        let is_cut = match cuts {
            Some(cuts) => cuts.is_cut(*point),
            None => false,
        };
        if !is_cut {
            forest.join(*point, *other);
        }
    }
}
