// The order in which webs get their registers (Chaitin, Briggs).
//
// A web with fewer interferences than there are registers for it gets one, whatever the others have. It is taken out, and each
// web that it interfered with has one interference fewer. If no such web is left, the web whose slot would cost least per
// interference is taken out, in the hope that some of its neighbours will share a register. Registers are then chosen in the
// opposite order. A web to which a register would save nothing is taken out first, and gets none.

use crate::interference::{Graph, Web};
use crate::registers::{ALL, Registers};
use std::alloc::{AllocError, Global};

/// The webs in the order in which they get their registers. No web gets a register of `reserved`. `Err` if memory runs out.
pub fn colouring_order(
    alloc: Global,
    graph: &Graph,
    reserved: Registers,
) -> Result<Vec<u32>, AllocError> {
    let mut left = Left::of(alloc, graph, reserved)?;
    let by_cost = left.by_cost(alloc)?;
    left.find_easy(by_cost.as_slice())?;
    let mut hard = by_cost.iter();
    let mut order = Vec::with_capacity(alloc, by_cost.len())?;
    for _ in 0..graph.webs.len().saturating_mul(2) {
        let web = match left.easy.pop() {
            Some(web) => web,
            None => match hard.next() {
                Some((_, web)) => *web,
                None => break,
            },
        };
        if left.take_out(web)? {
            order.push(web)?;
        }
    }
    order.reverse();
    Ok(order)
}

// The webs that are left: how many of them each web interferes with, which webs are taken out, and which are certain to get a
// register.
#[derive(Drop)]
struct Left<'a> {
    graph: &'a Graph,
    reserved: Registers,
    degrees: Vec<u32>,
    taken_out: Vec<bool>,
    easy: Vec<u32>,
}

impl<'a> Left<'a> {
    fn of(alloc: Global, graph: &'a Graph, reserved: Registers) -> Result<Left<'a>, AllocError> {
        let mut left = Left {
            graph,
            reserved,
            degrees: degrees(alloc, graph)?,
            taken_out: vec![in alloc; false; graph.webs.len()]?,
            easy: Vec::with_capacity(alloc, graph.webs.len())?,
        };
        let mut web = 0u32;
        for known in &graph.webs {
            if known.saves() == 0 {
                left.take_out(web)?;
            }
            web = web.saturating_add(1);
        }
        left.easy.clear();
        Ok(left)
    }

    // Takes a web out. Answers whether it had not been taken out before.
    fn take_out(&mut self, web: u32) -> Result<bool, AllocError> {
        match self.taken_out.get_mut(web as usize) {
            Some(out) if !*out => *out = true,
            _ => return Ok(false),
        }
        let graph = self.graph;
        let mut base = 0u32;
        for word in graph.edges.row(web) {
            let mut rest = *word;
            for _ in 0..64 {
                if rest == 0 {
                    break;
                }
                self.lessen(base.saturating_add(rest.trailing_zeros()))?;
                rest &= rest.wrapping_sub(1);
            }
            base = base.saturating_add(64);
        }
        Ok(true)
    }

    // Notes that a web has one interference fewer.
    fn lessen(&mut self, web: u32) -> Result<(), AllocError> {
        if let Some(known) = self.graph.webs.get(web as usize)
            && let Some(degree) = self.degrees.get_mut(web as usize)
        {
            if *degree == choices(known, self.reserved) {
                self.easy.push(web)?;
            }
            *degree = degree.saturating_sub(1);
        }
        Ok(())
    }

    // The webs that are left, each with what its slot would cost per interference, the cheapest first.
    fn by_cost(&self, alloc: Global) -> Result<Vec<(u64, u32)>, AllocError> {
        let mut keys = Vec::with_capacity(alloc, self.degrees.len())?;
        let mut web = 0u32;
        for (known, degree) in self.graph.webs.iter().zip(self.degrees.iter()) {
            if self.taken_out.get(web as usize) == Some(&false) {
                let cost = u64::from(known.saves()).saturating_mul(64);
                let shared = u64::from(*degree).saturating_add(1);
                keys.push((cost / shared.max(1), web))?;
            }
            web = web.saturating_add(1);
        }
        keys.sort_unstable();
        Ok(keys)
    }

    // Finds the webs that are certain to get a register, the cheapest last.
    fn find_easy(&mut self, by_cost: &[(u64, u32)]) -> Result<(), AllocError> {
        for (_, web) in by_cost.iter().rev() {
            if let Some(known) = self.graph.webs.get(*web as usize)
                && let Some(degree) = self.degrees.get(*web as usize)
                && *degree < choices(known, self.reserved)
            {
                self.easy.push(*web)?;
            }
        }
        Ok(())
    }
}

// How many registers are possible for a web.
fn choices(web: &Web, reserved: Registers) -> u32 {
    (ALL & !web.forbidden & !reserved).count_ones()
}

// How many others each web interferes with.
fn degrees(alloc: Global, graph: &Graph) -> Result<Vec<u32>, AllocError> {
    let mut degrees = Vec::with_capacity(alloc, graph.webs.len())?;
    let mut web = 0u32;
    for _ in &graph.webs {
        let mut degree = 0u32;
        for word in graph.edges.row(web) {
            degree = degree.saturating_add(word.count_ones());
        }
        degrees.push(degree)?;
        web = web.saturating_add(1);
    }
    Ok(degrees)
}
