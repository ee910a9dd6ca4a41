// Which register each web gets.
//
// A web takes the register that saves the most moves, out of those that no interfering web has. Its own wishes count for a
// register. The wishes of interfering webs that have none yet count against it, and so does the cost of a register that the
// function would have to save. A web gets a slot if no register is left for it, or if a slot is cheaper.

use crate::interference::{Graph, Partner, Web};
use crate::registers::{ALL, DESTROYED, ORDER, Registers, contains, only};
use std::alloc::{AllocError, Global};

/// What it costs to save a register and restore it.
pub const SAVING: u32 = 2;

// What was chosen for a web, or that it will be chosen later.
#[derive(Clone, Copy)]
enum Chosen {
    Slot,
    Later,
    Register(u8),
}

/// The register of each web; a web without one needs a slot.
#[derive(Drop)]
pub struct Choice {
    chosen: Vec<Chosen>,
    saved: Registers,
}

impl Choice {
    /// Chooses for the webs, in the given order. No web gets a register of `reserved`. `Err` if memory runs out.
    pub fn of(
        alloc: Global,
        graph: &Graph,
        order: &[u32],
        reserved: Registers,
    ) -> Result<Choice, AllocError> {
        let mut choice = Choice {
            chosen: vec![in alloc; Chosen::Slot; graph.webs.len()]?,
            saved: 0,
        };
        for web in order {
            choice.set(*web, Chosen::Later);
        }
        for web in order {
            if let Some(known) = graph.webs.get(*web as usize) {
                let best = choice.best(graph, known, graph.edges.row(*web), reserved);
                choice.put(*web, best);
            }
        }
        Ok(choice)
    }

    /// The register of a web.
    pub fn register(&self, web: u32) -> Option<u8> {
        match self.chosen.get(web as usize) {
            Some(Chosen::Register(register)) => Some(*register),
            _ => None,
        }
    }

    /// The registers of some webs.
    pub fn registers(&self, webs: &[u32]) -> Registers {
        let mut registers = 0;
        for web in webs {
            if let Some(register) = self.register(*web) {
                registers |= only(register);
            }
        }
        registers
    }

    fn set(&mut self, web: u32, chosen: Chosen) {
        if let Some(place) = self.chosen.get_mut(web as usize) {
            *place = chosen;
        }
    }

    fn put(&mut self, web: u32, register: Option<u8>) {
        match register {
            Some(register) => {
                self.set(web, Chosen::Register(register));
                self.saved |= only(register) & !DESTROYED;
            }
            None => self.set(web, Chosen::Slot),
        }
    }

    // The best register for a web, whose interfering webs are given as a row of bits.
    fn best(&self, graph: &Graph, web: &Web, beside: &[u64], reserved: Registers) -> Option<u8> {
        let mut scores = Scores {
            scores: [0i64; 32],
            counted: 0,
        };
        self.count_wishes(&mut scores, graph, web, false);
        self.count_partners(&mut scores, graph, web);
        let taken = self.count_beside(&mut scores, graph, beside);
        let best = self.highest(&scores, ALL & !reserved & !web.forbidden & !taken)?;
        if self.is_new(best) && web.saves() < SAVING {
            None
        } else {
            Some(best)
        }
    }

    // The register in a set that saves the most moves; the first, if there are several.
    fn highest(&self, scores: &Scores, left: Registers) -> Option<u8> {
        let mut best = None;
        let mut most = i64::MIN;
        let mut rest = left;
        for register in ORDER {
            if rest == 0 {
                break;
            }
            if contains(rest, register) {
                let score = self.score(scores, register);
                if score > most {
                    best = Some(register);
                    most = score;
                }
                rest &= !only(register);
                // Registers for which nothing was counted cannot have a higher score.
                if most >= 0 {
                    rest &= scores.counted;
                }
            }
        }
        best
    }

    fn score(&self, scores: &Scores, register: u8) -> i64 {
        let score = scores.of(register);
        if self.is_new(register) {
            score.saturating_sub(i64::from(SAVING))
        } else {
            score
        }
    }

    // Whether the function would have to save a register that it does not save yet.
    fn is_new(&self, register: u8) -> bool {
        !contains(DESTROYED | self.saved, register)
    }

    // Counts the wishes of webs that have no register yet and with which this web would share one.
    fn count_partners(&self, scores: &mut Scores, graph: &Graph, web: &Web) {
        let mut at = web.last_wish;
        for _ in 0..graph.wishes() {
            let Some(wished) = graph.wished(at) else {
                break;
            };
            at = wished.before;
            if let Partner::Web(web) = wished.wish.partner
                && let Some(partner) = self.undecided(graph, web)
            {
                self.count_wishes(scores, graph, partner, false);
            }
        }
    }

    // Counts against each register the wishes for it by interfering webs that have no register yet, and answers the registers of
    // the other interfering webs.
    fn count_beside(&self, scores: &mut Scores, graph: &Graph, beside: &[u64]) -> Registers {
        let mut taken = 0;
        let mut base = 0u32;
        for word in beside {
            let mut rest = *word;
            for _ in 0..64 {
                if rest == 0 {
                    break;
                }
                let other = base.saturating_add(rest.trailing_zeros());
                match self.register(other) {
                    Some(register) => taken |= only(register),
                    None => self.count_against(scores, graph, other),
                }
                rest &= rest.wrapping_sub(1);
            }
            base = base.saturating_add(64);
        }
        taken
    }

    // Counts the wishes of an interfering web against the registers, if nothing was chosen for it yet.
    fn count_against(&self, scores: &mut Scores, graph: &Graph, other: u32) {
        if let Some(known) = self.undecided(graph, other) {
            self.count_wishes(scores, graph, known, true);
        }
    }

    // The web, if nothing was chosen for it yet.
    fn undecided<'a>(&self, graph: &'a Graph, web: u32) -> Option<&'a Web> {
        match self.chosen.get(web as usize) {
            Some(Chosen::Later) => graph.webs.get(web as usize),
            _ => None,
        }
    }

    // Counts a web's wishes for or against the registers that they name, except those that it cannot have.
    fn count_wishes(&self, scores: &mut Scores, graph: &Graph, web: &Web, against: bool) {
        let mut at = web.last_wish;
        for _ in 0..graph.wishes() {
            let Some(wished) = graph.wished(at) else {
                break;
            };
            at = wished.before;
            let register = match wished.wish.partner {
                Partner::Register(register) => Some(register),
                Partner::Web(web) => self.register(web),
            };
            if let Some(register) = register
                && !contains(web.forbidden, register)
            {
                scores.count(register, i64::from(wished.wish.weight), against);
            }
        }
    }
}

// How many moves each register would save, and the registers for which something was counted.
#[derive(Drop)]
struct Scores {
    scores: [i64; 32],
    counted: Registers,
}

impl Scores {
    fn of(&self, register: u8) -> i64 {
        self.scores.get(register as usize).copied().unwrap_or(0)
    }

    fn count(&mut self, register: u8, weight: i64, against: bool) {
        if let Some(score) = self.scores.get_mut(register as usize) {
            *score = if against {
                score.saturating_sub(weight)
            } else {
                score.saturating_add(weight)
            };
            self.counted |= only(register);
        }
    }
}
