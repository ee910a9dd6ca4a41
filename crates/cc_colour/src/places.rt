// The place of each web: its register, or the slot of the whole web to which the piece belongs. Whole webs that interfere with
// each other have different slots.

use crate::bits::{first_clear, set_bit};
use crate::interference::{Code, Graph, Web};
use crate::registers::{DESTROYED, Place, Registers, contains};
use crate::select::Choice;
use crate::webs::{Crossing, Crossings, Origins};
use cc_ltl::MOST_SLOTS;
use cc_rtl_language::Node;
use std::alloc::{AllocError, Global};

/// How many words a row with one bit for each slot has.
const SLOT_WORDS: usize = 8;

/// The place of each web, and which webs may hold a word that their slot does not have.
#[derive(Drop)]
pub struct Places<'a> {
    choice: Choice,
    origins: &'a Origins,
    slots: Vec<Option<u16>>,
    dirty: Vec<bool>,
    count: u16,
}

impl<'a> Places<'a> {
    /// The places of webs, given their chosen registers, the whole web of each, and the graph of whole webs. `Err` if memory runs
    /// out.
    pub fn of(
        alloc: Global,
        code: Code<'_>,
        pieces: &Graph,
        whole: &Graph,
        choice: Choice,
        origins: &'a Origins,
    ) -> Result<Places<'a>, AllocError> {
        let mut places = Places {
            choice,
            origins,
            slots: Vec::new(alloc),
            dirty: Vec::new(alloc),
            count: 0,
        };
        if places.want_slots(pieces) {
            places.put_slots(alloc, pieces, whole)?;
        }
        // A whole web never leaves its place at a call, so whether it is dirty does not matter.
        if !origins.are_same() {
            places.find_dirty(alloc, code, pieces)?;
        }
        Ok(places)
    }

    /// The number of slots.
    pub fn count(&self) -> u16 {
        self.count
    }

    /// The register of a web.
    pub fn register(&self, web: u32) -> Option<u8> {
        self.choice.register(web)
    }

    /// The place of a web. A web for which no slot was left has no place.
    pub fn place(&self, web: u32) -> Option<Place> {
        match self.register(web) {
            Some(register) => Some(Place::Register(register)),
            None => match self.slot(web) {
                Some(slot) => Some(Place::Slot(slot)),
                None => None,
            },
        }
    }

    /// The slot of a web.
    pub fn slot(&self, web: u32) -> Option<u16> {
        self.slot_of(self.origins.of(web))
    }

    /// Whether a web may hold a word that its slot does not have.
    pub fn is_dirty(&self, web: u32) -> bool {
        self.dirty.get(web as usize).copied().unwrap_or(true)
    }

    /// The register that holds a web over a call.
    pub fn kept_register(&self, web: u32) -> Option<u8> {
        match self.register(web) {
            Some(register) if !contains(DESTROYED, register) => Some(register),
            _ => None,
        }
    }

    /// The registers of some webs.
    pub fn registers(&self, webs: &[u32]) -> Registers {
        self.choice.registers(webs)
    }

    fn slot_of(&self, origin: u32) -> Option<u16> {
        self.slots.get(origin as usize).copied().flatten()
    }

    // Whether a piece has no register, or goes to its slot before a call.
    fn wants_slot(&self, piece: &Web, web: u32) -> bool {
        piece.left > 0 || self.register(web).is_none()
    }

    fn want_slots(&self, pieces: &Graph) -> bool {
        let mut web = 0u32;
        for piece in &pieces.webs {
            if self.wants_slot(piece, web) {
                return true;
            }
            web = web.saturating_add(1);
        }
        false
    }

    fn put_slots(
        &mut self,
        alloc: Global,
        pieces: &Graph,
        whole: &Graph,
    ) -> Result<(), AllocError> {
        let wanted = self.wanted_slots(alloc, pieces, whole)?;
        self.slots = vec![in alloc; None; whole.webs.len()]?;
        let mut web = 0u32;
        for is_wanted in &wanted {
            if *is_wanted {
                self.put_slot(web, whole.edges.row(web));
            }
            web = web.saturating_add(1);
        }
        Ok(())
    }

    // The whole webs with a piece that needs a slot.
    fn wanted_slots(
        &self,
        alloc: Global,
        pieces: &Graph,
        whole: &Graph,
    ) -> Result<Vec<bool>, AllocError> {
        let mut wanted = vec![in alloc; false; whole.webs.len()]?;
        let mut web = 0u32;
        for piece in &pieces.webs {
            if self.wants_slot(piece, web)
                && let Some(is_wanted) = wanted.get_mut(self.origins.of(web) as usize)
            {
                *is_wanted = true;
            }
            web = web.saturating_add(1);
        }
        Ok(wanted)
    }

    // Gives a whole web the first slot that no web of the row `beside` has.
    fn put_slot(&mut self, origin: u32, beside: &[u64]) {
        let mut taken = [0u64; SLOT_WORDS];
        let mut base = 0u32;
        for word in beside {
            let mut rest = *word;
            for _ in 0..64 {
                if rest == 0 {
                    break;
                }
                if let Some(slot) = self.slot_of(base.saturating_add(rest.trailing_zeros())) {
                    set_bit(&mut taken, u32::from(slot));
                }
                rest &= rest.wrapping_sub(1);
            }
            base = base.saturating_add(64);
        }
        if let Some(number) = first_clear(&taken, MOST_SLOTS)
            && let Some(place) = self.slots.get_mut(origin as usize)
        {
            *place = Some(number);
            self.count = self.count.max(number.saturating_add(1));
        }
    }

    // Finds the dirty webs. A word that a node sets is not in its slot yet, and a word that came over a call in a register was
    // not stored there.
    fn find_dirty(
        &mut self,
        alloc: Global,
        code: Code<'_>,
        pieces: &Graph,
    ) -> Result<(), AllocError> {
        self.dirty.reserve(pieces.webs.len())?;
        for web in &pieces.webs {
            self.dirty.push(web.set > 0)?;
        }
        let mut crossings = Crossings::new(alloc);
        for node in 0..code.shape.rtl.len() {
            if let Node::Call { .. } = code.shape.rtl.node(node) {
                code.webs.crossings(code.shape, node, &mut crossings)?;
                for crossing in &crossings.all {
                    self.put_dirty(*crossing);
                }
            }
        }
        Ok(())
    }

    fn put_dirty(&mut self, crossing: Crossing) {
        if self.kept_register(crossing.before).is_some()
            && let Some(dirty) = self.dirty.get_mut(crossing.behind as usize)
        {
            *dirty = true;
        }
    }
}
