// The slot of each pseudo-register.

ghost use Rattle.std.specs.Prelude.{◌≡◌, ◌+◌, ◌<◌, ◌≤◌};
ghost use Rattle.cc_ltl.specs.Registers.{most_slots};

use cc_ltl::{MOST_SLOTS, Slot};
use cc_rtl_language::{Node, Rtl};
use std::marker::Model;

/// A slot for each pseudo-register of a function: slot i for pseudo-register i as long as there are slots, and the last slot for
/// all others. Contracts see the number of the last slot.
#[derive(Clone, Copy)]
pub struct Slots {
    last: u16,
}

impl Model for Slots {
    ghost use Rattle.std.specs.Prelude.{ℕ, ◌<◌};
    ghost use Rattle.cc_ltl.specs.Registers.{most_slots};

    ghost Value = { ℕ };

    ghost view = { λ s. s.last };

    ghost invariant = { λ s. s.last < most_slots };

    ghost inverse = { λ n. record { last = n } };
}

impl Slots {
    /// The slots of a function, up to the slot of its highest pseudo-register.
    pub fn of(rtl: &Rtl) -> Slots {
        let mut slots = Slots { last: 0 };
        if rtl.parameters() > 0 {
            slots.reach(rtl.parameters() - 1);
        }
        for at in 0..rtl.len() {
            slots.reach_all(rtl.node(at));
        }
        slots
    }

    /// The number of slots, 1 to 495.
    pub fn count(self) -> u16
        ensures count { result ≡ self + 1 }
        ensures few { result ≤ most_slots }
    {
        self.last + 1
    }

    /// The slot of a pseudo-register.
    pub fn slot(self, register: u32) -> Slot
        ensures { result ≤ self }
    {
        let number = u16::try_from(register).unwrap_or(self.last).min(self.last);
        match Slot::new(number) {
            Some(slot) => slot,
            None => unreachable!(),
        }
    }

    fn reach(&mut self, register: u32) {
        let number = u16::try_from(register)
            .unwrap_or(MOST_SLOTS - 1)
            .min(MOST_SLOTS - 1);
        if self.last < number {
            self.last = number;
        }
    }

    fn reach_all(&mut self, node: &Node) {
        match node {
            Node::Nop { .. } => {}
            Node::Const { to: one, .. }
            | Node::Read { to: one, .. }
            | Node::Write { from: one, .. }
            | Node::Branch { from: one, .. }
            | Node::Return { from: one } => self.reach(*one),
            Node::Move { to, from, .. }
            | Node::Unary { to, from, .. }
            | Node::Load {
                to,
                index: from,
                ..
            }
            | Node::Store {
                index: to,
                from,
                ..
            } => {
                self.reach(*to);
                self.reach(*from);
            }
            Node::Binary {
                to,
                left,
                right,
                ..
            } => {
                self.reach(*to);
                self.reach(*left);
                self.reach(*right);
            }
            Node::Call { arguments, to, .. } => {
                for argument in arguments.as_slice() {
                    self.reach(*argument);
                }
                if let Some(to) = to {
                    self.reach(*to);
                }
            }
        }
    }
}
