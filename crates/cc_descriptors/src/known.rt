// A system whose descriptors 0 to 2 contracts can see.

ghost use Rattle.std.specs.Prelude.{◌≡◌, Some};
ghost use Rattle.cc_descriptors.specs.Uses.{is_used};

use crate::descriptors::{Access, Descriptors, Standard, Use, Uses};
use std::io;

/// A system whose descriptors 0 to 2 are known, and that never refuses a stand-in. For tests.
#[derive(Clone, Copy, Debug, Drop)]
pub struct KnownDescriptors {
    pub uses: Uses,
}

fn is_used(it: Use) -> bool
    ensures { result ≡ is_used it }
{
    match it {
        Use::Free => false,
        Use::Given | Use::StandIn(_) => true,
    }
}

impl Descriptors for KnownDescriptors {
    type StandIn = Use;

    ghost uses = { λ s. Some s.uses };

    fn is_used(&self, standard: Standard) -> bool {
        is_used(match standard {
            Standard::Input => self.uses.input,
            Standard::Output => self.uses.output,
            Standard::Error => self.uses.error,
        })
    }

    fn open(&mut self, access: Access) -> io::Result<Use> {
        let stand_in = Use::StandIn(access);
        if !is_used(self.uses.input) {
            self.uses.input = stand_in;
        } else if !is_used(self.uses.output) {
            self.uses.output = stand_in;
        } else if !is_used(self.uses.error) {
            self.uses.error = stand_in;
        }
        Ok(stand_in)
    }
}
