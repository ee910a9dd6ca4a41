// What the crate needs from a system for the descriptors 0 to 2.

ghost use Rattle.std.specs.Prelude.{◌≡◌, Option, Some, IfSome, OnOk, OnErr};
ghost use Rattle.cc_descriptors.specs.Uses.{is_used, opened, use_of};

use std::io;

/// One of the three descriptors.
#[derive(Clone, Copy, Debug, Drop, PartialEq, Eq)]
pub enum Standard {
    /// Descriptor 0, standard input.
    Input,
    /// Descriptor 1, standard output.
    Output,
    /// Descriptor 2, standard error.
    Error,
}

/// What a stand-in may be used for; any other use fails.
#[derive(Clone, Copy, Debug, Drop, PartialEq, Eq)]
pub enum Access {
    Reading,
    Writing,
}

/// What a descriptor is used for.
#[derive(Clone, Copy, Debug, Drop, PartialEq, Eq)]
pub enum Use {
    /// Nothing: the next file to be opened gets it, unless a lower descriptor is free.
    Free,
    /// A file that the process was started with.
    Given,
    /// A stand-in.
    StandIn(Access),
}

/// What the three descriptors are used for.
#[derive(Clone, Copy, Debug, Drop, PartialEq, Eq)]
pub struct Uses {
    pub input: Use,
    pub output: Use,
    pub error: Use,
}

/// A system's descriptors.
pub trait Descriptors {
    ghost use Rattle.cc_descriptors.specs.declared.descriptors.Uses.{Uses};

    /// What keeps a descriptor in use as long as it exists.
    type StandIn: Drop;

    /// What the three are used for, if that is known.
    ghost uses: { Self → Option Uses };

    /// Whether a descriptor is in use.
    fn is_used(&self, standard: Standard) -> bool
        ensures { IfSome (uses self.now) (λ it. result ≡ is_used (use_of standard it)) };

    /// Opens a stand-in, which gets the lowest free descriptor.
    fn open(&mut self, access: Access) -> io::Result<Self::StandIn>
        ensures opened { OnOk result (IfSome (uses self.old) (λ it. uses self.new ≡ Some (opened access it))) }
        ensures refused { OnErr result (uses self.new ≡ uses self.old) };
}
