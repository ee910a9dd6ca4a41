// The real system. No contract says what its descriptors are used for.

ghost use Rattle.std.specs.Prelude.{None};

use crate::descriptors::{Access, Descriptors, Standard};
use std::fs::{File, OpenOptions};
use std::io;
use std::os::fd::AsFd;

/// The system's error number for a call on a descriptor that is not in use (EBADF).
const NOT_IN_USE: i32 = 9;

/// The real system.
#[derive(Clone, Copy, Drop)]
pub struct System {
    pub rt: HostRuntime,
}

// Whether a descriptor is in use. Copying one that is in use may fail for lack of resources, but not with
// `NOT_IN_USE`.
fn is_used<F: AsFd>(file: &F) -> bool {
    match file.as_fd().try_clone_to_owned() {
        Ok(_) => true,
        Err(error) => error.raw_os_error() != Some(NOT_IN_USE),
    }
}

impl Descriptors for System {
    type StandIn = File;

    ghost uses = { λ _. None };

    fn is_used(&self, standard: Standard) -> bool {
        match standard {
            Standard::Input => is_used(&self.rt.stdin()),
            Standard::Output => is_used(&self.rt.stdout()),
            Standard::Error => is_used(&self.rt.stderr()),
        }
    }

    // A directory can be neither read as a file nor written, so it also serves as a stand-in if there is no
    // `/dev/null`.
    fn open(&mut self, access: Access) -> io::Result<File> {
        let mut how = OpenOptions::new();
        match access {
            Access::Reading => how.read(true),
            Access::Writing => how.write(true),
        };
        match how.open(&self.rt, "/dev/null") {
            Ok(file) => Ok(file),
            Err(_) => File::open(&self.rt, "/"),
        }
    }
}
