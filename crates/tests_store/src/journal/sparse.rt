// A disk of any size that keeps only a few of its bytes. It is not honest: nothing is promised about what it reads.

ghost use Rattle.std.specs.Prelude.{false, ◌≡◌, [], ⊤};
ghost use Rattle.std.proofs.lemmas.Bool.{false≢true};

use cc_disk::{Disk, DiskFault};

#[derive(Drop)]
pub struct SparseDisk {
    kept: Vec<(usize, u8)>,
    size: usize,
}

impl SparseDisk {
    /// A disk of this size with these bytes at these offsets. A read gives 0 for every other byte.
    pub fn new(kept: Vec<(usize, u8)>, size: usize) -> SparseDisk {
        SparseDisk { kept, size }
    }

    /// Its bytes.
    pub fn kept(&self) -> &[(usize, u8)] {
        &self.kept
    }
}

// Fills the buffer with the bytes from this offset on, 0 for each that is not kept.
fn recall(kept: &[(usize, u8)], offset: usize, buffer: &mut [u8]) {
    buffer.fill(0);
    for (at, byte) in kept {
        let i = at.wrapping_sub(offset);
        if i < buffer.len() {
            buffer[i] = *byte;
        }
    }
}

// Sets those of the written bytes that the disk keeps.
fn keep(kept: &mut [(usize, u8)], offset: usize, bytes: &[u8]) {
    for (at, byte) in kept.iter_mut() {
        let i = at.wrapping_sub(offset);
        if i < bytes.len() {
            *byte = bytes[i];
        }
    }
}

impl Disk for SparseDisk {
    ghost size = { λ disk. disk.size };

    ghost failures = { λ _. 0 };

    ghost honest = { false };

    ghost seen = { λ _. [] };

    ghost may_leave = { λ _ _. ⊤ };

    ghost moment = { λ _. 0 };

    ghost left_since = { λ _ _ _. ⊤ };

    fn size(&self) -> usize {
        self.size
    }

    fn read_at(&mut self, offset: usize, buffer: &mut [u8]) -> Result<(), DiskFault> {
        recall(&self.kept, offset, buffer);
        Ok(())
    }

    fn write_at(&mut self, offset: usize, bytes: &[u8]) -> Result<(), DiskFault> {
        keep(&mut self.kept, offset, bytes);
        Ok(())
    }

    fn sync(&mut self) -> Result<(), DiskFault> {
        Ok(())
    }

    fn failures(&self) -> u64 {
        0
    }

    ghost has_size = { λ disk h. absurd (false≢true h) };

    ghost seen_is_image = { λ disk h. absurd (false≢true h) };

    ghost counts_now = { λ disk t image h le now. absurd (false≢true h) };

    ghost only_now = { λ disk image h left. absurd (false≢true h) };
}
