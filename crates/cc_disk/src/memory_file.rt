// The file in memory: the model of a file, call by call, with a call that goes wrong on purpose.

ghost use Rattle.std.specs.Prelude.{true, false, ◌≡◌, ◌+◌, ◌≤◌, ◌++◌, ◌∷◌, [], ◌-◌, None, Some, min, option_map, IsTrue, length, take, drop, map, if◌then◌else◌, IsOk, IfOk, OnOk, OnErr};
ghost use Rattle.cc_disk.specs.Model.{bytes_of, new_cells, settled, unsettled, written, synced};
ghost use Rattle.cc_disk.specs.Images.{IsWritten};
ghost use Rattle.cc_disk.specs.Past.{LeftSince};
ghost use Rattle.cc_disk.specs.File.{resized};
ghost use Rattle.cc_disk.specs.Fuse.{after_call};
ghost use Rattle.cc_disk.specs.internal.Laws.{only_now_left, bytes_are_image};
ghost use Rattle.std.proofs.Common.{inl};

use crate::calls::FileCalls;
use crate::cells::Cells;
use crate::disk::DiskFault;
use crate::fuse::one_less;
use crate::history::History;
use std::alloc::{AllocError, Global};

/// How a call of a file in memory goes wrong.
#[derive(Clone, Copy, Debug)]
pub enum Trouble {
    /// The call is refused, and changes nothing.
    Refused,
    /// A read or a write moves half of the bytes, rounded down. Any other call is refused.
    Short,
}

/// What a file in memory has: its cells, and whether its length is settled.
#[derive(Drop)]
pub struct FileState {
    cells: Cells,
    settled_length: bool,
}

impl FileState {
    // Cuts the file to this length, or fills it up with zeros. Fails with 35 if memory runs out, and changes nothing then.
    fn resize(&mut self, alloc: Global, size: usize) -> Result<(), DiskFault>
        ensures cells { OnOk result (self.new.cells ≡ map unsettled (resized (bytes_of self.old.cells) size)) }
        ensures length { OnOk result (self.new.settled_length ≡ false) }
        ensures same { OnErr result (self.new ≡ self.old) }
    {
        match self.cells.resized(alloc, size) {
            Ok(cells) => {
                self.cells = cells;
                self.settled_length = false;
                Ok(())
            }
            Err(AllocError) => Err(DiskFault::DeviceFailed),
        }
    }
}

impl FileState {
    // Puts these bytes at `offset`, unsettled. If they reach past the end, the file grows first, and its length is unsettled; only
    // then can it fail (35), if memory runs out.
    fn put(&mut self, alloc: Global, offset: usize, bytes: &[u8]) -> Result<(), DiskFault>
        ensures written { OnOk result (offset ≤ length self.old.cells
            → IsWritten (bytes_of self.old.cells) offset bytes.now (bytes_of self.new.cells)) }
        ensures inside { offset + length bytes.now ≤ length self.old.cells → IsOk result
            × (self.new.cells ≡ written self.old.cells offset bytes.now) × (self.new.settled_length ≡ self.old.settled_length) }
    {
        let len = self.cells.len();
        let Some(end) = offset.checked_add(bytes.len()) else {
            return Err(DiskFault::DeviceFailed);
        };
        if len < end {
            return self.put_beyond(alloc, offset, bytes, end);
        }
        self.cells.write(offset, bytes);
        Ok(())
    }

    // Puts these bytes at `offset`, so that they end at `end`, past the file's end. Fails with 35 if memory runs out.
    fn put_beyond(
        &mut self,
        alloc: Global,
        offset: usize,
        bytes: &[u8],
        end: usize,
    ) -> Result<(), DiskFault>
        requires { end ≡ offset + length bytes.now }
        ensures { OnOk result (self.new.cells ≡ written (map unsettled (resized (bytes_of self.old.cells) end)) offset bytes.now) }
    {
        self.resize(alloc, end)?;
        self.cells.write(offset, bytes);
        Ok(())
    }
}

/// A file in memory, for tests. It is honest. Its calls fail if memory runs out while it grows, and one call may go wrong on purpose.
pub struct MemoryFile {
    alloc: Global,
    state: FileState,
    // The states before each call that may change the file, which only contracts read.
    past: History<FileState>,
    // How many calls come before the one that goes wrong; `None` if none does any more.
    ahead: Option<u64>,
    trouble: Trouble,
}

// Written by hand, so that crates that use this one rely on this proof and need not prove again how each part is dropped.
impl Drop for MemoryFile {
    fn drop(self) {
        let MemoryFile {
            alloc: _,
            state,
            past,
            ahead,
            trouble,
        } = self;
    }
}

impl MemoryFile {
    ghost use Rattle.cc_disk.specs.FileModel.{file_crashed, moved, is_done_next};

    /// Makes a file of these bytes, all settled. None of its calls goes wrong. Fails only if memory runs out (40).
    pub fn new(alloc: Global, bytes: &[u8]) -> Result<MemoryFile, AllocError>
        ensures cells { IfOk result (λ file. file.state.cells ≡ map settled bytes.now) }
        ensures length { IfOk result (λ file. file.state.settled_length ≡ true) }
        ensures past { IfOk result (λ file. file.past.items ≡ []) }
        ensures ahead { IfOk result (λ file. file.ahead ≡ None) }
    {
        Ok(MemoryFile {
            alloc,
            state: FileState {
                cells: Cells::of_bytes(alloc, bytes)?,
                settled_length: true,
            },
            past: History::new(),
            ahead: None,
            trouble: Trouble::Refused,
        })
    }

    /// Returns the file whose call after this many goes wrong in this way.
    pub fn failing(self, passes: u64, trouble: Trouble) -> MemoryFile
        ensures state { result.state ≡ self.state }
        ensures past { result.past ≡ self.past }
        ensures ahead { result.ahead ≡ Some passes }
        ensures trouble { result.trouble ≡ trouble }
    {
        let mut file = self;
        file.ahead = Some(passes);
        file.trouble = trouble;
        file
    }

    /// Returns the file after a crash that leaves, at each unsettled offset `i`, byte `i` of the choice, or 0 past the choice's end.
    /// If the length is unsettled, the choice is the whole file that is left. All of it is settled, and no call goes wrong. Fails
    /// only if memory runs out (40).
    pub fn crash(&self, choice: &[u8]) -> Result<MemoryFile, AllocError>
        ensures cells { IfOk result (λ file. file.state.cells ≡ file_crashed self.now.state choice.now) }
        ensures length { IfOk result (λ file. file.state.settled_length ≡ true) }
        ensures past { IfOk result (λ file. file.past.items ≡ []) }
        ensures ahead { IfOk result (λ file. file.ahead ≡ None) }
    {
        if !self.state.settled_length {
            return MemoryFile::new(self.alloc, choice);
        }
        Ok(MemoryFile {
            alloc: self.alloc,
            state: FileState {
                cells: self.state.cells.crash(self.alloc, choice)?,
                settled_length: true,
            },
            past: History::new(),
            ahead: None,
            trouble: Trouble::Refused,
        })
    }

    // Counts one call, and returns how many bytes it moves of those wanted, or `None` if it is refused.
    fn counted(&mut self, wanted: usize) -> Option<usize>
        ensures moved { result ≡ moved self.old.ahead self.old.trouble wanted }
        ensures state { self.new.state ≡ self.old.state }
        ensures past { self.new.past.items ≡ self.old.past.items ++ self.old.state ∷ [] }
        ensures ahead { self.new.ahead ≡ after_call self.old.ahead }
    {
        self.past = self.past.and(&self.state);
        let ahead = self.ahead;
        self.ahead = one_less(ahead);
        match ahead {
            Some(0) => match self.trouble {
                Trouble::Refused => None,
                Trouble::Short => Some(wanted / 2),
            },
            _ => Some(wanted),
        }
    }

    // Counts one call that is done or refused, and returns whether it is done.
    fn is_done(&mut self) -> bool
        ensures moved { result ≡ is_done_next self.old.ahead }
        ensures state { self.new.state ≡ self.old.state }
        ensures past { self.new.past.items ≡ self.old.past.items ++ self.old.state ∷ [] }
        ensures ahead { self.new.ahead ≡ after_call self.old.ahead }
    {
        let ahead = self.ahead;
        self.past = self.past.and(&self.state);
        self.ahead = one_less(ahead);
        !matches!(ahead, Some(0))
    }
}

impl FileCalls for MemoryFile {
    ghost use Rattle.cc_disk.specs.FileModel.{FileLeaves, moved, is_done_next};

    ghost honest = { true };

    ghost content = { λ file. bytes_of file.state.cells };

    ghost settled_length = { λ file. file.state.settled_length };

    ghost may_leave = { λ file image. FileLeaves file.state image };

    ghost moment = { λ file. length file.past.items };

    ghost left_since = { λ file t image. LeftSince FileLeaves file.state file.past.items t image };

    ghost reads = { λ old offset buffer answer after new. (new.ahead ≡ after_call old.ahead) × (new.state ≡ old.state)
        × (answer ≡ option_map (λ count. min count (length old.state.cells - offset)) (moved old.ahead old.trouble (length buffer))) };

    ghost writes = { λ old offset bytes answer new. (new.ahead ≡ after_call old.ahead)
        × (offset + length bytes ≤ length old.state.cells → answer ≡ moved old.ahead old.trouble (length bytes)) };

    ghost syncs = { λ old ok new. (new.ahead ≡ after_call old.ahead) × (ok ≡ is_done_next old.ahead)
        × (new.state ≡ (if ok then record { cells = synced old.state.cells; settled_length = old.state.settled_length } else old.state)) };

    ghost syncs_all = { λ old ok new. (new.ahead ≡ after_call old.ahead) × (ok ≡ is_done_next old.ahead)
        × (new.state ≡ (if ok then record { cells = synced old.state.cells; settled_length = true } else old.state)) };

    ghost measures = { λ old answer new. (new.ahead ≡ after_call old.ahead) × (new.state ≡ old.state)
        × (answer ≡ (if is_done_next old.ahead then Some (length old.state.cells) else None)) };

    ghost resizes = { λ old size ok new. (new.ahead ≡ after_call old.ahead) × (IsTrue ok → IsTrue (is_done_next old.ahead)) };

    fn read_some(&mut self, offset: u64, buffer: &mut [u8]) -> Result<usize, DiskFault> {
        let Some(asked) = self.counted(buffer.len()) else {
            return Err(DiskFault::DeviceFailed);
        };
        let len = self.state.cells.len();
        if offset >= len as u64 {
            return Ok(0);
        }
        let start = offset as usize;
        let count = asked.min(len - start);
        self.state.cells.read(start, &mut buffer[..count]);
        Ok(count)
    }

    fn write_some(&mut self, offset: u64, bytes: &[u8]) -> Result<usize, DiskFault> {
        let Some(count) = self.counted(bytes.len()) else {
            return Err(DiskFault::DeviceFailed);
        };
        self.state
            .put(self.alloc, offset as usize, &bytes[..count])?;
        Ok(count)
    }

    fn sync_bytes(&mut self) -> Result<(), DiskFault> {
        if !self.is_done() {
            return Err(DiskFault::DeviceFailed);
        }
        self.state.cells.settle();
        Ok(())
    }

    fn sync_all(&mut self) -> Result<(), DiskFault> {
        if !self.is_done() {
            return Err(DiskFault::DeviceFailed);
        }
        self.state.cells.settle();
        self.state.settled_length = true;
        Ok(())
    }

    fn len(&mut self) -> Result<u64, DiskFault> {
        if !self.is_done() {
            return Err(DiskFault::DeviceFailed);
        }
        Ok(self.state.cells.len() as u64)
    }

    fn set_len(&mut self, size: u64) -> Result<(), DiskFault> {
        if !self.is_done() {
            return Err(DiskFault::DeviceFailed);
        }
        self.state.resize(self.alloc, size as usize)
    }

    ghost bytes_are_image = { λ file h settled. bytes_are_image file.state.cells };

    ghost counts_now = { λ file t image h le now. inl now };

    ghost only_now = { λ file image h left. only_now_left FileLeaves file.state file.past.items image left };
}
