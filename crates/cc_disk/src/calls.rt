// The calls of a file that a disk on it makes, and the rules that an honest kind of file keeps.

ghost use Rattle.std.specs.Prelude.{◌≡◌, ◌+◌, ◌≤◌, ◌++◌, Bool, IsTrue, List, ℕ, Option, ⊤, length, take, drop, replicate, IfOk, OnOk, OnErr, is_ok};
ghost use Rattle.cc_disk.specs.Images.{IsWritten, DiffersWithin, UnsettlesWithin, AddsNone, LeavesAlone};
ghost use Rattle.cc_disk.specs.File.{count_of, resized, TimePasses};

use crate::disk::DiskFault;

/// An open file, by the calls that a disk on it makes. Offsets and lengths are in bytes; offsets count from 0.
///
/// Each byte is settled or unsettled, and so is the length. A read or a write may move fewer bytes than asked. A write sets the
/// bytes that it moved and unsettles its range; if it reaches past the file's end, the file grows, and its length is unsettled. A
/// sync of the bytes settles every byte if the length is settled; a sync of the whole file settles the bytes and the length. While
/// the length is unsettled, a crash may leave any file. A call that fails with 35 (DeviceFailed) is one that the system refused.
///
/// These rules are the promise of an honest kind of file. No contract can say that the system's files keep them: they are premises
/// (`docs/DISK.md`).
pub trait FileCalls {
    /// Whether this kind of file keeps the rules.
    ghost honest: { Bool };

    /// The bytes that a read gives, up to the file's end.
    ghost content: { Self → List ℕ };

    /// Whether the length is settled.
    ghost settled_length: { Self → Bool };

    /// What a crash now may leave.
    ghost may_leave: { Self → List ℕ → Type 0 };

    /// The present moment, as a number that never decreases.
    ghost moment: { Self → ℕ };

    /// What a crash may have left at any moment since the given one, during a call or between two calls.
    ghost left_since: { Self → ℕ → List ℕ → Type 0 };

    /// The kind's own model of a read, if it has one: the file before, the offset, the buffer before, how many bytes were read or
    /// none if the call failed, and the buffer and the file afterwards.
    ghost reads: { Self → ℕ → List ℕ → Option ℕ → List ℕ → Self → Type 0 } = { λ _ _ _ _ _ _. ⊤ };

    /// The kind's own model of a write, if it has one: the file before, the offset, the bytes, how many of them were written or
    /// none if the call failed, and the file afterwards.
    ghost writes: { Self → ℕ → List ℕ → Option ℕ → Self → Type 0 } = { λ _ _ _ _ _. ⊤ };

    /// The kind's own model of a sync of the bytes, if it has one: the file before, whether the result is Ok, and the file
    /// afterwards.
    ghost syncs: { Self → Bool → Self → Type 0 } = { λ _ _ _. ⊤ };

    /// The kind's own model of a sync of the whole file, likewise.
    ghost syncs_all: { Self → Bool → Self → Type 0 } = { λ _ _ _. ⊤ };

    /// The kind's own model of asking for the length, if it has one: the file before, the length or none if the call failed, and
    /// the file afterwards.
    ghost measures: { Self → Option ℕ → Self → Type 0 } = { λ _ _ _. ⊤ };

    /// The kind's own model of setting the length, if it has one: the file before, the length, whether the result is Ok, and the
    /// file afterwards.
    ghost resizes: { Self → ℕ → Bool → Self → Type 0 } = { λ _ _ _ _. ⊤ };

    /// Reads into the buffer, from `offset` on, and returns how many bytes it has read: fewer than the buffer has if the file ends
    /// before, or if the system gives fewer. A failure (35) leaves arbitrary bytes in the buffer.
    fn read_some(&mut self, offset: u64, buffer: &mut [u8]) -> Result<usize, DiskFault>
        ensures model { reads self.old offset buffer.old (count_of result) buffer.new self.new }
        ensures read { IfOk result (λ count. IsTrue honest → take count buffer.new ≡ take count (drop offset (content self.old))) }
        ensures bytes { IsTrue honest → content self.new ≡ content self.old }
        ensures length { IsTrue honest → settled_length self.new ≡ settled_length self.old }
        ensures images { IsTrue honest → AddsNone (may_leave self.old) (may_leave self.new) }
        ensures time { TimePasses honest moment left_since may_leave self.old self.new };

    /// Writes the first of these bytes at `offset`, unsettled, and returns how many it has written. A write that begins past the
    /// file's end leaves arbitrary bytes. A failure (35) leaves arbitrary bytes, unsettled, in the range.
    fn write_some(&mut self, offset: u64, bytes: &[u8]) -> Result<usize, DiskFault>
        ensures model { writes self.old offset bytes.now (count_of result) self.new }
        ensures written { IfOk result (λ count. IsTrue honest → offset ≤ length (content self.old)
            → IsWritten (content self.old) offset (take count bytes.now) (content self.new)) }
        ensures leaves { OnErr result (IsTrue honest → offset + length bytes.now ≤ length (content self.old)
            → DiffersWithin offset (length bytes.now) (content self.old) (content self.new)) }
        ensures length { IsTrue honest → offset + length bytes.now ≤ length (content self.old)
            → settled_length self.new ≡ settled_length self.old }
        ensures images { IsTrue honest → offset + length bytes.now ≤ length (content self.old)
            → UnsettlesWithin offset (length bytes.now) (may_leave self.old) (may_leave self.new) }
        ensures time { TimePasses honest moment left_since may_leave self.old self.new };

    /// Settles every byte, if the length is settled. A failure (35) settles nothing and changes no byte.
    fn sync_bytes(&mut self) -> Result<(), DiskFault>
        ensures model { syncs self.old (is_ok result) self.new }
        ensures settled { OnOk result (IsTrue honest → IsTrue (settled_length self.old)
            → LeavesAlone (content self.old) (may_leave self.new)) }
        ensures bytes { IsTrue honest → content self.new ≡ content self.old }
        ensures length { IsTrue honest → settled_length self.new ≡ settled_length self.old }
        ensures images { IsTrue honest → AddsNone (may_leave self.old) (may_leave self.new) }
        ensures time { TimePasses honest moment left_since may_leave self.old self.new };

    /// Settles every byte and the length. A failure (35) settles nothing and changes no byte.
    fn sync_all(&mut self) -> Result<(), DiskFault>
        ensures model { syncs_all self.old (is_ok result) self.new }
        ensures settled { OnOk result (IsTrue honest → LeavesAlone (content self.old) (may_leave self.new)) }
        ensures kept { OnOk result (IsTrue honest → IsTrue (settled_length self.new)) }
        ensures bytes { IsTrue honest → content self.new ≡ content self.old }
        ensures length { OnErr result (IsTrue honest → settled_length self.new ≡ settled_length self.old) }
        ensures images { IsTrue honest → AddsNone (may_leave self.old) (may_leave self.new) }
        ensures time { TimePasses honest moment left_since may_leave self.old self.new };

    /// How many bytes the file has. Fails with 35.
    fn len(&mut self) -> Result<u64, DiskFault>
        ensures model { measures self.old (count_of result) self.new }
        ensures len { IfOk result (λ count. IsTrue honest → count ≡ length (content self.old)) }
        ensures bytes { IsTrue honest → content self.new ≡ content self.old }
        ensures length { IsTrue honest → settled_length self.new ≡ settled_length self.old }
        ensures images { IsTrue honest → AddsNone (may_leave self.old) (may_leave self.new) }
        ensures time { TimePasses honest moment left_since may_leave self.old self.new };

    /// Cuts the file to this length, or fills it up with zeros; its length is unsettled then. A failure (35) leaves arbitrary bytes.
    fn set_len(&mut self, size: u64) -> Result<(), DiskFault>
        ensures model { resizes self.old size (is_ok result) self.new }
        ensures sized { OnOk result (IsTrue honest → content self.new ≡ resized (content self.old) size) }
        ensures time { TimePasses honest moment left_since may_leave self.old self.new };

    /// The bytes that a read gives are an image.
    ghost bytes_are_image: { (file : Self) → IsTrue honest → may_leave file (content file) };

    /// The present moment counts among the moments since an earlier one.
    ghost counts_now: { (file : Self) (t : ℕ) (image : List ℕ) → IsTrue honest → t ≤ moment file → may_leave file image → left_since file t image };

    /// What a crash may have left since the present moment is what it may leave now.
    ghost only_now: { (file : Self) (image : List ℕ) → IsTrue honest → left_since file (moment file) image → may_leave file image };
}
