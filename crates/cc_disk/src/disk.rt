// What every disk offers: its calls, and the rules that an honest kind of disk keeps.

ghost use Rattle.std.specs.Prelude.{◌≡◌, ◌+◌, ◌-◌, ◌^◌, ◌≤◌, min, Bool, IsTrue, List, ℕ, ⊤, length, take, drop, OnOk, OnErr, is_ok, if◌then◌else◌};
ghost use Rattle.cc_disk.specs.Images.{IsWritten, DiffersWithin, UnsettlesWithin, AddsNone, LeavesAlone, Elapses};

use thiserror::Error;

/// Why a call of a disk failed.
#[derive(Clone, Copy, Debug, Error)]
pub enum DiskFault {
    /// 35: the device failed during the call.
    #[error("DeviceFailed")]
    DeviceFailed,
}

impl DiskFault {
    ghost use Rattle.cc_disk.specs.Fault.{fault_number};

    /// The fault's number, 35.
    pub fn number(&self) -> u32
        ensures { result ≡ fault_number self.now }
    {
        match self {
            DiskFault::DeviceFailed => 35,
        }
    }
}

/// A fixed number of bytes that may lose power. Offsets and sizes are in bytes; offsets count from 0.
///
/// Each byte is settled or unsettled. A write sets its range and unsettles it; a sync that succeeds settles every byte. A crash
/// leaves an arbitrary byte at an unsettled offset, and at a settled one the byte that a read gives. In the middle of a write the
/// write's range is unsettled; in the middle of a sync nothing has been settled yet. A write that fails leaves arbitrary bytes,
/// unsettled, in its range. A read or a sync that fails changes no byte and settles nothing.
///
/// These rules are the promise of an honest kind of disk; the clauses below state them under `honest`. For any other kind, only
/// the size and the number of failures are known. An image is what a crash may leave.
///
/// A kind may say more about its calls than these rules do, in a model of its own: `reads`, `writes` and `syncs`. A disk built on
/// another disk says there which of its calls reach that disk.
pub trait Disk {
    /// How many bytes the disk has.
    ghost size: { Self → ℕ };

    /// How many of the disk's calls have failed, without an upper limit.
    ghost failures: { Self → ℕ };

    /// Whether this kind of disk keeps the rules.
    ghost honest: { Bool };

    /// The bytes that a read gives.
    ghost seen: { Self → List ℕ };

    /// What a crash now may leave.
    ghost may_leave: { Self → List ℕ → Type 0 };

    /// The present moment, as a number that never decreases.
    ghost moment: { Self → ℕ };

    /// What a crash may have left at any moment since the given one, during a call or between two calls.
    ghost left_since: { Self → ℕ → List ℕ → Type 0 };

    /// The kind's own model of a read, if it has one: the disk before, the offset, the buffer before, whether the result is Ok,
    /// and the buffer and the disk afterwards.
    ghost reads: { Self → ℕ → List ℕ → Bool → List ℕ → Self → Type 0 } = { λ _ _ _ _ _ _. ⊤ };

    /// The kind's own model of a write, if it has one: the disk before, the offset, the bytes, whether the result is Ok, and the
    /// disk afterwards.
    ghost writes: { Self → ℕ → List ℕ → Bool → Self → Type 0 } = { λ _ _ _ _ _. ⊤ };

    /// The kind's own model of a sync, if it has one: the disk before, whether the result is Ok, and the disk afterwards.
    ghost syncs: { Self → Bool → Self → Type 0 } = { λ _ _ _. ⊤ };

    /// How many bytes the disk has.
    fn size(&self) -> usize
        ensures { result ≡ size self.now };

    /// Fills the buffer with the bytes that begin at `offset`. A failure (35) leaves arbitrary bytes in the buffer.
    fn read_at(&mut self, offset: usize, buffer: &mut [u8]) -> Result<(), DiskFault>
        requires { offset + length buffer.old ≤ size self.old }
        ensures model { reads self.old offset buffer.old (is_ok result) buffer.new self.new }
        ensures size { size self.new ≡ size self.old }
        ensures failures { failures self.new ≡ (if is_ok result then failures self.old else failures self.old + 1) }
        ensures read { OnOk result (IsTrue honest → buffer.new ≡ take (length buffer.old) (drop offset (seen self.old))) }
        ensures seen { IsTrue honest → seen self.new ≡ seen self.old }
        ensures images { IsTrue honest → AddsNone (may_leave self.old) (may_leave self.new) }
        ensures time { IsTrue honest
            → Elapses (moment self.old) (moment self.new) (left_since self.old) (left_since self.new) (may_leave self.new) };

    /// Writes these bytes at `offset`, unsettled. A failure (35) leaves arbitrary bytes, unsettled, in the range.
    fn write_at(&mut self, offset: usize, bytes: &[u8]) -> Result<(), DiskFault>
        requires { offset + length bytes.now ≤ size self.old }
        ensures model { writes self.old offset bytes.now (is_ok result) self.new }
        ensures size { size self.new ≡ size self.old }
        ensures failures { failures self.new ≡ (if is_ok result then failures self.old else failures self.old + 1) }
        ensures written { OnOk result (IsTrue honest → IsWritten (seen self.old) offset bytes.now (seen self.new)) }
        ensures leaves { OnErr result (IsTrue honest → DiffersWithin offset (length bytes.now) (seen self.old) (seen self.new)) }
        ensures images { IsTrue honest → UnsettlesWithin offset (length bytes.now) (may_leave self.old) (may_leave self.new) }
        ensures time { IsTrue honest
            → Elapses (moment self.old) (moment self.new) (left_since self.old) (left_since self.new) (may_leave self.new) };

    /// Settles every byte. A failure (35) settles nothing and changes no byte.
    fn sync(&mut self) -> Result<(), DiskFault>
        ensures model { syncs self.old (is_ok result) self.new }
        ensures size { size self.new ≡ size self.old }
        ensures failures { failures self.new ≡ (if is_ok result then failures self.old else failures self.old + 1) }
        ensures settled { OnOk result (IsTrue honest → LeavesAlone (seen self.old) (may_leave self.new)) }
        ensures seen { IsTrue honest → seen self.new ≡ seen self.old }
        ensures images { IsTrue honest → AddsNone (may_leave self.old) (may_leave self.new) }
        ensures time { IsTrue honest
            → Elapses (moment self.old) (moment self.new) (left_since self.old) (left_since self.new) (may_leave self.new) };

    /// How many calls have failed, or 2^64 - 1 if there were more.
    fn failures(&self) -> u64
        ensures { result ≡ min (failures self.now) (2 ^ 64 - 1) };

    /// A read gives as many bytes as the disk has.
    ghost has_size: { (disk : Self) → IsTrue honest → length (seen disk) ≡ size disk };

    /// The bytes that a read gives are an image.
    ghost seen_is_image: { (disk : Self) → IsTrue honest → may_leave disk (seen disk) };

    /// The present moment counts among the moments since an earlier one.
    ghost counts_now: { (disk : Self) (t : ℕ) (image : List ℕ) → IsTrue honest → t ≤ moment disk → may_leave disk image → left_since disk t image };

    /// What a crash may have left since the present moment is what it may leave now.
    ghost only_now: { (disk : Self) (image : List ℕ) → IsTrue honest → left_since disk (moment disk) image → may_leave disk image };
}
