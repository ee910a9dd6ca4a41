// The names of units, and their order by bytes, in which the map keeps them.

ghost use Rattle.std.specs.Prelude.{◌≡◌, ◌↔◌, IsOk, IfOk, IsTrue, get_or, ◌≤◌};
ghost use Rattle.std.specs.Ordering.{nat_cmp, as_partial_cmp, eq_by_cmp};
ghost use Rattle.std.specs.Cmp.Lexicographic.{slice_cmp};
ghost use Rattle.std.specs.Cmp.{partial_order_from_own_ties};
ghost use Rattle.std.specs.Cmp.Rules.{comparing};
ghost use Rattle.std.proofs.Common.{rules};
ghost use Rattle.std.specs.List.{list_all};
ghost use Rattle.cc_library.specs.Name.{is_name, is_name_byte, is_small_letter};
ghost use Rattle.cc_library.specs.internal.Prefix.{prefix_number};

use crate::fault::NameFault;
use std::cmp::Ordering;
use std::marker::Model;

/// The largest number of bytes in a name.
pub const NAME_BYTES: usize = 32;

/// The name of a unit: 1 to 32 bytes, a small letter, then small letters, digits and `_`. Contracts see its bytes. The bytes are part
/// of the value, so a name takes no memory of its own.
#[derive(Clone)]
pub struct Name {
    bytes: [u8; 32],
    len: usize,
    // The first eight bytes of the name as one number, the first byte the highest, with zeros after a shorter name. Most names differ
    // in this number.
    prefix: u64,
}

// Written by hand, so that crates that use this one rely on this proof and need not prove again how each part is dropped.
impl Drop for Name {
    fn drop(self) {
        let Name { bytes, len, prefix } = self;
    }
}

impl Model for Name {
    ghost use Rattle.std.specs.Prelude.{◌≤◌, ℕ, List, take, IsTrue};
    ghost use Rattle.std.specs.Prelude.{◌≡◌};
    ghost use Rattle.cc_library.specs.Name.{is_name};
    ghost use Rattle.cc_library.specs.internal.Prefix.{prefix_number};

    ghost Value = { List ℕ };

    ghost view = { λ n. take n.len n.bytes };

    ghost invariant = { λ n. (n.len ≤ 32) × IsTrue (is_name (take n.len n.bytes)) × (n.prefix ≡ prefix_number 0 8 (take n.len n.bytes)) };
}

fn is_letter(byte: u8) -> bool
    ensures { result ≡ is_small_letter byte }
{
    b'a' <= byte && byte <= b'z'
}

fn is_later_byte(byte: u8) -> bool
    ensures { result ≡ is_name_byte byte }
{
    is_letter(byte) || (b'0' <= byte && byte <= b'9') || byte == b'_'
}

fn are_later_bytes(bytes: &[u8]) -> bool
    ensures { result ≡ list_all is_name_byte bytes.now }
{
    bytes.iter().all(|b| is_later_byte(*b))
}

fn are_name(bytes: &[u8]) -> bool
    ensures { result ≡ is_name bytes.now }
{
    match bytes {
        [] => false,
        [first, later @ ..] => { is_letter(*first) && later.len() < 32 && are_later_bytes(later) }
    }
}

// The byte at an index; 0 after the last byte.
fn byte_or_zero(bytes: &[u8], i: usize) -> u8
    ensures { result ≡ get_or bytes.now i 0 }
{
    if i < bytes.len() { bytes[i] } else { 0 }
}

// The first eight bytes as one number, the first byte the highest, with zeros if there are fewer.
fn prefix_of(bytes: &[u8]) -> u64
    ensures { result ≡ prefix_number 0 8 bytes.now }
{
    u64::from_be_bytes([
        byte_or_zero(bytes, 0),
        byte_or_zero(bytes, 1),
        byte_or_zero(bytes, 2),
        byte_or_zero(bytes, 3),
        byte_or_zero(bytes, 4),
        byte_or_zero(bytes, 5),
        byte_or_zero(bytes, 6),
        byte_or_zero(bytes, 7),
    ])
}

impl Name {
    /// The name with these bytes, or 33 `BadName` if they are not a name. This takes no memory.
    pub fn new(bytes: &[u8]) -> Result<Name, NameFault>
        ensures answers { IsOk result ↔ IsTrue (is_name bytes.now) }
        ensures answer { IfOk result (λ name. name ≡ bytes.now) }
    {
        if !are_name(bytes) {
            return Err(NameFault::BadName);
        }
        let mut kept = [0u8; 32];
        for (i, byte) in bytes.iter().enumerate() {
            kept[i] = *byte;
        }
        Ok(Name {
            bytes: kept,
            len: bytes.len(),
            prefix: prefix_of(bytes),
        })
    }

    /// The bytes of the name. This takes no memory.
    pub fn bytes(&self) -> &[u8]
        ensures bytes { result.now ≡ self.now }
        ensures name { IsTrue (is_name self.now) }
    {
        &self.bytes[..self.len]
    }
}

impl PartialEq for Name {
    ghost eq = { eq_by_cmp (slice_cmp nat_cmp) };

    ghost laws = { Prim.search (comparing, rules) };

    fn eq(&self, other: &Name) -> bool {
        self.cmp(other) == Ordering::Equal
    }
}

impl Eq for Name {
    ghost laws = { Prim.search (comparing, rules) };
}

impl PartialOrd for Name {
    ghost partial_cmp = { as_partial_cmp (slice_cmp nat_cmp) };

    ghost laws = { partial_order_from_own_ties (Prim.search (comparing, rules)) (Prim.search (comparing, rules)) };

    fn partial_cmp(&self, other: &Name) -> Option<Ordering> {
        Some(self.cmp(other))
    }
}

// Names are ordered byte by byte, from the first byte on.
impl Ord for Name {
    ghost cmp = { slice_cmp nat_cmp };

    ghost total = { Prim.search (comparing, rules) };

    ghost matches_partial_cmp = { Prim.search (comparing, rules) };

    ghost matches_eq = { Prim.search (comparing, rules) };

    fn cmp(&self, other: &Name) -> Ordering {
        let mine = self.bytes();
        let theirs = other.bytes();
        if self.prefix != other.prefix {
            return self.prefix.cmp(&other.prefix);
        }
        mine.cmp(theirs)
    }
}
