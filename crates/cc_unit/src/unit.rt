// A unit as the library keeps it.

ghost use Rattle.std.specs.Prelude.{◌≡◌, ◌≤◌, ◌↔◌, length, IsOk, IsTrue, MatchResult};

use cc_rv32::image::Image;
use std::marker::Model;

/// A source has at most this many bytes.
pub const MOST_SOURCE: usize = 65_536;

/// The source of a unit: any bytes, at most 65,536. A clause sees their list.
pub struct Source {
    bytes: Vec<u8>,
}

// This is written by hand, so that the crates above use this proof and need not show again how each part is dropped.
impl Drop for Source {
    fn drop(self) {
        let Source { bytes } = self;
    }
}

impl Model for Source {
    ghost use Rattle.std.specs.Prelude.{ℕ, List, length, ◌≤◌};

    ghost Value = { List ℕ };

    ghost view = { λ s. s.bytes.items };

    ghost invariant = { λ s. length s.bytes.items ≤ 65536 };
}

impl Source {
    /// Makes a source of these bytes. Returns the bytes in an `Err` if there are more than 65,536. Takes no memory.
    pub fn new(bytes: Vec<u8>) -> Result<Source, Vec<u8>>
        ensures fits { IsOk result ↔ (length bytes.items ≤ 65536) }
        ensures hands_back { MatchResult result (λ source. source ≡ bytes.items) (λ back. back ≡ bytes) }
    {
        if bytes.len() > MOST_SOURCE {
            return Err(bytes);
        }
        Ok(Source { bytes })
    }

    /// The bytes.
    pub fn bytes(&self) -> &[u8]
        ensures bytes { result.now ≡ self.now }
        ensures few { length self.now ≤ 65536 }
    {
        self.bytes.as_slice()
    }

    /// Gives up the source and returns its bytes. Takes no memory.
    pub fn into_bytes(self) -> Vec<u8>
        ensures { result.items ≡ self }
    {
        let Source { bytes } = self;
        bytes
    }
}

/// The certificate of a unit: any bytes, as many as fit in memory. A clause sees their list.
///
/// Nothing here says what these bytes mean: the store keeps them and does not look at them.
pub struct Certificate {
    bytes: Vec<u8>,
}

// This is written by hand, so that the crates above use this proof and need not show again how each part is dropped.
impl Drop for Certificate {
    fn drop(self) {
        let Certificate { bytes } = self;
    }
}

impl Model for Certificate {
    ghost use Rattle.std.specs.Prelude.{ℕ, List};

    ghost Value = { List ℕ };

    ghost view = { λ c. c.bytes.items };
}

impl Certificate {
    /// Makes a certificate of these bytes. Takes no memory.
    pub fn new(bytes: Vec<u8>) -> Certificate
        ensures { result ≡ bytes.items }
    {
        Certificate { bytes }
    }

    /// The bytes.
    pub fn bytes(&self) -> &[u8]
        ensures { result.now ≡ self.now }
    {
        self.bytes.as_slice()
    }

    /// Gives up the certificate and returns its bytes. Takes no memory.
    pub fn into_bytes(self) -> Vec<u8>
        ensures { result.items ≡ self }
    {
        let Certificate { bytes } = self;
        bytes
    }
}

/// A unit as the library keeps it: its source, the image that was made from it, and its certificate if it has one.
#[derive(Drop)]
pub struct StoredUnit {
    pub source: Source,
    pub image: Image,
    pub certificate: Option<Certificate>,
}

impl StoredUnit {
    /// Whether two units are the same: whether their sources, codes, globals and certificates are. A certificate without bytes is
    /// not the same as no certificate.
    pub fn is_same(&self, other: &StoredUnit) -> bool
        ensures { IsTrue result ↔ (self.now ≡ other.now) }
    {
        self.source.bytes() == other.source.bytes()
            && self.image.code.words() == other.image.code.words()
            && self.image.globals.words() == other.image.globals.words()
            && are_same(&self.certificate, &other.certificate)
    }
}

// Whether there are two certificates with the same bytes, or no certificate on either side.
fn are_same(one: &Option<Certificate>, other: &Option<Certificate>) -> bool
    ensures { IsTrue result ↔ (one.now ≡ other.now) }
{
    match (one, other) {
        (None, None) => true,
        (Some(one), Some(other)) => one.bytes() == other.bytes(),
        _ => false,
    }
}
