// Units to submit, and a gate that holds a job.

use cc_emit::Piece;
use cc_link::typed_unit;
use cc_pool::Gate;
use cc_types::TypedUnit;
use std::alloc::{AllocError, Global};
use std::sync::Arc;
use std::sync::atomic::{AtomicU64, Ordering};
use std::test::Fail;
use std::thread;

/// A text with one function, and one with two.
pub const ONE: &[u8] = b"int main(void){return 1;}";

pub const TWO: &[u8] = b"int f(int x){return x;}int main(void){return f(2);}";

/// How often a gate yields before it gives up.
const TURNS: u64 = 20_000_000;

/// A unit of a text.
pub fn unit(alloc: Global, text: &[u8]) -> Result<Arc<TypedUnit>, Fail> {
    Ok(typed_unit(alloc, text)?)
}

/// Whether these are exactly this many pieces of a text, one for each function, in order.
pub fn are_of(pieces: &[Piece], text: &[u8], count: usize) -> bool {
    let mut right = pieces.len() == count;
    for (at, piece) in pieces.iter().enumerate() {
        right = right && piece.function() == at && piece.unit().text() == text;
    }
    right
}

/// Holds the first piece of job 0 that comes, until enough other pieces have passed or the turns are over, and records whether it was let
/// go before that.
#[derive(Drop)]
pub struct Hold {
    least: u64,
    // How many pieces of job 0 have come.
    came: AtomicU64,
    others: Arc<AtomicU64>,
    met: Arc<AtomicU64>,
}

/// How many pieces that were not held have passed, and how many holds ended before their limit.
#[derive(Drop)]
pub struct Signs {
    pub others: Arc<AtomicU64>,
    pub met: Arc<AtomicU64>,
}

impl Hold {
    /// A gate that holds a piece until this many others have passed, and the signs that it gives.
    pub fn new(alloc: Global, least: u64) -> Result<(Hold, Signs), AllocError> {
        let others = Arc::new(alloc, AtomicU64::new(0))?;
        let met = Arc::new(alloc, AtomicU64::new(0))?;
        let signs = Signs {
            others: Arc::try_clone(&others)?,
            met: Arc::try_clone(&met)?,
        };
        let hold = Hold {
            least,
            came: AtomicU64::new(0),
            others,
            met,
        };
        Ok((hold, signs))
    }
}

impl Gate for Hold {
    fn before(&self, job: u64, _piece: u32) {
        if job > 0 || self.came.fetch_add(1, Ordering::SeqCst) > 0 {
            self.others.fetch_add(1, Ordering::SeqCst);
            return;
        }
        for _ in 0..TURNS {
            if self.others.load(Ordering::SeqCst) >= self.least {
                self.met.fetch_add(1, Ordering::SeqCst);
                return;
            }
            thread::yield_now();
        }
    }
}
