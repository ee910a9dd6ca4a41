// What a client has handed in, with its pieces, and which piece a worker has taken.

ghost use Rattle.std.specs.Prelude.{◌≡◌, IfOk, map, replicate};
ghost use Rattle.std.specs.FinMap as table;
ghost use Rattle.cc_core.specs.Job.{is_there, all_there, first_refused, made_pieces, with_piece};
ghost use Rattle.cc_core.specs.declared.job.Job.{Job};
ghost use Rattle.cc_core.specs.declared.job.Progress.TheVariants.{Waiting};

use crate::command::Request;
use crate::ids::{CallId, ClientId, PartIndex};
use crate::sequence::Sequence;
use crate::table::Table;
use std::alloc::{AllocError, Global};

/// How far a piece of a job has come.
#[derive(Drop)]
pub enum Progress<P> {
    /// No worker has taken the piece.
    Waiting,
    /// A worker has taken the piece and not answered it yet.
    Taken,
    /// A worker made this piece.
    Made(P),
    /// A worker refused the piece with this number.
    Refused(u32),
}

/// What a client handed in: the number of its call, what it asks for, the number that refuses its source (if one does), and how
/// far each piece has come.
#[derive(Drop)]
pub struct Job<P> {
    pub call: CallId,
    pub request: Request,
    pub refusal: Option<u32>,
    pub pieces: Sequence<Progress<P>>,
}

/// What a worker has taken: a piece of a client's job.
#[derive(Clone, Copy)]
pub struct Work {
    pub client: ClientId,
    pub part: PartIndex,
}

impl<P> Progress<P> {
    fn is_there(&self) -> bool
        ensures { result ≡ is_there self.now }
    {
        match self {
            Progress::Waiting | Progress::Taken => false,
            Progress::Made(_) | Progress::Refused(_) => true,
        }
    }
}

// Whether a worker has answered every piece.
pub(crate) fn are_all_there<P>(pieces: &[Progress<P>]) -> bool
    ensures { result ≡ all_there pieces.now }
{
    pieces.iter().all(|progress| progress.is_there())
}

// The number that refuses the first of the refused pieces.
pub(crate) fn least_refused<P>(pieces: &[Progress<P>]) -> Option<u32>
    ensures { result ≡ first_refused pieces.now }
{
    for progress in pieces {
        if let Progress::Refused(number) = progress {
            return Some(*number);
        }
    }
    None
}

// The pieces that were made, in order.
pub(crate) fn all_made<P>(alloc: Global, pieces: &[Progress<P>]) -> Result<Vec<&P>, AllocError>
    ensures { IfOk result (λ made. map (λ piece. piece.now) made.items ≡ made_pieces pieces.now) }
{
    let mut made = Vec::new(alloc);
    for progress in pieces {
        if let Progress::Made(piece) = progress {
            made.push(piece)?;
        }
    }
    Ok(made)
}

// A list of `count` waiting pieces.
pub(crate) fn all_waiting<P: Drop>(
    alloc: Global,
    count: u32,
) -> Result<Sequence<Progress<P>>, AllocError>
    ensures { IfOk result (λ pieces. pieces ≡ replicate count Waiting) }
{
    let mut pieces = Sequence::new(Vec::new(alloc));
    for _ in 0..count {
        pieces.push(Progress::Waiting)?;
    }
    Ok(pieces)
}

// Sets how far one piece of a client's job has come.
pub(crate) fn set_progress<P: Drop>(
    jobs: &mut Table<Job<P>>,
    client: ClientId,
    part: PartIndex,
    progress: Progress<P>,
)
    ensures { (job : Job P) → table.get jobs.old client.number ≡ Some job → jobs.new ≡ table.insert jobs.old client.number (with_piece job part progress) }
{
    if let Some(job) = jobs.values.get_mut(&client.number) {
        job.pieces.set(part.index as usize, progress);
    }
}
