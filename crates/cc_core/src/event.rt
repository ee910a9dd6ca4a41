// What may happen: clients hand in jobs, workers take pieces, a commit and a rewrite advance step by step, the device fails, the disk
// crashes.

use crate::command::Request;
use crate::ids::{CallId, ClientId, PartIndex, WorkerId};
use crate::sequence::Sequence;

/// What may happen.
#[derive(Drop)]
pub enum Event<P> {
    /// A client without a job hands one in. Fields: client, call, request.
    Submit(ClientId, CallId, Request),
    /// An idle worker takes a waiting piece. Fields: worker, client, piece.
    Take(WorkerId, ClientId, PartIndex),
    /// A worker hands in the piece that it took. Fields: worker, piece.
    Done(WorkerId, P),
    /// A worker refuses the piece that it took. Fields: worker, number.
    Refuse(WorkerId, u32),
    /// A client's job whose pieces have all been answered begins its commit.
    Begin(ClientId),
    /// The first device step of the commit: the record's body is written, with the closed gate after it.
    WriteBody,
    /// The second device step of the commit: the body and that gate are synced.
    SyncBody,
    /// The third device step of the commit: the record's own gate is written as open.
    WriteGate,
    /// The fourth device step of the commit: the record's own gate is synced.
    SyncGate,
    /// The first device step of a rewrite, between two commits: the records of the map, one Add per name, are written to the area
    /// that is not in use, with a closed gate after them.
    RewriteAll,
    /// The second device step of a rewrite: those records and that gate are synced.
    SyncAll,
    /// The third device step of a rewrite: the area byte is written.
    WriteArea,
    /// The fourth device step of a rewrite: the area byte is synced.
    SyncArea,
    /// The device step that is due in a commit or in a rewrite fails.
    Fail,
    /// The reply is given to the client whose command is in commit, after all four steps.
    Ack(ClientId),
    /// The disk crashes. At each unsettled offset `i` it is left with byte `i` of this choice, or with 0 if the choice is shorter. A
    /// crash after the event of a write stands for a crash within that write, and a crash before the event of a sync for a crash
    /// within that sync.
    Crash(Sequence<u8>),
    /// The library is opened after a crash.
    Recover,
}
