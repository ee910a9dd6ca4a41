// How a session, or serving, ended.

/// How a session, or serving, ended.
#[derive(Clone, Copy, Drop, PartialEq, Eq)]
pub enum SessionEnd {
    /// The script, or each spool, was done to its end, and the service was ended.
    Finished,
    /// The number of the first fault: one of the opening, 30, one of the script (51 to 54; only in `session`), or 40 of the
    /// service's end. Or 39, regardless of earlier faults: the clients' receipts are not those of the service's history.
    Fault(u32),
}
