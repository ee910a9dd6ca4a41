// Numbers for clients, workers, calls and pieces.

/// A client's number, which may be any 64-bit number.
#[derive(Clone, Copy)]
pub struct ClientId {
    pub number: u64,
}

/// A worker's number, which may be any 64-bit number.
#[derive(Clone, Copy)]
pub struct WorkerId {
    pub number: u64,
}

/// The number of a client's call, which may be any 64-bit number.
#[derive(Clone, Copy)]
pub struct CallId {
    pub number: u64,
}

/// The index of a piece of a job, counted from 0.
#[derive(Clone, Copy)]
pub struct PartIndex {
    pub index: u32,
}
