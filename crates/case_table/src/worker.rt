// A worker of a case, and the connections that its gate gives.
use std::alloc::Global;

/// A connection.
#[derive(Drop)]
pub struct Connection {
    /// Its number, from 0, among all of the case.
    pub number: usize,
    /// The bytes that are sent over it.
    pub request: Vec<u8>,
    /// The places in them where a read ends.
    pub cuts: Vec<u64>,
    /// The number of the connection on which the response has to be written before this one is read a second time.
    pub after: Option<usize>,
}

/// A worker.
#[derive(Drop)]
pub struct Worker {
    /// The moments that its clock gives, in order; the last of them again and again, and 0 where there is none.
    pub clock: Vec<u64>,
    /// Its verifier's answers that fail.
    pub verifies: Vec<u64>,
    /// What its gate gives, in order: a connection, or none in a while.
    pub gives: Vec<Option<Connection>>,
    /// The gate's calls that fail.
    pub gates: Vec<u64>,
}

/// A worker whose gate gives nothing, and for whom nothing fails.
pub fn plain_worker(alloc: Global) -> Worker {
    Worker {
        clock: Vec::new(alloc),
        verifies: Vec::new(alloc),
        gives: Vec::new(alloc),
        gates: Vec::new(alloc),
    }
}
