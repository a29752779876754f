// A case: what a run is given, what stands outside of it, and what it is to give.
use crate::worker::{Worker, plain_worker};
use std::alloc::{AllocError, Global};

/// How what stands outside a run behaves: where reads end, how much a sink takes, and the numbers of the calls that
/// fail, from 1.
#[derive(Drop)]
pub struct Outer {
    /// The places in the input where a read ends.
    pub cuts: Vec<u64>,
    /// The reads that fail.
    pub reads: Vec<u64>,
    /// The writes that fail.
    pub writes: Vec<u64>,
    /// The writes to the errors sink that fail.
    pub errors: Vec<u64>,
    /// The signer's answers that fail.
    pub signs: Vec<u64>,
    /// The workers, each with its clock, its verifier and its gate.
    pub workers: Vec<Worker>,
    /// What the link gives, in order; the last of them again and again.
    pub replies: Vec<Vec<u8>>,
    /// The link's exchanges that fail.
    pub exchanges: Vec<u64>,
    /// How many bytes a write takes at most.
    pub piece: u64,
    /// How many bytes the sink has room for.
    pub room: usize,
    /// How many bytes the errors sink has room for.
    pub errors_room: usize,
}

/// A case.
#[derive(Drop)]
pub struct Case {
    /// Its name. None is the name of a case that has not begun.
    pub name: String,
    /// Whether it runs a mirror, and not an authority's program.
    pub mirror: bool,
    /// The words of the command line.
    pub words: Vec<String>,
    /// The input.
    pub input: Vec<u8>,
    /// A piece of the input, in whose place another is to stand.
    pub old: String,
    /// How what stands outside behaves.
    pub outer: Outer,
    /// The text that is to be written.
    pub text: Vec<u8>,
    /// The marks behind which alone that text is compared, where there is one.
    pub marks: Vec<String>,
    /// The responses that are to come, by the numbers of their connections.
    pub responses: Vec<Vec<u8>>,
    /// What is to be asked over the link: of each exchange a line with the peer and the limit, and the request.
    pub asked: Vec<u8>,
    /// The line that is to be written to the errors sink.
    pub line: Vec<u8>,
    /// The number of the status that is to come.
    pub status: u64,
}

/// How many bytes a sink has room for where a case does not say it: more than any case is to write.
const ROOM: usize = 2_097_152;

/// A case of this name, with no words and no input, in which nothing fails and nothing is to be written.
pub fn plain_case(alloc: Global, name: String) -> Result<Case, AllocError> {
    Ok(Case {
        name,
        mirror: false,
        words: Vec::new(alloc),
        input: Vec::new(alloc),
        old: String::new(alloc),
        outer: Outer {
            cuts: Vec::new(alloc),
            reads: Vec::new(alloc),
            writes: Vec::new(alloc),
            errors: Vec::new(alloc),
            signs: Vec::new(alloc),
            workers: vec![in alloc; plain_worker(alloc)]?,
            replies: Vec::new(alloc),
            exchanges: Vec::new(alloc),
            piece: 7,
            room: ROOM,
            errors_room: ROOM,
        },
        text: Vec::new(alloc),
        marks: Vec::new(alloc),
        responses: Vec::new(alloc),
        asked: Vec::new(alloc),
        line: Vec::new(alloc),
        status: 0,
    })
}
