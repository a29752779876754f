// Forms in memory of what stands outside a run, and what is left of them behind it.
use crate::gates::Answer;
use dir_bytes::{MemoryClock, MemorySink, Text};
use dir_http::{Exchange, MemoryLink};
use std::alloc::{AllocError, Global};
use std::sync::OnceLock;

/// A sink that has so much room, of which a write takes a piece at most.
pub fn sink(
    alloc: Global,
    room: usize,
    piece: u64,
    failing: Vec<u64>,
) -> Result<MemorySink, AllocError> {
    let written = Vec::with_capacity(alloc, room)?;
    Ok(MemorySink::new(written, piece.max(1), failing))
}

/// A clock that gives these moments, or 0.
pub fn clock(moments: Vec<u64>) -> Result<MemoryClock, AllocError> {
    let mut moments = moments;
    if moments.is_empty() {
        moments.push(0)?;
    }
    Ok(MemoryClock::new(moments))
}

/// A link that gives these replies.
pub fn link(
    alloc: Global,
    replies: Vec<Vec<u8>>,
    failing: Vec<u64>,
) -> Result<MemoryLink, AllocError> {
    let mut texts = Vec::new(alloc);
    for reply in replies {
        texts.push(Text::new(reply))?;
    }
    Ok(MemoryLink::new(alloc, texts, failing))
}

/// A place for the response of each connection.
pub fn places(alloc: Global, count: usize) -> Result<Vec<Answer>, AllocError> {
    let mut answers = Vec::new(alloc);
    for _ in 0..count {
        answers.push(OnceLock::new())?;
    }
    Ok(answers)
}

/// What was asked over a link: of each exchange a line with the peer and the limit, and the request.
pub fn asked_text(alloc: Global, exchanges: &[Exchange]) -> Result<Vec<u8>, AllocError> {
    let mut text = Vec::new(alloc);
    for exchange in exchanges {
        let limit = format!(in alloc; " {}\n", exchange.limit)?;
        text.extend_from_slice(exchange.peer.as_bytes())?;
        text.extend_from_slice(limit.as_bytes())?;
        text.extend_from_slice(exchange.request.as_bytes())?;
    }
    Ok(text)
}

/// How a run ends.
#[derive(Drop)]
pub struct End {
    /// The number of its status.
    pub status: u64,
    /// The line.
    pub line: Vec<u8>,
    /// The text.
    pub text: Vec<u8>,
    /// What was asked.
    pub asked: Vec<u8>,
}
