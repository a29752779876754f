// The answers that are no documents: the code and the body of each.
ghost use Rattle.std.specs.Prelude.{◌≡◌, ◌++◌, IsTrue, IfOk, OnOk};
ghost use Rattle.dir_http.specs.Responses.{is_code};
ghost use Rattle.http_words.specs.Replies as replies;
ghost use Rattle.http_words.specs.Replies.{SaysReply};

use crate::word::Word;
use dir_bytes::{Memory, push_decimal};
use dir_http::{HEAD_LIMIT, HttpFault, Response};
use std::alloc::Global;

/// The most bytes of a response that brings a vote: those of a vote, and those of a head.
pub const VOTE_RESPONSE_LIMIT: u64 = 16793600;

/// The most bytes of a response that brings signatures: those of a document of signatures, and those of a head.
pub const SIGNATURES_RESPONSE_LIMIT: u64 = 1064960;

const _: () = prove!(VOTE_RESPONSE_LIMIT == 16777216 + HEAD_LIMIT as u64);

const _: () = prove!(SIGNATURES_RESPONSE_LIMIT == 1048576 + HEAD_LIMIT as u64);

/// An answer that is no document.
#[derive(Clone, Copy, Debug, PartialEq, Eq)]
pub enum Reply {
    /// It was done: 200 and a word.
    Done(Word),
    /// Of so many lines of signatures so many are held: 200 and both numbers.
    Taken { held: u64, lines: u64 },
    /// It was refused: 400 and a word.
    Refused(Word),
    /// There is none: 404.
    NotFound,
    /// The method is neither GET nor POST: 405.
    NotAllowed,
    /// A POST announces no length: 411.
    NoLength,
    /// The body is too long: 413.
    TooLarge,
    /// There was no memory: 500.
    Memory,
    /// The verifier failed: 503.
    VerifierFault,
}

/// Appends a text.
fn push(out: &mut Vec<u8>, text: &[u8]) -> Result<(), Memory>
    ensures { OnOk result (out.new.items ≡ out.old.items ++ text.now) }
{
    out.extend_from_slice(text)?;
    Ok(())
}

/// Appends how many lines of how many are held.
fn push_taken(out: &mut Vec<u8>, held: u64, lines: u64) -> Result<(), Memory>
    ensures { OnOk result (out.new.items ≡ out.old.items ++ replies.taken_text held lines) }
{
    push(out, b"taken ")?;
    push_decimal(out, held)?;
    push(out, b" of ")?;
    push_decimal(out, lines)?;
    push(out, b"\n")?;
    Ok(())
}

/// Appends a word and the end of its line.
fn push_word(out: &mut Vec<u8>, word: Word) -> Result<(), Memory>
    ensures { OnOk result (out.new.items ≡ out.old.items ++ replies.word_line word) }
{
    push(out, word.text())?;
    push(out, b"\n")?;
    Ok(())
}

impl Reply {
    /// The answer's code.
    pub fn code(self) -> u16
        ensures value { result ≡ replies.code_of self }
        ensures written { IsTrue (is_code result) }
    {
        match self {
            Reply::Done(_) => 200,
            Reply::Taken { .. } => 200,
            Reply::Refused(_) => 400,
            Reply::NotFound => 404,
            Reply::NotAllowed => 405,
            Reply::NoLength => 411,
            Reply::TooLarge => 413,
            Reply::Memory => 500,
            Reply::VerifierFault => 503,
        }
    }

    /// Appends the answer's body.
    fn push_body(self, out: &mut Vec<u8>) -> Result<(), Memory>
        ensures { OnOk result (out.new.items ≡ out.old.items ++ replies.body_text self) }
    {
        match self {
            Reply::Done(word) => push_word(out, word),
            Reply::Taken { held, lines } => push_taken(out, held, lines),
            Reply::Refused(word) => push_word(out, word),
            _ => Ok(()),
        }
    }

    /// The answer's response.
    ///
    /// # Errors
    /// `Memory` is want of memory. An answer with no body wants none.
    pub fn response(self, alloc: Global) -> Result<Response, Memory>
        ensures { IfOk result (λ response. SaysReply self response) }
    {
        let mut body = Vec::new(alloc);
        self.push_body(&mut body)?;
        Ok(Response {
            code: self.code(),
            body,
        })
    }
}

/// The answer to a request that was not read. After a failed read there is none.
pub fn reply_to(fault: HttpFault) -> Option<Reply>
    ensures { result ≡ replies.reply_to fault }
{
    match fault {
        HttpFault::BadHead => Some(Reply::Refused(Word::Head)),
        HttpFault::NoLength => Some(Reply::NoLength),
        HttpFault::TooLarge { .. } => Some(Reply::TooLarge),
        HttpFault::Truncated { .. } => Some(Reply::Refused(Word::Truncated)),
        HttpFault::ReadFault => None,
        HttpFault::Memory => Some(Reply::Memory),
    }
}
