// What comes of a request.
ghost use Rattle.std.specs.Prelude.{◌≡◌, IfOk, IsTrue};
ghost use Rattle.dir_http.specs.Responses.{is_code};
ghost use Rattle.http_words.specs.Outcomes as outcomes;
ghost use Rattle.http_words.specs.Outcomes.{SaysOutcome};

use crate::replies::Reply;
use dir_bytes::{Memory, Text};
use dir_http::Response;
use std::alloc::Global;

/// What comes of a request.
#[derive(Drop)]
pub enum Outcome {
    /// An answer that is no document.
    Replied(Reply),
    /// The document that was asked for.
    Found(Text),
}

impl Outcome {
    /// Its code.
    pub fn code(&self) -> u16
        ensures value { result ≡ outcomes.code_of self.now }
        ensures written { IsTrue (is_code result) }
    {
        match self {
            Outcome::Replied(reply) => reply.code(),
            Outcome::Found(_) => 200,
        }
    }

    /// The outcome as a response.
    ///
    /// # Errors
    /// `Memory` is want of memory. A document wants none.
    pub fn response(self, alloc: Global) -> Result<Response, Memory>
        ensures says { IfOk result (λ response. SaysOutcome self response) }
        ensures written { IfOk result (λ response. IsTrue (is_code response.code)) }
    {
        let code = self.code();
        let body = match self {
            Outcome::Replied(reply) => reply.response(alloc)?.body,
            Outcome::Found(text) => text.into_vec(),
        };
        Ok(Response { code, body })
    }
}
