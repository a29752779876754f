// The head of a response at the front of some bytes.
ghost use Rattle.dir_http.specs.Fronts.{TellsAnswer};

use crate::length::{Announcement, announcement_of, is_coded};
use httparse::Status;
use httparse::spans::{EMPTY_HEADER_SPAN, parse_response};

/// The parts of a whole head of a response.
#[derive(Clone, Copy, Debug, PartialEq, Eq)]
pub(crate) struct AnswerParts {
    pub(crate) code: u16,
    pub(crate) announcement: Announcement,
    /// Whether the body is coded.
    pub(crate) coded: bool,
    /// Where the body begins.
    pub(crate) len: usize,
}

/// What stands at the front of a response.
#[derive(Clone, Copy, Debug, PartialEq, Eq)]
pub(crate) enum AnswerFront {
    /// A whole head of at most 64 fields.
    Whole(AnswerParts),
    /// No such head.
    No,
}

/// The head of a response that stands at the front.
pub(crate) fn answer_front(bytes: &[u8]) -> AnswerFront
    ensures { TellsAnswer bytes.now result }
{
    let mut fields = [EMPTY_HEADER_SPAN; 64];
    match parse_response(bytes, &mut fields) {
        Ok(Status::Complete(head)) => AnswerFront::Whole(AnswerParts {
            code: head.code,
            announcement: announcement_of(bytes, &fields[..head.headers]),
            coded: is_coded(bytes, &fields[..head.headers]),
            len: head.len,
        }),
        _ => AnswerFront::No,
    }
}
