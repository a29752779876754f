// What stands at the front of some bytes: a whole head, the beginning of one, or none.
ghost use Rattle.dir_http.specs.Fronts.{TellsFront};

use crate::length::{Announcement, Method2, announcement_of, method_of};
use httparse::Status;
use httparse::spans::{EMPTY_HEADER_SPAN, Span, parse_request};

/// Where the parts of a whole head of a request are.
#[derive(Clone, Copy, Debug, PartialEq, Eq)]
pub(crate) struct Parts {
    pub(crate) method: Method2,
    pub(crate) path: Span,
    pub(crate) announcement: Announcement,
    /// Where the body begins.
    pub(crate) len: usize,
}

/// What stands at the front of some bytes.
#[derive(Clone, Copy, Debug, PartialEq, Eq)]
pub(crate) enum Front {
    /// A whole head of at most 64 fields.
    Whole(Parts),
    /// Nothing that such a head begins with, whatever bytes follow.
    Never,
    /// No whole head yet.
    Open,
}

/// The request that stands at the front.
pub(crate) fn front_of(bytes: &[u8]) -> Front
    ensures { TellsFront bytes.now result }
{
    let mut fields = [EMPTY_HEADER_SPAN; 64];
    match parse_request(bytes, &mut fields) {
        Ok(Status::Complete(head)) => Front::Whole(Parts {
            method: method_of(head.method.of(bytes)),
            path: head.path,
            announcement: announcement_of(bytes, &fields[..head.headers]),
            len: head.len,
        }),
        Ok(Status::Partial) => Front::Open,
        Err(_) => Front::Never,
    }
}
