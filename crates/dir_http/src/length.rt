// What the fields announce of a body: how long it is, and whether it is coded; and what its path allows.
ghost use Rattle.std.specs.{Prelude.{◌≡◌, ◌≤◌, All, IfErr, length, map}, List.list_any};
ghost use Rattle.dir_http.specs.Heads as heads;
ghost use Rattle.httparse.specs.Spans.{IsHeaderWithin, header_bytes};

use crate::fault::HttpFault;
use dir_bytes::read_u64;
use httparse::spans::HeaderSpan;

/// How a request asks.
#[derive(Clone, Copy, Debug, PartialEq, Eq)]
pub enum Method2 {
    Get,
    Post,
    /// Any other method.
    Other,
}

/// What the fields say of the body's length.
#[derive(Clone, Copy, Debug, PartialEq, Eq)]
pub enum Announcement {
    /// There is no `Content-Length`.
    Nothing,
    /// There is one, and it is a number.
    Bytes(u64),
    /// There are several, or one that is no number.
    Unclear,
}

/// The method that a word names.
#[tactic(auto, unfolding(crate::specs::Heads::method_of))]
pub(crate) fn method_of(word: &[u8]) -> Method2
    ensures { result ≡ heads.method_of word.now }
{
    if word == b"GET".as_slice() {
        Method2::Get
    } else if word == b"POST".as_slice() {
        Method2::Post
    } else {
        Method2::Other
    }
}

/// The most bytes that the body of a POST to a path may have.
#[tactic(auto, unfolding(crate::specs::Heads::path_limit))]
pub fn path_limit(path: &[u8]) -> u64
    ensures { result ≡ heads.path_limit path.now }
{
    if path == b"/tor/post/vote".as_slice() {
        16777216
    } else if path == b"/tor/post/consensus-signature".as_slice() {
        1048576
    } else {
        65536
    }
}

/// Whether a field's name is `Content-Length`, in letters of either case.
#[tactic(auto, unfolding(crate::specs::Heads::is_length_name))]
fn is_length_name(name: &[u8]) -> bool
    ensures { result ≡ heads.is_length_name name.now }
{
    name.eq_ignore_ascii_case(b"content-length")
}

/// What the fields announce, whose names and values lie in the bytes.
pub(crate) fn announcement_of(bytes: &[u8], fields: &[HeaderSpan]) -> Announcement
    requires within { All (IsHeaderWithin (length bytes.now)) fields.now }
    ensures { result ≡ heads.announcement (heads.length_values (map (header_bytes bytes.now) fields.now)) }
{
    let mut value = None;
    'fields: for field in fields {
        if is_length_name(field.name.of(bytes)) {
            if value.is_some() {
                return Announcement::Unclear;
            }
            value = Some(field.value);
        }
    }
    match value {
        None => Announcement::Nothing,
        Some(value) => match read_u64(value.of(bytes)) {
            Ok(count) => Announcement::Bytes(count),
            Err(_) => Announcement::Unclear,
        },
    }
}

/// Whether a field says that the body is coded: `Content-Encoding` of another value than `identity`.
#[tactic(auto, unfolding(crate::specs::Heads::is_coding))]
fn is_coding(name: &[u8], value: &[u8]) -> bool
    ensures { result ≡ heads.is_coding (name.now, value.now) }
{
    name.eq_ignore_ascii_case(b"content-encoding") && !value.eq_ignore_ascii_case(b"identity")
}

/// Whether a field, whose name and value lie in the bytes, says that the body is coded.
pub(crate) fn is_coded(bytes: &[u8], fields: &[HeaderSpan]) -> bool
    requires within { All (IsHeaderWithin (length bytes.now)) fields.now }
    ensures { result ≡ list_any heads.is_coding (map (header_bytes bytes.now) fields.now) }
{
    'fields: for field in fields {
        if is_coding(field.name.of(bytes), field.value.of(bytes)) {
            return true;
        }
    }
    false
}

/// How many bytes of body follow a head, or why it is refused.
#[tactic(auto, unfolding(crate::specs::Heads::body_length))]
pub(crate) fn body_length(
    method: Method2,
    path: &[u8],
    announcement: Announcement,
) -> Result<u64, HttpFault>
    ensures value { result ≡ heads.body_length method path.now announcement }
    ensures cause { IfErr result heads.IsOfHead }
{
    match announcement {
        Announcement::Unclear => Err(HttpFault::BadHead),
        Announcement::Nothing => match method {
            Method2::Post => Err(HttpFault::NoLength),
            _ => Ok(0),
        },
        Announcement::Bytes(count) => match method {
            Method2::Post => {
                let limit = path_limit(path);
                if count > limit {
                    return Err(HttpFault::TooLarge { limit });
                }
                Ok(count)
            }
            _ => Ok(0),
        },
    }
}
