// What is read of a connection.
ghost use Rattle.std.specs.Prelude.{◌≡◌, ◌≤◌, ℕ, List, Ok, Option};
ghost use Rattle.dir_bytes.specs.Causes.{Rose};
ghost use Rattle.dir_http.specs.Requests.{ReadsHead};
ghost use Rattle.http_words.specs.Paths as paths;
ghost use Rattle.serve_answers.specs.Requests.{ReadsIncoming};

use bytes::Bytes;
use dir_bytes::{Source, Text};
use dir_http::{Head, HttpFault, read_head, read_rest};
use http_words::{Asked, asked_by};
use item_terms::NO_LIMIT;
use lone_vote::read_vote;
use std::alloc::Global;
use vote_doc::Vote;

/// What is read of a connection.
#[derive(Drop)]
pub(crate) enum Incoming {
    /// A vote is uploaded: the one that the body is, if it is one.
    Vote(Option<Vote>),
    /// This is asked for by a path, with a body of fewer than 2^61 bytes.
    Request {
        asked: Asked,
        path: Text,
        body: Bytes,
    },
    /// No request was read.
    Unread(HttpFault),
}

/// Reads a vote that is uploaded behind this head, while its body arrives. A body of 2^61 bytes and more, which no
/// request has, is told as want of memory.
fn read_upload<S: Source>(alloc: Global, head: &Head, conn: &mut S) -> Incoming
    requires asks { paths.asked_by head.now.method head.now.path ≡ Asked.PostVote }
    ensures reads { (left : Option (List ℕ)) → ReadsHead left (S.left conn.old) (Ok head.now)
        → ReadsIncoming left result }
    ensures fault { result ≡ Incoming.Unread HttpFault.ReadFault → Rose (S.faults conn.old) (S.faults conn.new) }
    ensures faults { S.faults conn.old ≤ S.faults conn.new }
{
    if head.length >= NO_LIMIT {
        return Incoming::Unread(HttpFault::Memory);
    }
    match read_vote(alloc, head, conn) {
        Ok(found) => Incoming::Vote(found),
        Err(fault) => Incoming::Unread(fault),
    }
}

/// Reads a request with this head whole. A body of 2^61 bytes and more, which no request has, is told as want of
/// memory.
fn read_asked<S: Source>(alloc: Global, head: Head, conn: &mut S) -> Incoming
    ensures reads { (left : Option (List ℕ)) → ReadsHead left (S.left conn.old) (Ok head) → ReadsIncoming left result }
    ensures fault { result ≡ Incoming.Unread HttpFault.ReadFault → Rose (S.faults conn.old) (S.faults conn.new) }
    ensures faults { S.faults conn.old ≤ S.faults conn.new }
{
    let request = match read_rest(alloc, head, conn) {
        Ok(request) => request,
        Err(fault) => return Incoming::Unread(fault),
    };
    if request.body.len() as u64 >= NO_LIMIT {
        return Incoming::Unread(HttpFault::Memory);
    }
    let Ok(body) = Bytes::from_vec(request.body) else {
        return Incoming::Unread(HttpFault::Memory);
    };
    let asked = asked_by(request.method, request.path.as_bytes());
    Incoming::Request {
        asked,
        path: request.path,
        body,
    }
}

/// Reads one request. A vote that is uploaded is read while its body arrives.
pub(crate) fn read_incoming<S: Source>(alloc: Global, conn: &mut S) -> Incoming
    ensures reads { ReadsIncoming (S.left conn.old) result }
    ensures fault { result ≡ Incoming.Unread HttpFault.ReadFault → Rose (S.faults conn.old) (S.faults conn.new) }
    ensures faults { S.faults conn.old ≤ S.faults conn.new }
{
    let head = match read_head(alloc, conn) {
        Ok(head) => head,
        Err(fault) => return Incoming::Unread(fault),
    };
    match asked_by(head.method, head.path.as_bytes()) {
        Asked::PostVote => read_upload(alloc, &head, conn),
        _ => read_asked(alloc, head, conn),
    }
}
