// Asking a peer for a document, and bringing one to it.
ghost use Rattle.std.specs.Prelude.{◌≡◌, ◌≤◌, Err, IfOk, MatchBool};
ghost use Rattle.dir_bytes.specs.Causes.{Rose};
ghost use Rattle.dir_http.specs.{Links.{AsksOnce, ReadsGiven, ReadsSent}, Responses.{FitsLength, IsNoResponse}};
ghost use Rattle.dir_http.specs.Responses.{TellsWhole, get_text, post_text};

use crate::answer_front::{AnswerFront, AnswerParts, answer_front};
use crate::head::HEAD_LIMIT;
use crate::length::Announcement;
use crate::link::{Link, LinkAnswer};
use crate::response::{Response, push, push_line_end};
use dir_bytes::{Memory, push_decimal};
use std::alloc::Global;

/// Why a peer's response was not got.
#[derive(Clone, Copy, Debug, PartialEq, Eq)]
pub enum FetchFault {
    /// The link failed.
    LinkFault,
    /// The peer sent more bytes than the limit.
    TooLarge,
    /// What it sent is no whole response.
    BadAnswer,
    /// There was no memory.
    Memory,
}

/// The most bytes of a response to a POST.
pub const POST_LIMIT: u64 = 65536;

/// Whether so many bytes are what the head announces.
fn fits(announcement: Announcement, count: u64) -> bool
    ensures { MatchBool result (FitsLength announcement count) (¬ (FitsLength announcement count)) }
{
    match announcement {
        Announcement::Nothing => true,
        Announcement::Bytes(said) => said == count,
        Announcement::Unclear => false,
    }
}

/// The parts of the whole response that the bytes are, if they are one.
fn whole_response(bytes: &[u8]) -> Option<AnswerParts>
    ensures { TellsWhole bytes.now result }
{
    let AnswerFront::Whole(parts) = answer_front(bytes) else {
        return None;
    };
    let count = (bytes.len() - parts.len) as u64;
    if parts.len > HEAD_LIMIT || parts.coded || !fits(parts.announcement, count) {
        return None;
    }
    Some(parts)
}

/// Whether the bytes are a whole response, whose body is not compressed.
pub fn is_response(bytes: &[u8]) -> bool
    ensures { MatchBool result (¬ (IsNoResponse bytes.now)) (IsNoResponse bytes.now) }
{
    whole_response(bytes).is_some()
}

/// What the bytes that a link gave are read as.
fn read_response(alloc: Global, bytes: &[u8]) -> Result<Response, FetchFault>
    ensures { ReadsGiven bytes.now result }
{
    let Some(parts) = whole_response(bytes) else {
        return Err(FetchFault::BadAnswer);
    };
    match Vec::from_slice(alloc, &bytes[parts.len..]) {
        Ok(body) => Ok(Response {
            code: parts.code,
            body,
        }),
        Err(_) => Err(FetchFault::Memory),
    }
}

/// One exchange, and what its answer is read as.
fn ask<L: Link>(
    alloc: Global,
    link: &mut L,
    peer: &[u8],
    request: &[u8],
    limit: u64,
) -> Result<Response, FetchFault>
    ensures exchange { AsksOnce (link.new ≡ link.old)
        (λ answer. L.steps link.old peer.now request.now limit answer link.new) result }
    ensures sent { ReadsSent (L.sends link.old peer.now request.now) limit result }
    ensures fault { result ≡ Err FetchFault.LinkFault → Rose (L.faults link.old) (L.faults link.new) }
    ensures faults { L.faults link.old ≤ L.faults link.new }
{
    match link.exchange(alloc, peer, request, limit) {
        LinkAnswer::Got(bytes) => read_response(alloc, &bytes),
        LinkAnswer::TooLong => Err(FetchFault::TooLarge),
        LinkAnswer::Fault => Err(FetchFault::LinkFault),
        LinkAnswer::Memory => Err(FetchFault::Memory),
    }
}

/// The request for a path.
#[tactic(auto, unfolding(crate::specs::Responses::get_text))]
fn get_request(alloc: Global, path: &[u8]) -> Result<Vec<u8>, Memory>
    ensures { IfOk result (λ text. text.items ≡ get_text path.now) }
{
    let mut out = Vec::new(alloc);
    push(&mut out, b"GET ")?;
    push(&mut out, path)?;
    push(&mut out, b" HTTP/1.0")?;
    push_line_end(&mut out)?;
    push_line_end(&mut out)?;
    Ok(out)
}

/// The request that brings a body to a path.
#[tactic(auto, unfolding(crate::specs::Responses::post_text))]
fn post_request(alloc: Global, path: &[u8], body: &[u8]) -> Result<Vec<u8>, Memory>
    ensures { IfOk result (λ text. text.items ≡ post_text path.now body.now) }
{
    let mut out = Vec::new(alloc);
    push(&mut out, b"POST ")?;
    push(&mut out, path)?;
    push(&mut out, b" HTTP/1.0")?;
    push_line_end(&mut out)?;
    push(&mut out, b"Content-Length: ")?;
    push_decimal(&mut out, body.len() as u64)?;
    push_line_end(&mut out)?;
    push_line_end(&mut out)?;
    push(&mut out, body)?;
    Ok(out)
}

/// Asks a peer for a path, by one exchange.
pub fn fetch<L: Link>(
    alloc: Global,
    link: &mut L,
    peer: &[u8],
    path: &[u8],
    limit: u64,
) -> Result<Response, FetchFault>
    ensures exchange { AsksOnce (link.new ≡ link.old)
        (λ answer. L.steps link.old peer.now (get_text path.now) limit answer link.new) result }
    ensures sent { ReadsSent (L.sends link.old peer.now (get_text path.now)) limit result }
    ensures fault { result ≡ Err FetchFault.LinkFault → Rose (L.faults link.old) (L.faults link.new) }
    ensures faults { L.faults link.old ≤ L.faults link.new }
{
    match get_request(alloc, path) {
        Ok(request) => ask(alloc, link, peer, &request, limit),
        Err(_) => Err(FetchFault::Memory),
    }
}

/// Brings a body to a path of a peer, by one exchange.
pub fn post<L: Link>(
    alloc: Global,
    link: &mut L,
    peer: &[u8],
    path: &[u8],
    body: &[u8],
) -> Result<Response, FetchFault>
    ensures exchange { AsksOnce (link.new ≡ link.old)
        (λ answer. L.steps link.old peer.now (post_text path.now body.now) 65536 answer link.new) result }
    ensures sent { ReadsSent (L.sends link.old peer.now (post_text path.now body.now)) 65536 result }
    ensures fault { result ≡ Err FetchFault.LinkFault → Rose (L.faults link.old) (L.faults link.new) }
    ensures faults { L.faults link.old ≤ L.faults link.new }
{
    match post_request(alloc, path, body) {
        Ok(request) => ask(alloc, link, peer, &request, POST_LIMIT),
        Err(_) => Err(FetchFault::Memory),
    }
}
