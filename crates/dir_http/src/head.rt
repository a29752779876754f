// Reading the head of a request.
ghost use Rattle.std.specs.Prelude.{◌≡◌, ◌≢◌, ◌≤◌, ◌<◌, Err, IfOk, IsErrAnd, length, vec_len};
ghost use Rattle.dir_bytes.specs.{Causes.Rose, Streams.TakesAtMost};
ghost use Rattle.dir_http.specs.Requests.{ReadsHead, AnswersHead, AtEndOrLimit, IsFailure, Whatever};
ghost use Rattle.dir_http.specs.Fronts.{TellsFront};
ghost use Rattle.dir_http.specs.declared.front.Front.TheVariants as front;

use crate::fault::HttpFault;
use crate::front::{Front, Parts, front_of};
use crate::length::{Method2, body_length};
use crate::watch::LineWatch;
use dir_bytes::{ReadAnswer, Source, Text};
use std::alloc::Global;

/// The most bytes that a head may have.
pub const HEAD_LIMIT: usize = 16384;

/// The head of a request.
#[derive(Debug, Drop)]
pub struct Head {
    pub method: Method2,
    pub path: Text,
    /// How many bytes of body follow the head.
    pub length: u64,
    /// Those of them that were read with the head.
    pub early: Vec<u8>,
}

/// The head whose parts stand at the front.
fn head_of(alloc: Global, bytes: &[u8], parts: Parts) -> Result<Head, HttpFault>
    requires { TellsFront bytes.now (front.Whole parts) }
    ensures answer { AnswersHead Whatever bytes.now result }
    ensures short { IfOk result (λ head. vec_len head.early ≤ head.length) }
    ensures cause { result ≢ Err HttpFault.ReadFault }
{
    if parts.len > HEAD_LIMIT {
        return Err(HttpFault::BadHead);
    }
    let path = parts.path.of(bytes);
    let length = body_length(parts.method, path, parts.announcement)?;
    let path = Text::copy_of(alloc, path)?;
    let rest = &bytes[parts.len..];
    let count = length.min(rest.len() as u64) as usize;
    let early = Vec::from_slice(alloc, &rest[..count])?;
    Ok(Head {
        method: parts.method,
        path,
        length,
        early,
    })
}

/// The head at the front of the bytes, to which none is added.
fn last_head(alloc: Global, bytes: &[u8]) -> Result<Head, HttpFault>
    ensures answer { AnswersHead (AtEndOrLimit bytes.now) bytes.now result }
    ensures short { IfOk result (λ head. vec_len head.early ≤ head.length) }
    ensures cause { result ≢ Err HttpFault.ReadFault }
{
    match front_of(bytes) {
        Front::Whole(parts) => head_of(alloc, bytes, parts),
        Front::Never => Err(HttpFault::BadHead),
        Front::Open => Err(HttpFault::BadHead),
    }
}

/// What a failure says after these bytes: they may show already that no head comes.
fn failed_at(bytes: &[u8]) -> HttpFault
    ensures answer { AnswersHead Whatever bytes.now (Err result) }
    ensures told { IsFailure result }
{
    match front_of(bytes) {
        Front::Never => HttpFault::BadHead,
        _ => HttpFault::ReadFault,
    }
}

/// Reads the head of a request, and with it maybe some bytes of its body.
pub fn read_head<S: Source>(alloc: Global, source: &mut S) -> Result<Head, HttpFault>
    // Over a source that tells: exactly the head that stands at the front, or why it is refused.
    ensures answer { ReadsHead (S.left source.old) (S.left source.new) result }
    ensures short { IfOk result (λ head. vec_len head.early ≤ head.length) }
    ensures taken { TakesAtMost (S.left source.old) (S.left source.new) 20480 }
    ensures fault { result ≡ Err HttpFault.ReadFault → Rose (S.faults source.old) (S.faults source.new) }
    ensures faults { S.faults source.old ≤ S.faults source.new }
    // A source that failed is told.
    ensures told { S.faults source.old < S.faults source.new → IsErrAnd result IsFailure }
{
    let mut bytes = Vec::new(alloc);
    let mut piece = [0u8; 4096];
    let mut watch = LineWatch::new();
    'pieces: while bytes.len() < HEAD_LIMIT {
        match source.read(&mut piece) {
            ReadAnswer::Got(count) => {
                bytes.extend_from_slice(&piece[..count])?;
                if watch.sees_end(&piece[..count]) {
                    match front_of(&bytes) {
                        Front::Whole(parts) => return head_of(alloc, &bytes, parts),
                        Front::Never => return Err(HttpFault::BadHead),
                        Front::Open => {}
                    }
                }
            }
            ReadAnswer::End => return last_head(alloc, &bytes),
            ReadAnswer::Failed => return Err(failed_at(&bytes)),
        }
    }
    last_head(alloc, &bytes)
}
