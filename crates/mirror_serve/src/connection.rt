// One connection of a mirror: its request is read, and what it asks for is given.
ghost use Rattle.std.specs.Prelude.{◌≡◌, ◌≢◌, ◌≤◌, IfOk};
ghost use Rattle.mirror_serve.specs.Connections.{IsAnswered, Serves};

use crate::giving::outcome_of;
use dir_bytes::{Memory, Sink, Source};
use dir_http::read_request;
use http_words::{ConnStatus, Outcome, asked_by, reply_to, tell, tell_shortage};
use key_port::Verifier;
use mirror_core::Mirror;
use std::alloc::Global;

/// What comes of the request of a connection; nothing where the source failed.
///
/// # Errors
/// `Memory` is want of memory.
fn answer<S: Source, V: Verifier>(
    alloc: Global,
    mirror: &Mirror<V>,
    conn: &mut S,
) -> Result<Option<Outcome>, Memory>
    ensures answered { IfOk result (IsAnswered mirror.now (S.left conn.old) (S.faults conn.old) (S.faults conn.new)) }
    ensures source { S.faults conn.old ≤ S.faults conn.new }
{
    let request = match read_request(alloc, conn) {
        Ok(request) => request,
        Err(fault) => {
            return match reply_to(fault) {
                Some(reply) => Ok(Some(Outcome::Replied(reply))),
                None => Ok(None),
            };
        }
    };
    let path = request.path.as_bytes();
    let asked = asked_by(request.method, path);
    Ok(Some(outcome_of(alloc, mirror, asked, path)?))
}

/// Serves one connection of a mirror (dir-spec, "General-use HTTP URLs"): reads its request, and writes the response: the
/// microdesc consensus that is held, the certificates that are kept, or those of the microdescriptors asked for that are
/// held; 404 for each other GET or POST and where nothing is held, and 405 for another method. A request that is not
/// read is answered as an authority answers it.
pub fn mirror_connection<S: Source, K: Sink, V: Verifier>(
    alloc: Global,
    mirror: &Mirror<V>,
    conn: &mut S,
    out: &mut K,
) -> ConnStatus
    ensures serves { Serves mirror.now (S.left conn.old) (K.written out.old) (K.written out.new)
        (S.faults conn.old) (S.faults conn.new) (K.faults out.old) (K.faults out.new) result }
    ensures shortage { result ≢ ConnStatus.Answered 500 }
    ensures verifier { result ≢ ConnStatus.Answered 503 }
    ensures source { S.faults conn.old ≤ S.faults conn.new }
    ensures sink { K.faults out.old ≤ K.faults out.new }
{
    match answer(alloc, mirror, conn) {
        Ok(Some(outcome)) => tell(alloc, out, outcome),
        Ok(None) => ConnStatus::ReadFault,
        Err(_) => tell_shortage(alloc, out),
    }
}
