// Whether a request has arrived, as far as its bytes came.
ghost use Rattle.std.specs.Prelude.{◌≡◌};
ghost use Rattle.dir_http.specs.{Arrivals.{IsSettled, AwaitsBytes}, Fronts.TellsFront};
ghost use Rattle.dir_http.specs.declared.front.Front.TheVariants as front;

use crate::front::{Front, Parts, front_of};
use crate::head::HEAD_LIMIT;
use crate::length::body_length;

/// How many bytes behind a whole head are still to come.
fn missing_behind(bytes: &[u8], parts: Parts) -> u64
    requires { TellsFront bytes.now (front.Whole parts) }
    ensures settled { result ≡ 0 → IsSettled bytes.now }
    ensures awaits { AwaitsBytes bytes.now result }
{
    if parts.len > HEAD_LIMIT {
        return 0;
    }
    match body_length(parts.method, parts.path.of(bytes), parts.announcement) {
        Ok(length) => length.saturating_sub((bytes.len() - parts.len) as u64),
        Err(_) => 0,
    }
}

/// How many bytes of a request are still to come at least. None are where it is settled: whatever follows, the request
/// is read, or refused.
pub fn missing(bytes: &[u8]) -> u64
    ensures settled { result ≡ 0 → IsSettled bytes.now }
    ensures awaits { AwaitsBytes bytes.now result }
{
    match front_of(bytes) {
        Front::Whole(parts) => missing_behind(bytes, parts),
        Front::Never => 0,
        Front::Open if bytes.len() < HEAD_LIMIT => 1,
        Front::Open => 0,
    }
}
