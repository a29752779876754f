// What a peer answers.
ghost use Rattle.std.specs.Prelude.{◌≡◌, ◌≤◌};
ghost use Rattle.mirror_daemon.specs.Asking.{IsWithin};

use dir_http::{Link, fetch};
use std::alloc::Global;

/// What a peer answers.
#[derive(Debug, Drop)]
pub(crate) enum Given {
    /// The document that it was asked for.
    Document(Vec<u8>),
    /// That it has none: a response of another code than 200.
    Nothing,
    /// No response, or none that is read.
    Failed,
}

/// Asks a peer for a path. What is longer than the limit is no response that is read.
pub(crate) fn ask<L: Link>(
    alloc: Global,
    link: &mut L,
    address: &[u8],
    path: &[u8],
    limit: u64,
) -> Given
    ensures within { IsWithin limit result }
    ensures faults { L.faults link.old ≤ L.faults link.new }
{
    let Ok(response) = fetch(alloc, link, address, path, limit) else {
        return Given::Failed;
    };
    if response.code != 200 {
        return Given::Nothing;
    }
    if response.body.len() as u64 > limit {
        return Given::Failed;
    }
    Given::Document(response.body)
}
