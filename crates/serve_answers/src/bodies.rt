// What the body of an uploaded descriptor is.
ghost use Rattle.std.specs.Prelude.{◌<◌, ◌^◌, MatchResult, length};
ghost use Rattle.lone_vote.specs.Alone.{IsFound};
ghost use Rattle.serve_answers.specs.Uploads.{IsDescriptor};

use blank_lines::before_extra;
use bytes::Bytes;
use count_terms::Newest;
use descriptor_doc::Descriptor;
use dir_bytes::Memory;
use frame_terms::ReadRefusal;
use std::alloc::Global;

/// The descriptor that a body is, if it is one, as an authority reads it whose newest method is this, with nothing but blank
/// lines behind it, up to an `extra-info` line if there is one.
///
/// # Errors
/// `Memory` is want of memory.
pub(crate) fn descriptor_of(
    alloc: Global,
    newest: Newest,
    body: &Bytes,
) -> Result<Option<Descriptor>, Memory>
    requires { length body.now < 2 ^ 61 }
    ensures { MatchResult result (IsFound (IsDescriptor newest body.now)) (λ _. Unit {0}) }
{
    match descriptor_doc::read_under(alloc, newest, body) {
        Ok((descriptor, used)) => match before_extra(body, used) {
            None => Ok(Some(descriptor)),
            Some(_) => Ok(None),
        },
        Err(ReadRefusal::Frame(_)) => Ok(None),
        Err(ReadRefusal::Memory) => Err(Memory),
    }
}
