// Reading detached signatures.
ghost use Rattle.std.specs.Prelude.{◌<◌, ◌^◌, length};
ghost use Rattle.detached_doc.specs.Reading.{ReadsDetached};

use crate::detached::Detached;
use crate::facts::detached_of;
use crate::kept::nothing_kept;
use detached_frame::DetachedFrame;
use dirdoc_grammar::Items;
use frame_reader::read_document;
use frame_terms::ReadRefusal;
use std::alloc::Global;

/// How many bytes detached signatures may have.
const MAX_DETACHED: u64 = 1_048_576;

/// The detached signatures that the bytes are, behind blank lines if there are some, and how many bytes that are: all, since
/// they end with them (dir-spec, "Serving and fetching detached signatures"). A `directory-signature` of an unknown algorithm
/// is passed over.
///
/// # Errors
/// `Frame` is the first fault: what is wrong and at which byte. `Memory` is want of memory.
pub fn read(alloc: Global, bytes: &[u8]) -> Result<(Detached, usize), ReadRefusal>
    requires { length bytes.now < 2 ^ 62 }
    ensures { ReadsDetached bytes.now result }
{
    let mut items = Items::new(bytes, MAX_DETACHED);
    let mut kept = nothing_kept(alloc);
    let length = bytes.len() as u64;
    let used = read_document(alloc, DetachedFrame, &mut items, length, &mut kept)?;
    match detached_of(alloc, bytes, &kept) {
        Ok(detached) => Ok((detached, used as usize)),
        Err(_) => Err(ReadRefusal::Memory),
    }
}
