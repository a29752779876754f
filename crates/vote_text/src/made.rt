// Writing a vote whose certificate has the bytes that are given.
ghost use Rattle.std.specs.Prelude.{◌≡◌, IfOk};
ghost use Rattle.vote_text.specs.Made as made;

use crate::entry::push_entries;
use crate::writing::{push_authority, push_preamble};
use dir_bytes::Memory;
use frame_terms::Keyword;
use frame_values::push_bare;
use std::alloc::Global;
use vote_terms::VoteFacts;

/// The text of a vote that is signed, with these bytes of its certificate: through the one space after
/// `directory-signature`. The signature that the facts hold is not read, nor what they hold of the certificate.
///
/// # Errors
/// `Memory` is want of memory.
pub fn write_signed(alloc: Global, facts: &VoteFacts, certificate: &[u8]) -> Result<Vec<u8>, Memory>
    ensures { IfOk result (λ text. text.items ≡ made.made_signed facts.now certificate.now) }
{
    let mut out = Vec::new(alloc);
    push_preamble(&mut out, alloc, facts)?;
    push_authority(&mut out, alloc, facts)?;
    out.extend_from_slice(certificate)?;
    let mut rest = Vec::new(alloc);
    push_entries(&mut out, &mut rest, facts.entries.as_slice())?;
    push_bare(&mut out, Keyword::DirectoryFooter, b"")?;
    out.extend_from_slice(b"directory-signature ")?;
    Ok(out)
}
