// Which bytes of an input are its consensus.
ghost use Rattle.std.specs.Prelude.{◌≡◌, ◌<◌, ◌≤◌, ◌^◌, length, IfOk, IfErr};
ghost use Rattle.dirdoc_grammar.specs.Seen.{seen_item};
ghost use Rattle.mirror_core.specs.Extent as extent;

use dirdoc_grammar::{Item, Items};
use frame_values::between;
use item_terms::{DocFault, NO_LIMIT};

/// Where the consensus of an input begins: at its first item.
pub(crate) fn begin_of(bytes: &[u8]) -> u64
    requires { length bytes.now < 2 ^ 62 }
    ensures begin { result ≡ extent.begin_of bytes.now }
    ensures small { result < 2 ^ 62 }
{
    match Items::new(bytes, NO_LIMIT).next() {
        Ok(Some(item)) => item.place,
        _ => 0,
    }
}

/// Whether an item is a signature.
fn is_signature(item: &Item<'_>) -> bool
    ensures { result ≡ extent.is_signature (seen_item item.now) }
{
    item.keyword == b"directory-signature".as_slice()
}

/// Where the last signature of an input ends, or the input where it has none.
///
/// # Errors
/// The fault of the first item that has one.
fn last_end(bytes: &[u8]) -> Result<u64, DocFault>
    requires { length bytes.now < 2 ^ 62 }
    ensures ok { IfOk result (λ end. end ≡ extent.end_of bytes.now) }
    ensures err { IfErr result (λ _. length bytes.now ≡ extent.end_of bytes.now) }
{
    let mut items = Items::new(bytes, NO_LIMIT);
    let mut end = bytes.len() as u64;
    'items: while let Some(item) = items.next()? {
        if is_signature(&item) {
            end = item.after;
        }
    }
    Ok(end)
}

/// Where the consensus of an input ends: behind its last signature; with the input where it has none, or an item has a fault.
fn end_of(bytes: &[u8]) -> u64
    requires { length bytes.now < 2 ^ 62 }
    ensures { result ≡ extent.end_of bytes.now }
{
    match last_end(bytes) {
        Ok(end) => end,
        Err(_) => bytes.len() as u64,
    }
}

/// The consensus of an input: its bytes from the first item through the object of the last signature.
pub(crate) fn consensus_part(bytes: &[u8]) -> &[u8]
    requires { length bytes.now < 2 ^ 62 }
    ensures part { result.now ≡ extent.consensus_part bytes.now }
    ensures within { length result.now ≤ length bytes.now }
{
    between(bytes, begin_of(bytes), end_of(bytes))
}
