// The texts of what documents that list relays say of a relay.
ghost use Rattle.std.specs.Prelude.{◌≡◌, ◌++◌, OnOk, decimal, OnErr, take, vec_len};
ghost use Rattle.relay_entries.specs.Texts as texts;

use crate::said::Bandwidths;
use dir_bytes::{Memory, push_address, push_base64, push_decimal, push_time};
use dir_values::{Digest2, Fingerprint};
use frame_values::moment;

/// Appends who a relay is: its nickname and its identity (dir-spec, "Vote and consensus status document formats").
///
/// # Errors
/// `Memory` is want of memory.
pub fn push_named(rest: &mut Vec<u8>, nickname: &[u8], identity: &Fingerprint) -> Result<(), Memory>
    ensures ok { OnOk result (rest.new.items ≡ rest.old.items ++ texts.named_text nickname.now identity.now) }
    ensures err { OnErr result (take (vec_len rest.old) rest.new.items ≡ rest.old.items) }
{
    rest.extend_from_slice(nickname)?;
    rest.push(b' ')?;
    push_base64(rest, &identity.0)
}

/// Appends when a relay's descriptor was published, in seconds since 1970-01-01 00:00:00 UTC, its IPv4 address, the first
/// byte highest, its onion routing port and its directory port. A moment past the calendar is written as its last one.
///
/// # Errors
/// `Memory` is want of memory.
pub fn push_reached(
    rest: &mut Vec<u8>,
    published: u64,
    ip: u32,
    or_port: u16,
    dir_port: u16,
) -> Result<(), Memory>
    ensures ok { OnOk result (rest.new.items ≡ rest.old.items ++ texts.reached_text published ip or_port dir_port) }
    ensures err { OnErr result (take (vec_len rest.old) rest.new.items ≡ rest.old.items) }
{
    push_time(rest, moment(published))?;
    rest.push(b' ')?;
    push_address(rest, ip)?;
    rest.push(b' ')?;
    push_decimal(rest, or_port as u64)?;
    rest.push(b' ')?;
    push_decimal(rest, dir_port as u64)
}

// Appends a key and a number.
fn push_number(rest: &mut Vec<u8>, key: &[u8], number: u32) -> Result<(), Memory>
    ensures ok { OnOk result (rest.new.items ≡ rest.old.items ++ key.now ++ decimal number) }
    ensures err { OnErr result (take (vec_len rest.old) rest.new.items ≡ rest.old.items) }
{
    rest.extend_from_slice(key)?;
    push_decimal(rest, number as u64)
}

/// Appends bandwidths by their keys. Nothing where neither is known.
///
/// # Errors
/// `Memory` is want of memory.
pub fn push_bandwidths(rest: &mut Vec<u8>, w: Bandwidths) -> Result<(), Memory>
    ensures ok { OnOk result (rest.new.items ≡ rest.old.items ++ texts.bandwidths_text w) }
    ensures err { OnErr result (take (vec_len rest.old) rest.new.items ≡ rest.old.items) }
{
    match (w.bandwidth, w.measured) {
        (None, None) => Ok(()),
        (Some(number), None) => push_number(rest, b"Bandwidth=", number),
        (None, Some(number)) => push_number(rest, b"Measured=", number),
        (Some(number), Some(measured)) => {
            push_number(rest, b"Bandwidth=", number)?;
            push_number(rest, b" Measured=", measured)
        }
    }
}

/// Appends methods, with commas between them.
fn push_methods(rest: &mut Vec<u8>, methods: &[u32]) -> Result<(), Memory>
    ensures ok { OnOk result (rest.new.items ≡ rest.old.items ++ texts.methods_text methods.now) }
    ensures err { OnErr result (take (vec_len rest.old) rest.new.items ≡ rest.old.items) }
{
    let Some((first, others)) = methods.split_first() else {
        return Ok(());
    };
    push_decimal(rest, *first as u64)?;
    'methods: for method in others {
        rest.push(b',')?;
        push_decimal(rest, *method as u64)?;
    }
    Ok(())
}

/// Appends a digest behind the name of its algorithm.
fn push_sha256(rest: &mut Vec<u8>, digest: Digest2) -> Result<(), Memory>
    ensures ok { OnOk result (rest.new.items ≡ rest.old.items ++ texts.sha256_text digest) }
    ensures err { OnErr result (take (vec_len rest.old) rest.new.items ≡ rest.old.items) }
{
    rest.extend_from_slice(b" sha256=")?;
    digest.push(rest)
}

/// Appends methods, with commas between them, and the digest of the microdescriptor that is made under them.
///
/// # Errors
/// `Memory` is want of memory.
pub fn push_micro(rest: &mut Vec<u8>, methods: &[u32], digest: Digest2) -> Result<(), Memory>
    ensures ok { OnOk result (rest.new.items ≡ rest.old.items ++ texts.micro_text methods.now digest) }
    ensures err { OnErr result (take (vec_len rest.old) rest.new.items ≡ rest.old.items) }
{
    push_methods(rest, methods)?;
    push_sha256(rest, digest)
}
