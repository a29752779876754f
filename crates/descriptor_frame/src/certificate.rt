// A certificate of an Ed25519 key.
ghost use Rattle.std.specs.Prelude.{◌≡◌, ◌≤◌, IfOk, is_some, length};
ghost use Rattle.dir_values.specs.Refusals.{Reads, or_bad_value};
ghost use Rattle.descriptor_frame.specs.Certificates as certificates;

use crate::extensions::signer_in;
use dir_bytes::{Memory, Text};
use dir_values::ValueRefusal;
use std::alloc::Global;

/// A certificate by which a relay's Ed25519 identity key signs the key that it works with (cert-spec, "Document formats",
/// type 4), or by which a family key signs the identity key of one of its relays (type 12).
#[derive(Debug, Drop)]
pub struct EdCert {
    /// The hours since 1970-01-01 00:00:00 UTC after which it does not hold.
    pub expires_hours: u32,
    /// The kind of the key that is certified; it is read no further.
    pub key_kind: u8,
    /// The key that is certified.
    pub key: [u8; 32],
    /// The key that certifies it, as the one extension of type 4 names it.
    pub signer: [u8; 32],
    /// The signer's signature of `covered`.
    pub signature: [u8; 64],
    /// The bytes that are signed: all but the signature.
    pub covered: Text,
}

impl EdCert {
    /// The certificate that the bytes are: version 1 and type 4, an expiry, a key, extensions of which exactly one has type 4
    /// and names a signer in 32 bytes, and 64 bytes of signature.
    ///
    /// # Errors
    /// `BadValue`, at place 0, for any other bytes: also where one is too few or too many, and where an extension of another
    /// type must be understood. `Memory` is want of memory.
    pub fn read(alloc: Global, bytes: &[u8]) -> Result<EdCert, ValueRefusal>
        ensures { Reads (or_bad_value (certificates.certificate_of bytes.now)) result }
    {
        if !begins_well(bytes) {
            return Err(ValueRefusal::BadValue { place: 0 });
        }
        let Some(signer) = signer_of(bytes) else {
            return Err(ValueRefusal::BadValue { place: 0 });
        };
        Ok(signed_by(alloc, bytes, signer)?)
    }

    /// The certificate that the bytes are by which a family key signs a relay's identity key, where they are one: the same as
    /// that of a signing key, but of type 12. Its signer is the family key.
    ///
    /// # Errors
    /// `Memory` is want of memory.
    pub fn read_family(alloc: Global, bytes: &[u8]) -> Result<Option<EdCert>, Memory>
        ensures { IfOk result (λ cert. cert ≡ certificates.family_certificate_of bytes.now) }
    {
        if !begins_family(bytes) {
            return Ok(None);
        }
        match signer_of(bytes) {
            Some(signer) => Ok(Some(signed_by(alloc, bytes, signer)?)),
            None => Ok(None),
        }
    }
}

/// The certificate that bytes are, whose signer is known.
///
/// # Errors
/// `Memory` is want of memory.
fn signed_by(alloc: Global, bytes: &[u8], signer: [u8; 32]) -> Result<EdCert, Memory>
    requires { certificates.least_len ≤ length bytes.now }
    ensures { IfOk result (λ cert. cert ≡ certificates.signed_by bytes.now signer) }
{
    Ok(EdCert {
        expires_hours: expiry_of(bytes),
        key_kind: bytes[6],
        key: key_of(bytes),
        signer,
        signature: signature_of(bytes),
        covered: Text::copy_of(alloc, covered_part(bytes))?,
    })
}

/// Whether the bytes are a certificate. Takes no memory.
pub fn is_certificate(bytes: &[u8]) -> bool
    ensures { result ≡ is_some (certificates.certificate_of bytes.now) }
{
    begins_well(bytes) && signer_of(bytes).is_some()
}

/// Whether the bytes are enough, and begin with version 1 and type 4.
fn begins_well(bytes: &[u8]) -> bool
    ensures { result ≡ certificates.begins_well bytes.now }
{
    bytes.len() >= 104 && bytes[0] == 1 && bytes[1] == 4
}

/// Whether the bytes are enough, and begin with version 1 and type 12.
fn begins_family(bytes: &[u8]) -> bool
    ensures { result ≡ certificates.begins_family bytes.now }
{
    bytes.len() >= 104 && bytes[0] == 1 && bytes[1] == 12
}

/// The hours since 1970 after which a certificate does not hold.
fn expiry_of(bytes: &[u8]) -> u32
    requires { certificates.least_len ≤ length bytes.now }
    ensures { result ≡ certificates.expiry_of bytes.now }
{
    ((bytes[2] as u32 * 256 + bytes[3] as u32) * 256 + bytes[4] as u32) * 256 + bytes[5] as u32
}

/// The certificate without its signature.
fn covered_part(bytes: &[u8]) -> &[u8]
    requires { certificates.least_len ≤ length bytes.now }
    ensures { result.now ≡ certificates.covered_part bytes.now }
{
    &bytes[..bytes.len() - 64]
}

/// The extensions, between their number and the signature.
fn extensions_of(bytes: &[u8]) -> &[u8]
    requires { certificates.least_len ≤ length bytes.now }
    ensures { result.now ≡ certificates.extensions_of bytes.now }
{
    let covered = covered_part(bytes);
    &covered[40..]
}

/// The signer that the extensions hold.
fn signer_of(bytes: &[u8]) -> Option<[u8; 32]>
    requires { certificates.least_len ≤ length bytes.now }
    ensures { result ≡ certificates.signer_of bytes.now }
{
    signer_in(bytes[39], extensions_of(bytes))
}

/// The key that is certified.
fn key_of(bytes: &[u8]) -> [u8; 32]
    requires { certificates.least_len ≤ length bytes.now }
    ensures { result ≡ certificates.key_of bytes.now }
{
    let mut key = [0u8; 32];
    key.copy_from_slice(&bytes[7..39]);
    key
}

/// The last 64 bytes.
fn signature_of(bytes: &[u8]) -> [u8; 64]
    requires { certificates.least_len ≤ length bytes.now }
    ensures { result ≡ certificates.signature_of bytes.now }
{
    let mut signature = [0u8; 64];
    signature.copy_from_slice(&bytes[bytes.len() - 64..]);
    signature
}
