// What is kept of a certificate's section: numbers, and where its texts stand.
ghost use Rattle.std.specs.Prelude.{◌≡◌, IfOk};
ghost use Rattle.authority_certs.specs.Certs as certs;
ghost use Rattle.authority_certs.specs.Heads as heads;

use crate::cert::Cert;
use dir_bytes::Memory;
use dir_values::{Digest1, Fingerprint};
use frame_terms::{Keyword, Taken};
use frame_values::{
    Span, Value, after_at, between, copy_part_if, decode_part, fingerprint_at, line_end_at, moment,
    no_identity, nowhere, number_at, object_at, place_at, text_if,
};
use sha1::Sha1;
use sha2::Digest;
use std::alloc::Global;

/// What the items of a certificate say, and where its texts stand in the bytes of its document. Moments are seconds
/// since 1970-01-01 00:00:00 UTC.
#[derive(Clone, Copy, Debug)]
pub struct CertHead {
    /// The place of its first item.
    pub begin: u64,
    /// The place after the line `dir-key-certification`.
    pub covered_end: u64,
    /// The place after its last object.
    pub end: u64,
    /// The address of its authority.
    pub address: Option<Span>,
    /// The identity of its authority.
    pub fingerprint: Fingerprint,
    /// The lines of the identity key.
    pub identity_key: Span,
    /// When the certificate was made.
    pub published: u64,
    /// Until when the signing key may be used.
    pub expires: u64,
    /// The lines of the signing key.
    pub signing_key: Span,
    /// The lines of the signing key's signature.
    pub crosscert: Span,
    /// The lines of the identity key's signature.
    pub certification: Span,
}

/// Where nothing was read.
pub fn no_head() -> CertHead
    ensures { result ≡ heads.no_head }
{
    CertHead {
        begin: 0,
        covered_end: 0,
        end: 0,
        address: None,
        fingerprint: no_identity(),
        identity_key: nowhere(),
        published: 0,
        expires: 0,
        signing_key: nowhere(),
        crosscert: nowhere(),
        certification: nowhere(),
    }
}

/// What is kept of a certificate with these items.
pub fn head_of<V: Copy>(taken: &[Taken<Value<V>>]) -> CertHead
    ensures { result ≡ heads.head_of taken.now }
{
    CertHead {
        begin: place_at(taken, Keyword::DirKeyCertificateVersion),
        covered_end: line_end_at(taken, Keyword::DirKeyCertification),
        end: after_at(taken, Keyword::DirKeyCertification),
        address: text_if(taken, Keyword::DirAddress),
        fingerprint: fingerprint_at(taken, Keyword::Fingerprint),
        identity_key: object_at(taken, Keyword::DirIdentityKey),
        published: number_at(taken, Keyword::DirKeyPublished),
        expires: number_at(taken, Keyword::DirKeyExpires),
        signing_key: object_at(taken, Keyword::DirSigningKey),
        crosscert: object_at(taken, Keyword::DirKeyCrosscert),
        certification: object_at(taken, Keyword::DirKeyCertification),
    }
}

/// What the certificate says of whose section this was kept, in the bytes of its document.
///
/// # Errors
/// `Memory` is want of memory.
pub fn cert_at(alloc: Global, bytes: &[u8], head: &CertHead) -> Result<Cert, Memory>
    ensures { IfOk result (λ cert. cert ≡ certs.cert_in bytes.now head.now) }
{
    Ok(Cert {
        address: copy_part_if(alloc, bytes, head.address)?,
        fingerprint: head.fingerprint,
        identity_key: decode_part(alloc, bytes, head.identity_key)?,
        published: moment(head.published),
        expires: moment(head.expires),
        signing_key: decode_part(alloc, bytes, head.signing_key)?,
        crosscert: decode_part(alloc, bytes, head.crosscert)?,
        certification: decode_part(alloc, bytes, head.certification)?,
        covered: Digest1(Sha1::digest(between(bytes, head.begin, head.covered_end))),
    })
}
