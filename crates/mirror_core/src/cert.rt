// A certificate that is kept.
ghost use Rattle.std.specs.Prelude.{◌≡◌, ◌++◌, [], ◌∷◌, IfOk};
ghost use Rattle.mirror_core.specs.Signers as signers;

use authority_certs::Cert;
use bytes::Bytes;
use detached_sigs::SignerKey;
use dir_bytes::{Memory, Text};
use std::alloc::Global;
use std::marker::Model;

/// A certificate, and the bytes from its first item through its last object.
#[derive(Drop)]
pub(crate) struct HeldCert {
    pub(crate) cert: Cert,
    pub(crate) bytes: Bytes,
}

impl Model for HeldCert {
    ghost use Rattle.mirror_core.specs.States.{KeptCert};

    ghost Value = { KeptCert };

    ghost view = { λ c. record { cert = c.cert; bytes = c.bytes } };
}

/// The authority of a certificate, with a copy of its signing key.
fn key_of(alloc: Global, kept: &HeldCert) -> Result<SignerKey, Memory>
    ensures { IfOk result (λ key. key ≡ signers.key_of kept.now) }
{
    Ok(SignerKey {
        authority: kept.cert.fingerprint,
        key: Text::copy_of(alloc, kept.cert.signing_key.as_bytes())?,
    })
}

/// The keys of certificates.
pub(crate) fn keys_of(alloc: Global, certs: &[HeldCert]) -> Result<Vec<SignerKey>, Memory>
    ensures { IfOk result (λ keys. keys.items ≡ signers.keys_of certs.now) }
{
    let mut keys = Vec::new(alloc);
    'certs: for kept in certs {
        keys.push(key_of(alloc, kept)?)?;
    }
    Ok(keys)
}
