// Copies of certificates, and of those of smaller or greater fingerprints.
ghost use Rattle.std.specs.Prelude.{◌≡◌, ◌++◌, [], ◌∷◌, IfOk, OnOk};
ghost use Rattle.mirror_core.specs.Answers as answers;
ghost use Rattle.mirror_core.specs.Lending as lending;

use crate::cert::HeldCert;
use authority_certs::Cert;
use dir_bytes::{Memory, Text};
use dir_values::Fingerprint;
use std::alloc::Global;

/// A copy of a text, if there is one.
fn copy_if(alloc: Global, text: &Option<Text>) -> Result<Option<Text>, Memory>
    ensures { IfOk result (λ copy. copy ≡ text.now) }
{
    match text {
        Some(text) => Ok(Some(Text::copy_of(alloc, text.as_bytes())?)),
        None => Ok(None),
    }
}

/// A copy of a certificate.
fn copy_cert(alloc: Global, cert: &Cert) -> Result<Cert, Memory>
    ensures { IfOk result (λ copy. copy ≡ cert.now) }
{
    Ok(Cert {
        address: copy_if(alloc, &cert.address)?,
        fingerprint: cert.fingerprint,
        identity_key: Text::copy_of(alloc, cert.identity_key.as_bytes())?,
        published: cert.published,
        expires: cert.expires,
        signing_key: Text::copy_of(alloc, cert.signing_key.as_bytes())?,
        crosscert: Text::copy_of(alloc, cert.crosscert.as_bytes())?,
        certification: Text::copy_of(alloc, cert.certification.as_bytes())?,
        covered: cert.covered,
    })
}

/// A copy of a certificate that is kept, which shares its bytes.
fn copy_of(alloc: Global, kept: &HeldCert) -> Result<HeldCert, Memory>
    ensures { IfOk result (λ copy. copy ≡ kept.now) }
{
    Ok(HeldCert {
        cert: copy_cert(alloc, &kept.cert)?,
        bytes: kept.bytes.clone()?,
    })
}

/// Adds a copy of a certificate.
fn push_copy(alloc: Global, out: &mut Vec<HeldCert>, kept: &HeldCert) -> Result<(), Memory>
    ensures { OnOk result (out.new.items ≡ out.old.items ++ kept.now ∷ []) }
{
    out.push(copy_of(alloc, kept)?)?;
    Ok(())
}

/// Copies of certificates.
pub(crate) fn copies(alloc: Global, certs: &[HeldCert]) -> Result<Vec<HeldCert>, Memory>
    ensures { IfOk result (λ copies. copies.items ≡ certs.now) }
{
    let mut out = Vec::new(alloc);
    'certs: for kept in certs {
        push_copy(alloc, &mut out, kept)?;
    }
    Ok(out)
}

/// Adds a copy of a certificate of a smaller fingerprint.
fn push_below(
    alloc: Global,
    out: &mut Vec<HeldCert>,
    kept: &HeldCert,
    authority: &Fingerprint,
) -> Result<(), Memory>
    ensures { OnOk result (out.new.items ≡ out.old.items ++ lending.below authority.now (kept.now ∷ [])) }
{
    if kept.cert.fingerprint.is_below(authority) {
        push_copy(alloc, out, kept)?;
    }
    Ok(())
}

/// Adds a copy of a certificate of a greater fingerprint.
fn push_above(
    alloc: Global,
    out: &mut Vec<HeldCert>,
    kept: &HeldCert,
    authority: &Fingerprint,
) -> Result<(), Memory>
    ensures { OnOk result (out.new.items ≡ out.old.items ++ lending.above authority.now (kept.now ∷ [])) }
{
    if authority.is_below(&kept.cert.fingerprint) {
        push_copy(alloc, out, kept)?;
    }
    Ok(())
}

/// Adds copies of the certificates of smaller fingerprints.
fn push_all_below(
    alloc: Global,
    out: &mut Vec<HeldCert>,
    certs: &[HeldCert],
    authority: &Fingerprint,
) -> Result<(), Memory>
    ensures { OnOk result (out.new.items ≡ out.old.items ++ lending.below authority.now certs.now) }
{
    'certs: for kept in certs {
        push_below(alloc, out, kept, authority)?;
    }
    Ok(())
}

/// Adds copies of the certificates of greater fingerprints.
fn push_all_above(
    alloc: Global,
    out: &mut Vec<HeldCert>,
    certs: &[HeldCert],
    authority: &Fingerprint,
) -> Result<(), Memory>
    ensures { OnOk result (out.new.items ≡ out.old.items ++ lending.above authority.now certs.now) }
{
    'certs: for kept in certs {
        push_above(alloc, out, kept, authority)?;
    }
    Ok(())
}

/// Copies of certificates, with one more in place of the other of its authority.
pub(crate) fn with_cert(
    alloc: Global,
    certs: &[HeldCert],
    new: HeldCert,
) -> Result<Vec<HeldCert>, Memory>
    ensures { IfOk result (λ with. with.items ≡ answers.with_cert certs.now new) }
{
    let authority = new.cert.fingerprint;
    let mut out = Vec::new(alloc);
    push_all_below(alloc, &mut out, certs, &authority)?;
    out.push(new)?;
    push_all_above(alloc, &mut out, certs, &authority)?;
    Ok(out)
}
