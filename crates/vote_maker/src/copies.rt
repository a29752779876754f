// Copies of what a station is given, for the vote that says it again.
ghost use Rattle.std.specs.Prelude.{◌≡◌, IfOk};

use authority_certs::Cert;
use dir_bytes::{Memory, Text};
use list_values::{Params, ProtoRanges, VersionList};
use std::alloc::Global;
use vote_terms::VoteLists;

/// A copy of a text.
///
/// # Errors
/// `Memory` is want of memory.
pub(crate) fn copy(alloc: Global, text: &Text) -> Result<Text, Memory>
    ensures { IfOk result (λ copy. copy ≡ text.now) }
{
    Text::copy_of(alloc, text.as_bytes())
}

/// A copy of a text, where there is one.
///
/// # Errors
/// `Memory` is want of memory.
pub(crate) fn copy_if(alloc: Global, text: &Option<Text>) -> Result<Option<Text>, Memory>
    ensures { IfOk result (λ copy. copy ≡ text.now) }
{
    match text {
        Some(text) => Ok(Some(copy(alloc, text)?)),
        None => Ok(None),
    }
}

/// A copy of a list of versions of Tor, where there is one.
fn copy_versions(alloc: Global, list: &Option<VersionList>) -> Result<Option<VersionList>, Memory>
    ensures { IfOk result (λ copy. copy ≡ list.now) }
{
    match list {
        Some(list) => Ok(Some(list.copy(alloc)?)),
        None => Ok(None),
    }
}

/// A copy of a list of versions of protocols, where there is one.
fn copy_protocols(alloc: Global, list: &Option<ProtoRanges>) -> Result<Option<ProtoRanges>, Memory>
    ensures { IfOk result (λ copy. copy ≡ list.now) }
{
    match list {
        Some(list) => Ok(Some(list.copy(alloc)?)),
        None => Ok(None),
    }
}

/// A copy of params, where there are some.
fn copy_params(alloc: Global, params: &Option<Params>) -> Result<Option<Params>, Memory>
    ensures { IfOk result (λ copy. copy ≡ params.now) }
{
    match params {
        Some(params) => Ok(Some(params.copy(alloc)?)),
        None => Ok(None),
    }
}

/// A copy of the lists.
///
/// # Errors
/// `Memory` is want of memory.
pub(crate) fn copy_lists(alloc: Global, lists: &VoteLists) -> Result<VoteLists, Memory>
    ensures { IfOk result (λ copy. copy ≡ lists.now) }
{
    Ok(VoteLists {
        client_versions: copy_versions(alloc, &lists.client_versions)?,
        server_versions: copy_versions(alloc, &lists.server_versions)?,
        recommended_client_protocols: copy_protocols(alloc, &lists.recommended_client_protocols)?,
        recommended_relay_protocols: copy_protocols(alloc, &lists.recommended_relay_protocols)?,
        required_client_protocols: copy_protocols(alloc, &lists.required_client_protocols)?,
        required_relay_protocols: copy_protocols(alloc, &lists.required_relay_protocols)?,
        params: copy_params(alloc, &lists.params)?,
    })
}

/// A copy of a certificate.
///
/// # Errors
/// `Memory` is want of memory.
pub(crate) fn copy_certificate(alloc: Global, cert: &Cert) -> Result<Cert, Memory>
    ensures { IfOk result (λ copy. copy ≡ cert.now) }
{
    Ok(Cert {
        address: copy_if(alloc, &cert.address)?,
        fingerprint: cert.fingerprint,
        identity_key: copy(alloc, &cert.identity_key)?,
        published: cert.published,
        expires: cert.expires,
        signing_key: copy(alloc, &cert.signing_key)?,
        crosscert: copy(alloc, &cert.crosscert)?,
        certification: copy(alloc, &cert.certification)?,
        covered: cert.covered,
    })
}
