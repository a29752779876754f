// Which authorities signed a consensus.
ghost use Rattle.std.specs.Prelude.{◌≡◌, ◌≢◌, ◌<◌, ◌≤◌, ◌++◌, [], ◌∷◌, Err, IfOk, OnOk, map};
ghost use Rattle.dir_bytes.specs.Causes.{Rose};
ghost use Rattle.key_port.specs.Answers.{rules};
ghost use Rattle.vote_terms.specs.Held.{VotesAscend};
ghost use Rattle.health_report.specs.Signers as signers;
ghost use Rattle.health_report.specs.Signers.{SignedPart};

use crate::fault::ReportFault;
use consensus_terms::{SignatureLine, SignedConsensus};
use detached_sigs::{SignerKey, signers_among};
use dir_bytes::{Memory, Text};
use dir_values::Fingerprint;
use frame_values::between;
use key_port::Verifier;
use sha1::Sha1;
use std::alloc::Global;
use vote_doc::{Accepted, Vote};

/// The authority of a vote, with the signing key of its certificate.
fn key_of(alloc: Global, vote: &Vote) -> Result<SignerKey, Memory>
    ensures { IfOk result (λ key. key ≡ signers.key_of vote.now) }
{
    let key = Text::copy_of(alloc, vote.certificate().signing_key.as_bytes())?;
    Ok(SignerKey {
        authority: vote.identity(),
        key,
    })
}

/// Adds a copy of a line whose signature is over a SHA-1.
fn push_sha1(
    alloc: Global,
    found: &mut Vec<SignatureLine>,
    line: &SignatureLine,
) -> Result<(), Memory>
    ensures { OnOk result (found.new.items ≡ found.old.items ++ signers.sha1_lines (line.now ∷ [])) }
{
    if line.algorithm.as_bytes() != b"sha1".as_slice() {
        return Ok(());
    }
    let copy = line.copy(alloc)?;
    found.push(copy)?;
    Ok(())
}

/// Copies of the lines whose signatures are over a SHA-1.
fn sha1_lines(alloc: Global, lines: &[SignatureLine]) -> Result<Vec<SignatureLine>, Memory>
    ensures { IfOk result (λ found. found.items ≡ signers.sha1_lines lines.now) }
{
    let mut found = Vec::new(alloc);
    'lines: for line in lines {
        push_sha1(alloc, &mut found, line)?;
    }
    Ok(found)
}

/// The held votes ascend by identity, so that no two are of one authority.
fn ascend(votes: &Accepted)
    ensures { VotesAscend votes.now.votes }
{
    let _ = votes.vote_of(&Fingerprint([0; 20]));
}

/// The keys of the authorities whose votes are held, in the order of the votes.
fn keys_of(alloc: Global, votes: &Accepted) -> Result<Vec<SignerKey>, Memory>
    ensures { IfOk result (λ keys. keys.items ≡ map signers.key_of votes.now.votes) }
{
    let mut keys = Vec::new(alloc);
    'votes: for number in 0..votes.len() {
        keys.push(key_of(alloc, votes.vote(number).vote())?)?;
    }
    Ok(keys)
}

/// Those of the authorities whose votes are held that signed a consensus, which was read from these bytes. None, for which the
/// verifier is not asked, where it has no signed part.
///
/// # Errors
/// `VerifierFault` exactly where the verifier's count of faults rose. `Memory` is want of memory.
pub(crate) fn signers_of<V: Verifier>(
    alloc: Global,
    votes: &Accepted,
    consensus: &SignedConsensus,
    bytes: &[u8],
    verifier: &mut V,
) -> Result<Vec<SignerKey>, ReportFault>
    ensures signers { IfOk result (λ found. SignedPart (rules V.may_accept V.may_refuse) votes.now.votes consensus.now.signatures bytes.now consensus.now.signed found.items) }
    ensures fault { result ≡ Err ReportFault.VerifierFault → Rose (V.faults verifier.old) (V.faults verifier.new) }
    ensures faults { V.faults verifier.old ≤ V.faults verifier.new }
    ensures told { V.faults verifier.old < V.faults verifier.new → result ≡ Err ReportFault.VerifierFault }
    ensures flavour { result ≢ Err ReportFault.WrongFlavour }
{
    let Some((begin, end)) = consensus.signed else {
        return Ok(Vec::new(alloc));
    };
    let digest = Sha1::digest(between(bytes, begin, end));
    let lines = sha1_lines(alloc, consensus.signatures.as_slice())?;
    let keys = keys_of(alloc, votes)?;
    ascend(votes);
    match signers_among(&digest, keys, &lines, verifier) {
        Ok(found) => Ok(found),
        Err(_) => Err(ReportFault::VerifierFault),
    }
}
