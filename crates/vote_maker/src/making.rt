// Making a vote.
ghost use Rattle.std.specs.Prelude.{◌≡◌, ◌≤◌, ◌<◌, Err, IfOk, IfErr};
ghost use Rattle.dir_bytes.specs.Causes.{Rose, last_moment};
ghost use Rattle.key_port.specs.Answers.{rules as verifier_rules};
ghost use Rattle.authority_certs.specs.Checks.{Asks, Checks};
ghost use Rattle.flag_rules.specs.Rules.{KeepsTo};
ghost use Rattle.vote_schedule.specs.{Moments.valid_until, Schedules.IsSchedule};
ghost use Rattle.vote_maker.specs.Made as terms;
ghost use Rattle.vote_maker.specs.Making as answers;
ghost use Rattle.vote_maker.specs.Private.{IsOfCertificate};

use crate::facts::signed_part;
use crate::refusal::MakeRefusal;
use crate::signing::signed_vote;
use authority_certs::{Cert, CertAnswer, check};
use flag_rules::{Hook, RelayFacts, Rules, Ruling};
use key_port::{Signer, Verifier};
use station_input::StationFacts;
use std::alloc::Global;
use vote_pool::Pool;

/// Whether the own certificate holds when the period begins.
fn check_own<V: Verifier>(cert: &Cert, at: u64, verifier: &mut V) -> Result<(), MakeRefusal>
    ensures certificate { Checks (verifier_rules V.may_accept V.may_refuse) at cert.now (answers.certificate_answer result) }
    ensures refusal { IfErr result (λ refusal. IsOfCertificate refusal) }
    ensures asked { Asks V.steps cert.now (answers.certificate_answer result) verifier.old verifier.new }
    ensures fault { result ≡ Err MakeRefusal.VerifierFault → Rose (V.faults verifier.old) (V.faults verifier.new) }
    ensures faults { V.faults verifier.old ≤ V.faults verifier.new }
    ensures told { V.faults verifier.old < V.faults verifier.new → result ≡ Err MakeRefusal.VerifierFault }
{
    match check(cert, at, verifier) {
        CertAnswer::Checked => Ok(()),
        CertAnswer::VerifierFault => Err(MakeRefusal::VerifierFault),
        answer => Err(MakeRefusal::OwnCert(answer)),
    }
}

/// The signed text of the vote that an authority makes at the moment `now` for the period that begins at
/// `valid_after`, both in seconds since 1970-01-01 00:00:00 UTC (dir-spec, "Vote and consensus status document
/// formats"; "Voting timeline"). It has the bytes of the station's certificate unchanged, an entry for each relay of
/// the pool that the hook does not reject, but of those that share an Ed25519 identity key only the one of the
/// smallest identity, with the flags that are assigned under the hook's rulings; it is signed with the certificate's
/// signing key over the SHA-1 of what is signed.
///
/// # Errors
/// The first that applies: `OwnCert` where the certificate does not hold when the period begins, and then the signer
/// is not asked; `SignerFault` only where the signer's count of faults rose, and wherever it is greater;
/// `VerifierFault` the same of the verifier's, and then the signer is not asked; `TooLong` exactly where the text,
/// with the signature that was given, is longer than a vote may be; `Memory` is want of memory.
pub fn make<R: Rules, F: Fn(RelayFacts) -> Ruling, V: Verifier, N: Signer>(
    alloc: Global,
    station: &StationFacts,
    pool: &Pool<V>,
    hook: &Hook<R, F>,
    valid_after: u64,
    now: u64,
    verifier: &mut V,
    signer: &mut N,
) -> Result<Vec<u8>, MakeRefusal>
    requires schedule { IsSchedule (terms.schedule_in station.now) }
    requires moments { valid_until (terms.schedule_in station.now) valid_after ≤ last_moment }
    requires hook { KeepsTo R.allows F.pre F.post hook.now.rules hook.now.ask }
    ensures made { IfOk result (λ text. answers.IsMade (verifier_rules V.may_accept V.may_refuse) N.may_give N.steps (R.allows hook.now.rules) (terms.basis station.now pool.now.descriptors valid_after now) text.items signer.old signer.new) }
    ensures refused { IfErr result (λ refusal. answers.RefusesToMake (verifier_rules V.may_accept V.may_refuse) N.may_give N.steps (R.allows hook.now.rules) (terms.basis station.now pool.now.descriptors valid_after now) refusal signer.old signer.new) }
    ensures asked { Asks V.steps station.now.certificate (answers.certificate_answer result) verifier.old verifier.new }
    ensures verifier_fault { result ≡ Err MakeRefusal.VerifierFault → Rose (V.faults verifier.old) (V.faults verifier.new) }
    ensures verifier_faults { V.faults verifier.old ≤ V.faults verifier.new }
    ensures verifier_told { V.faults verifier.old < V.faults verifier.new → result ≡ Err MakeRefusal.VerifierFault }
    ensures signer_fault { result ≡ Err MakeRefusal.SignerFault → Rose (N.faults signer.old) (N.faults signer.new) }
    ensures signer_faults { N.faults signer.old ≤ N.faults signer.new }
    ensures signer_told { N.faults signer.old < N.faults signer.new → result ≡ Err MakeRefusal.SignerFault }
{
    match check_own(&station.certificate, valid_after, verifier) {
        Ok(()) => (),
        Err(refusal) => return Err(refusal),
    }
    let text = signed_part(alloc, station, pool, hook, valid_after, now)?;
    signed_vote(alloc, text, &station.certificate, signer)
}
