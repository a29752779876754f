// The votes that are held, or why one is refused.
ghost use Rattle.std.specs.Prelude.{◌≡◌, ◌≤◌, ◌<◌, ◌^◌, Err, vec_len};
ghost use Rattle.dir_bytes.specs.Causes.{Rose};
ghost use Rattle.key_port.specs.Answers.{rules};
ghost use Rattle.compute_command.specs.Accepting as words;
ghost use Rattle.compute_command.specs.{Accepting.Accepts, Asked.AsksListed};

use crate::refusal::AcceptRefusal;
use daemon_words::{Compute, Stop};
use key_port::Verifier;
use std::alloc::Global;
use vote_doc::{Accepted, CertAnswer, Vote, VoteRefusal, VoteWord, check_vote};

/// The word for what a certificate lacks.
fn certificate_word(answer: CertAnswer) -> Option<VoteWord>
    ensures { result ≡ words.certificate_word answer }
{
    match answer {
        CertAnswer::WrongFingerprint => Some(VoteWord::Fingerprint),
        CertAnswer::Expired { .. } => Some(VoteWord::Expired),
        CertAnswer::BadCertification => Some(VoteWord::Certification),
        CertAnswer::BadCrosscert => Some(VoteWord::Crosscert),
        CertAnswer::Checked | CertAnswer::VerifierFault => None,
    }
}

/// The word for why a vote is refused, none where the verifier failed.
fn word_of(refusal: VoteRefusal) -> Option<VoteWord>
    ensures { result ≡ words.word_of refusal }
{
    match refusal {
        VoteRefusal::WrongPeriod { .. } => Some(VoteWord::ValidAfter),
        VoteRefusal::UnknownAuthority => Some(VoteWord::Authority),
        VoteRefusal::Cert(answer) => certificate_word(answer),
        VoteRefusal::BadSignature => Some(VoteWord::Signature),
        VoteRefusal::VerifierFault => None,
    }
}

/// What refusing the vote with this number says.
pub(crate) fn refused(number: u64, refusal: VoteRefusal) -> AcceptRefusal
    ensures { result ≡ words.refusal_of number refusal }
{
    match word_of(refusal) {
        Some(word) => AcceptRefusal::Vote { number, word },
        None => AcceptRefusal::Verifier,
    }
}

/// Checks the votes in their order, and holds them.
pub fn accept<V: Verifier>(
    alloc: Global,
    wanted: &Compute,
    votes: Vec<Vote>,
    verifier: &mut V,
) -> Result<Accepted, Stop<AcceptRefusal>>
    requires { vec_len votes < 2 ^ 32 }
    ensures accepts { Accepts (rules V.may_accept V.may_refuse) wanted.now votes.items result }
    ensures fault { result ≡ Err (Stop.Refused AcceptRefusal.Verifier) → Rose (V.faults verifier.old) (V.faults verifier.new) }
    ensures faults { V.faults verifier.old ≤ V.faults verifier.new }
    ensures told { V.faults verifier.old < V.faults verifier.new → result ≡ Err (Stop.Refused AcceptRefusal.Verifier) }
    ensures asked { AsksListed V.steps votes.items verifier.old verifier.new result }
{
    let mut votes = votes;
    let mut accepted = Accepted::new(alloc, votes.len() as u32)?;
    let mut before: u64 = 0;
    'votes: while !votes.is_empty() {
        let vote = votes.remove(0);
        match check_vote(vote, &wanted.roster, wanted.valid_after, verifier) {
            Ok(checked) => {
                let _ = accepted.place(checked.into_held());
            }
            Err(refusal) => return Err(Stop::Refused(refused(before + 1, refusal))),
        }
        before += 1;
    }
    Ok(accepted)
}
