// The certificates of the held votes.
ghost use Rattle.std.specs.Prelude.{◌≡◌, IfOk, MatchResult};
ghost use Rattle.vote_terms.specs.Held.{vote_of};
ghost use Rattle.http_words.specs.Found as found;
ghost use Rattle.serve_answers.specs.Documents as lists;

use dir_bytes::{Memory, Text};
use dir_values::Fingerprint;
use http_words::unless_empty;
use key_port::Verifier;
use period_core::PeriodState;
use serve_board::Question;
use std::alloc::Global;
use vote_doc::Accepted;

/// The certificates of all held votes.
fn certificates(alloc: Global, held: &Accepted) -> Result<Vec<u8>, Memory>
    ensures { IfOk result (λ bytes. bytes.items ≡ lists.certificates_of held.now.votes) }
{
    let mut out = Vec::new(alloc);
    'votes: for i in 0..held.len() {
        out.extend_from_slice(held.vote(i).vote().certificate_bytes())?;
    }
    Ok(out)
}

/// The certificate of the held vote of an authority.
fn certificate(alloc: Global, held: &Accepted, authority: &Fingerprint) -> Result<Vec<u8>, Memory>
    ensures { IfOk result (λ bytes. bytes.items ≡ lists.certificate_if (vote_of held.now.votes authority.now)) }
{
    match held.vote_of(authority) {
        Some(held) => Ok(Vec::from_slice(alloc, held.vote().certificate_bytes())?),
        None => Ok(Vec::new(alloc)),
    }
}

/// What are the certificates of all held votes?
#[derive(Drop)]
pub(crate) struct AskAllKeys {
    pub(crate) alloc: Global,
}

impl<V: Verifier> Question<PeriodState<V>> for AskAllKeys {
    type Reply = Result<Option<Text>, Memory>;

    ghost finds = { λ before state reply then.
        MatchResult reply (λ text. text ≡ found.unless_empty (lists.certificates_of state.votes)) (λ _. Unit {0}) };

    fn ask(&mut self, value: &PeriodState<V>) -> Result<Option<Text>, Memory> {
        Ok(unless_empty(certificates(self.alloc, value.votes())?))
    }
}

/// What is the certificate of the held vote of an authority?
#[derive(Drop)]
pub(crate) struct AskKeys {
    pub(crate) alloc: Global,
    pub(crate) authority: Fingerprint,
}

impl<V: Verifier> Question<PeriodState<V>> for AskKeys {
    type Reply = Result<Option<Text>, Memory>;

    ghost finds = { λ before state reply then.
        MatchResult reply (λ text. text ≡ found.unless_empty (lists.certificate_if (vote_of state.votes before.authority))) (λ _. Unit {0}) };

    fn ask(&mut self, value: &PeriodState<V>) -> Result<Option<Text>, Memory> {
        let bytes = certificate(self.alloc, value.votes(), &self.authority)?;
        Ok(unless_empty(bytes))
    }
}
