// The publication.
ghost use Rattle.std.specs.Prelude.{◌≡◌, ◌≤◌, ◌<◌, ◌+◌, ◌^◌, ◌++◌, ◌∷◌, [], None, Some, IfOk, OnErr, Ok, true, length};
ghost use Rattle.std.specs.Prelude.{vec_len, vec_capacity, if◌then◌else◌};
ghost use Rattle.consensus_terms.specs.declared.flavour.Flavour.TheVariants as flavour;
ghost use Rattle.period_terms.specs.Advances as advances;
ghost use Rattle.period_terms.specs.States as states;
ghost use Rattle.period_core.specs.Rounds as rounds;
ghost use Rattle.period_core.specs.{Publishes.Publishes, Signing.{Comes, IsQuiet}};
ghost use Rattle.period_terms.specs.declared.stage.Stage.TheVariants as stage;

use crate::made::Made;
use crate::state::PeriodState;
use consensus_terms::{Flavour, SignatureLine};
use consensus_text::write_signed;
use dir_bytes::{Memory, Text};
use key_port::Verifier;
use period_terms::{Advance, ChangeKind, ShortBytes, Stage, put_line, signers_in};
use std::alloc::Global;

/// The text with signatures behind it, where it is wanted.
fn signed_if(
    alloc: Global,
    wanted: bool,
    text: &[u8],
    lines: &[SignatureLine],
) -> Result<Option<Text>, Memory>
    ensures { IfOk result (λ signed. signed ≡ rounds.signed_if wanted text.now lines.now) }
{
    if wanted {
        Ok(Some(Text::new(write_signed(alloc, text, lines)?)))
    } else {
        Ok(None)
    }
}

/// The digests of the flavours that are published, ns first.
fn digests_of(made: &Made, ns: bool, microdesc: bool) -> ShortBytes
    ensures { result ≡ advances.published_digests ns microdesc made.now }
{
    match (ns, microdesc) {
        (true, true) => ShortBytes::of_two(made.sha1(), made.sha256()),
        (true, false) => made.digest(Flavour::Ns),
        (false, true) => made.digest(Flavour::Microdesc),
        (false, false) => ShortBytes::of(b""),
    }
}

impl<V: Verifier> PeriodState<V> {
    /// The authority holds no vote of its own, and does not sign.
    pub(crate) fn pass_over(&mut self)
        requires { self.old.stage ≡ stage.Computed }
        ensures { self.new ≡ (advances.pass_over self.old).after }
    {
        let change = self.change(ChangeKind::NoOwnVote, Some(self.own), ShortBytes::of(b""));
        self.stage = Stage::Signed;
        self.log.add(change);
    }

    /// The authority's own signatures are held, in place of its own that were.
    pub(crate) fn hold_own(
        &mut self,
        ns: SignatureLine,
        microdesc: SignatureLine,
        digests: ShortBytes,
    )
        requires stage { self.old.stage ≡ stage.Computed }
        requires ns { ns.identity ≡ self.old.own }
        requires microdesc { microdesc.identity ≡ self.old.own }
        requires digests { length digests ≡ 52 }
        ensures { self.new ≡ rounds.with_own ns microdesc digests self.old }
    {
        let change = self.change(ChangeKind::Sign, Some(self.own), digests);
        self.stage = Stage::Signed;
        put_line(&mut self.ns_lines, ns);
        put_line(&mut self.micro_lines, microdesc);
        self.log.add(change);
    }

    /// How many members of the roster signed a flavour.
    fn signers(&self, flavour: Flavour) -> u32
        ensures value { result ≡ states.signers flavour self.now }
        ensures few { result ≤ 32 }
    {
        signers_in(&self.roster, self.lines(flavour))
    }

    /// The text of a flavour with the signatures that are held, where it is wanted.
    pub(crate) fn signed_if(
        &self,
        alloc: Global,
        wanted: bool,
        flavour: Flavour,
        made: &Made,
    ) -> Result<Option<Text>, Memory>
        ensures { IfOk result (λ signed. signed ≡ (if wanted then Some (states.signed_text flavour self.now made.now) else None)) }
    {
        signed_if(alloc, wanted, made.text(flavour), self.lines(flavour))
    }

    /// What is to be published.
    fn due(&self, alloc: Global) -> Result<Due, Memory>
        ensures { IfOk result (λ due. Publishes self.now due) }
    {
        let Some(made) = self.computed() else {
            return Ok(Due::Nothing);
        };
        let roster = self.members();
        let ns_signers = self.signers(Flavour::Ns);
        let micro_signers = self.signers(Flavour::Microdesc);
        let ns_passes = roster < 2 * ns_signers;
        let micro_passes = roster < 2 * micro_signers;
        if !ns_passes && !micro_passes {
            return Ok(Due::Misses(ns_signers, micro_signers, roster));
        }
        let ns = self.signed_if(alloc, ns_passes, Flavour::Ns, made)?;
        let microdesc = self.signed_if(alloc, micro_passes, Flavour::Microdesc, made)?;
        Ok(Due::Texts(
            ns_passes,
            ns,
            micro_passes,
            microdesc,
            digests_of(made, ns_passes, micro_passes),
        ))
    }

    /// There are too few signatures.
    fn miss(&mut self)
        requires { self.old.stage ≡ stage.Signed }
        ensures { self.new ≡ (advances.miss self.old).after }
    {
        let change = self.change(ChangeKind::Miss, None, ShortBytes::of(b""));
        self.stage = Stage::Ended;
        self.log.add(change);
    }

    /// These texts are published.
    fn put_texts(&mut self, ns: Option<Text>, microdesc: Option<Text>, digests: ShortBytes)
        requires { self.old.stage ≡ stage.Signed }
        ensures { self.new ≡ rounds.with_texts ns microdesc digests self.old }
    {
        let change = self.change(ChangeKind::Publish, None, digests);
        self.stage = Stage::Ended;
        put_text(&mut self.ns_current, ns);
        put_text(&mut self.micro_current, microdesc);
        self.log.add(change);
    }

    /// The flavours that more than half of the roster signed are published, if there are some.
    pub(crate) fn publish(&mut self, alloc: Global) -> Result<Advance, Memory>
        requires { self.old.stage ≡ stage.Signed }
        ensures step { IfOk result (λ answer. Comes (advances.with_consensus self.old (advances.publish self.old) self.old.computed) answer self.new) }
        ensures err { OnErr result (self.new ≡ self.old) }
        ensures quiet { IsQuiet result }
    {
        match self.due(alloc)? {
            Due::Nothing => Ok(Advance::Nothing),
            Due::Misses(ns, microdesc, roster) => {
                self.miss();
                Ok(Advance::Missed {
                    ns,
                    microdesc,
                    roster,
                })
            }
            Due::Texts(ns_passes, ns, micro_passes, microdesc, digests) => {
                self.put_texts(ns, microdesc, digests);
                Ok(Advance::Published {
                    ns: ns_passes,
                    microdesc: micro_passes,
                })
            }
        }
    }
}

/// What is to be published.
#[derive(Drop)]
pub enum Due {
    /// Nothing is computed.
    Nothing,
    /// So few signed either flavour, of so many.
    Misses(u32, u32, u32),
    /// Whether each flavour is published, with its text, and their digests.
    Texts(bool, Option<Text>, bool, Option<Text>, ShortBytes),
}

/// Puts a text in place of another, if there is one.
fn put_text(current: &mut Option<Text>, text: Option<Text>)
    ensures { current.new ≡ rounds.newer text current.old }
{
    match text {
        Some(text) => *current = Some(text),
        None => {}
    }
}
