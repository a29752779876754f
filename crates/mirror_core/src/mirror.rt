// What a mirror holds, and its calls.
ghost use Rattle.std.specs.Prelude.{◌≡◌, ◌≤◌, ◌<◌, ◌-◌, ◌^◌, Err, IfOk, IfErr, length, map, option_map};
ghost use Rattle.dir_bytes.specs.Causes.{Rose};
ghost use Rattle.key_port.specs.Answers.{rules};
ghost use Rattle.mirror_core.specs.Answers as answers;
ghost use Rattle.mirror_core.specs.{Answers.{AnswersCerts, AnswersConsensus, AnswersMicros, IsSignedBy}, Rows.rows_of};
ghost use Rattle.mirror_core.specs.Lending.{IsMajority, IsMinority, IsUnsigned};
ghost use Rattle.mirror_core.specs.States as states;

use crate::cert::HeldCert;
use crate::cert_copies::copies;
use crate::certs;
use crate::consensus::{check_newer, digests_of, named, over, read_microdesc};
use crate::extent::{begin_of, consensus_part};
use crate::held::Held;
use crate::inputs::read_all;
use crate::kinds::{Certs, Micros};
use crate::micros::take_each;
use crate::refusal::{MirrorRefusal, of_read};
use crate::report::{CertReport, MicroReport};
use crate::shelf::Shelf;
use crate::signing::signers_of;
use crate::wanting::wanted;
use bytes::Bytes;
use consensus_terms::SignedConsensus;
use detached_sigs::SignerKey;
use dir_bytes::Memory;
use dir_values::{Digest2, Roster};
use key_port::Verifier;
use std::alloc::Global;
use std::marker::{Model, PhantomData};
use std::snapshot::Snapshot;

/// A consensus, and who signed it.
#[derive(Drop)]
struct Signed {
    consensus: SignedConsensus,
    signers: Vec<SignerKey>,
}

/// What a mirror holds: checked certificates of its roster's members, a consensus that more than half of them signed, and
/// microdescriptors that this consensus names (dir-spec, "Directory cache operation").
#[derive(Drop)]
pub struct Mirror<V: Verifier> {
    alloc: Global,
    roster: Roster,
    certs: Vec<HeldCert>,
    held: Option<Held>,
    shelf: Shelf,
    verifier: PhantomData<V>,
}

impl<V: Verifier> Model for Mirror<V> {
    ghost use Rattle.mirror_core.specs.{States.Mirrored, Sound.IsSound};
    ghost use Rattle.key_port.specs.Answers.{rules};

    ghost Value = { Mirrored };

    ghost view = { λ m. record { roster = m.roster; certs = m.certs.items; held = m.held; rows = m.shelf } };

    ghost invariant = { λ m. IsSound (rules V.may_accept V.may_refuse) (record { roster = m.roster; certs = m.certs.items; held = m.held; rows = m.shelf }) };
}

impl<V: Verifier> Mirror<V> {
    /// A mirror that was given nothing yet.
    pub fn new(alloc: Global, roster: Roster) -> Mirror<V>
        ensures { result ≡ states.no_mirror roster }
    {
        Mirror {
            alloc,
            roster,
            certs: Vec::new(alloc),
            held: None,
            shelf: Shelf::new(alloc),
            verifier: PhantomData,
        }
    }

    /// When the held consensus is valid from, where one is held.
    fn held_from(&self) -> Option<u64>
        ensures { result ≡ answers.held_from self.now.held }
    {
        match &self.held {
            Some(held) => Some(held.valid_after),
            None => None,
        }
    }

    /// Takes the certificates of members that are greater than the ones that are kept of them, one after the other, where they hold
    /// at a moment, in seconds since 1970 (dir-spec, "Creating key certificates").
    ///
    /// # Errors
    /// `Document` is the first fault of the first certificate that has one, with its place in the input; `VerifierFault` only where
    /// the verifier's count of faults rose; `Memory` is want of memory. Then nothing has changed.
    pub fn take_certs(
        &mut self,
        bytes: &[u8],
        now: u64,
        verifier: &mut V,
    ) -> Result<CertReport, MirrorRefusal>
        requires { length bytes.now < 2 ^ 32 - 1 }
        ensures answers { AnswersCerts (rules V.may_accept V.may_refuse) now self.old bytes.now result self.new }
        ensures fault { result ≡ Err MirrorRefusal.VerifierFault → Rose (V.faults verifier.old) (V.faults verifier.new) }
        ensures faults { V.faults verifier.old ≤ V.faults verifier.new }
        ensures told { V.faults verifier.old < V.faults verifier.new → result ≡ Err MirrorRefusal.VerifierFault }
    {
        let new = match read_all(self.alloc, &Certs, bytes) {
            Ok(new) => new,
            Err(refusal) => return Err(of_read(refusal)),
        };
        let Ok(certs) = copies(self.alloc, &self.certs) else {
            return Err(MirrorRefusal::Memory);
        };
        match certs::take_each(self.alloc, &self.roster, now, certs, new, verifier) {
            Ok(tally) => {
                self.certs = tally.certs;
                Ok(tally.report)
            }
            Err(why) => Err(why),
        }
    }

    /// The newer consensus of the microdesc flavour that the bytes are, which stand in an input from a place on, and who signed it.
    fn signed(&self, begin: u64, bytes: &[u8], verifier: &mut V) -> Result<Signed, MirrorRefusal>
        requires begin { begin < 2 ^ 62 }
        requires bytes { length bytes.now < 2 ^ 62 }
        ensures ok { IfOk result (λ signed. IsSignedBy (rules V.may_accept V.may_refuse) self.now bytes.now signed.consensus signed.signers.items) }
        ensures err { IfErr result (IsUnsigned (rules V.may_accept V.may_refuse) self.now begin bytes.now) }
        ensures fault { result ≡ Err MirrorRefusal.VerifierFault → Rose (V.faults verifier.old) (V.faults verifier.new) }
        ensures faults { V.faults verifier.old ≤ V.faults verifier.new }
        ensures told { V.faults verifier.old < V.faults verifier.new → result ≡ Err MirrorRefusal.VerifierFault }
    {
        let consensus = match read_microdesc(self.alloc, begin, bytes) {
            Ok(consensus) => consensus,
            Err(why) => return Err(why),
        };
        match check_newer(self.held_from(), consensus.facts.valid_after) {
            Ok(()) => (),
            Err(why) => return Err(why),
        }
        match signers_of(self.alloc, &self.certs, &consensus, bytes, verifier) {
            Ok(signers) => Ok(Signed { consensus, signers }),
            Err(why) => Err(why),
        }
    }

    /// How many signers there are, if that is more than half of the roster.
    fn majority(&self, signers: &[SignerKey]) -> Result<u32, MirrorRefusal>
        requires { length signers.now ≤ length self.now.roster }
        ensures ok { IfOk result (λ count. IsMajority count (length signers.now) (length self.now.roster)) }
        ensures err { IfErr result (IsMinority (length signers.now) (length self.now.roster)) }
    {
        let roster = self.roster.len() as u32;
        let counted = signers.len() as u32;
        if over(counted, roster) {
            Ok(counted)
        } else {
            Err(MirrorRefusal::TooFewSigners { counted, roster })
        }
    }

    /// What is held once a consensus is taken: it, and of the microdescriptors that are held those that it names.
    fn holding(&self, bytes: &[u8], signed: Signed) -> Result<(Held, Shelf), Memory>
        ensures held { IfOk result (λ found. found.0 ≡ record { bytes = bytes.now; consensus = signed.consensus; signers = signed.signers.items }) }
        ensures rows { IfOk result (λ found. found.1 ≡ rows_of self.now.rows (states.named signed.consensus)) }
    {
        let digests = named(self.alloc, &signed.consensus)?;
        let shelf = self.shelf.over(self.alloc, &digests)?;
        let held = Held {
            bytes: Bytes::copy_from_slice(self.alloc, bytes)?,
            valid_after: signed.consensus.facts.valid_after,
            digests,
            signers: signed.signers,
            consensus: Snapshot::of(&signed.consensus),
        };
        Ok((held, shelf))
    }

    /// Takes a consensus of the microdesc flavour that is newer than the one that is held, and that more than half of the roster
    /// signed, by the certificates that are kept. It is kept from its first item through its last signature; what an input has
    /// before it and behind it is passed over. Of the microdescriptors those stay that it names. The answer is how many signed it
    /// (dir-spec, "Downloading consensus status documents from directory authorities").
    ///
    /// # Errors
    /// The first cause that applies, in the order of `MirrorRefusal`; then nothing has changed.
    pub fn take_consensus(&mut self, bytes: &[u8], verifier: &mut V) -> Result<u32, MirrorRefusal>
        requires { length bytes.now < 2 ^ 62 }
        ensures answers { AnswersConsensus (rules V.may_accept V.may_refuse) self.old bytes.now result self.new }
        ensures fault { result ≡ Err MirrorRefusal.VerifierFault → Rose (V.faults verifier.old) (V.faults verifier.new) }
        ensures faults { V.faults verifier.old ≤ V.faults verifier.new }
        ensures told { V.faults verifier.old < V.faults verifier.new → result ≡ Err MirrorRefusal.VerifierFault }
    {
        let part = consensus_part(bytes);
        let signed = match self.signed(begin_of(bytes), part, verifier) {
            Ok(signed) => signed,
            Err(why) => return Err(why),
        };
        let counted = match self.majority(&signed.signers) {
            Ok(counted) => counted,
            Err(why) => return Err(why),
        };
        match self.holding(part, signed) {
            Ok((held, shelf)) => {
                self.held = Some(held);
                self.shelf = shelf;
                Ok(counted)
            }
            Err(_) => Err(MirrorRefusal::Memory),
        }
    }

    /// The first 92 digests, in the consensus's order, that it names and whose microdescriptor is not held.
    ///
    /// # Errors
    /// `Memory` is want of memory.
    pub fn wanted(&self) -> Result<Vec<Digest2>, Memory>
        ensures { IfOk result (λ digests. map (λ digest. digest.0) digests.items ≡ answers.wanted_digests self.now) }
    {
        let found = match &self.held {
            Some(held) => wanted(self.alloc, &self.shelf, &held.digests)?,
            None => wanted(self.alloc, &self.shelf, &[])?,
        };
        digests_of(self.alloc, &found)
    }

    /// Takes microdescriptors, one after the other: those are kept that the held consensus names and that are not held (dir-spec,
    /// "Downloading microdescriptors from directory authorities").
    ///
    /// # Errors
    /// `Document` is the first fault of the first microdescriptor that has one, with its place in the input; `Memory` is want of
    /// memory. Then nothing has changed.
    pub fn take_micros(&mut self, bytes: &[u8]) -> Result<MicroReport, MirrorRefusal>
        requires { length bytes.now < 2 ^ 32 - 1 }
        ensures { AnswersMicros self.old bytes.now result self.new }
    {
        match read_all(self.alloc, &Micros, bytes) {
            Ok(micros) => Ok(take_each(&mut self.shelf, micros)),
            Err(refusal) => Err(of_read(refusal)),
        }
    }

    /// The bytes of the consensus that is held. Takes no memory.
    pub fn consensus(&self) -> Option<&[u8]>
        ensures { option_map (λ bytes. bytes.now) result ≡ answers.consensus_text self.now }
    {
        match &self.held {
            Some(held) => Some(held.bytes.as_slice()),
            None => None,
        }
    }

    /// The microdescriptor with a digest, if it is held. Takes no memory.
    pub fn micro(&self, digest: &Digest2) -> Option<&[u8]>
        ensures { option_map (λ text. text.now) result ≡ answers.micro_with self.now digest.now.0 }
    {
        self.shelf.micro(&digest.0)
    }

    /// The certificates that are kept, one behind the other, ascending by fingerprint.
    ///
    /// # Errors
    /// `Memory` is want of memory.
    pub fn certs(&self) -> Result<Vec<u8>, Memory>
        ensures { IfOk result (λ bytes. bytes.items ≡ answers.certs_text self.now) }
    {
        let mut out = Vec::new(self.alloc);
        'certs: for kept in &self.certs {
            out.extend_from_slice(&kept.bytes)?;
        }
        Ok(out)
    }
}
