// Certificates that are taken, one after the other.
ghost use Rattle.std.specs.Prelude.{◌≡◌, ◌≢◌, ◌+◌, ◌-◌, ◌<◌, ◌≤◌, ◌^◌, Err, IfOk, IfErr, length, option_map};
ghost use Rattle.dir_bytes.specs.Causes.{Rose};
ghost use Rattle.key_port.specs.Answers.{rules};
ghost use Rattle.mirror_core.specs.Answers as answers;
ghost use Rattle.mirror_core.specs.{Answers.{TakesCert, TakesChecked, TakesEach}, Sound.CertsAscend};
ghost use Rattle.mirror_core.specs.{Tallies.cert_total, Lending.IsNoSigning};

use crate::cert::HeldCert;
use crate::cert_copies::with_cert;
use crate::refusal::MirrorRefusal;
use crate::report::CertReport;
use authority_certs::{Cert, CertAnswer, check};
use bytes::Bytes;
use dir_bytes::Memory;
use dir_values::{Fingerprint, Roster};
use key_port::Verifier;
use std::alloc::Global;
use std::collections::VecDeque;
use std::marker::Model;

/// Certificates that ascend by fingerprint, and what came of those that were taken so far.
#[derive(Drop)]
pub(crate) struct Tally {
    pub(crate) certs: Vec<HeldCert>,
    pub(crate) report: CertReport,
}

impl Model for Tally {
    ghost use Rattle.mirror_core.specs.{Answers.CertTally, Sound.CertsAscend};

    ghost Value = { CertTally };

    ghost view = { λ t. record { certs = t.certs.items; report = t.report } };

    ghost invariant = { λ t. CertsAscend t.certs.items };
}

/// The certificate that is kept of an authority, if one is.
fn held_for<'a>(certs: &'a [HeldCert], authority: &Fingerprint) -> Option<&'a HeldCert>
    ensures { option_map (λ kept. kept.now) result ≡ answers.cert_for certs.now authority.now }
{
    'certs: for kept in certs {
        if kept.cert.fingerprint.is_same(authority) {
            return Some(kept);
        }
    }
    None
}

/// Whether a certificate is greater than another, by (published, covered).
fn is_greater(new: &Cert, held: &Cert) -> bool
    ensures { result ≡ answers.is_greater new.now held.now }
{
    new.published > held.published
        || (new.published == held.published
            && held
                .covered
                .0
                .as_slice()
                .cmp(new.covered.0.as_slice())
                .is_lt())
}

/// Whether a certificate is to be checked: it is of a member, and comes after the one that is kept.
fn is_looked_at(roster: &Roster, certs: &[HeldCert], new: &Cert) -> bool
    ensures { result ≡ answers.is_looked_at roster.now certs.now new.now }
{
    if !roster.contains(&new.fingerprint) {
        return false;
    }
    match held_for(certs, &new.fingerprint) {
        Some(kept) => is_greater(new, &kept.cert),
        None => true,
    }
}

/// A report with one more that was skipped.
fn skipped(report: CertReport) -> CertReport
    requires { cert_total report < 2 ^ 32 - 1 }
    ensures { result ≡ record report { skipped = report.skipped + 1 } }
{
    CertReport {
        kept: report.kept,
        skipped: report.skipped + 1,
        refused: report.refused,
    }
}

/// A report with one more that was refused.
fn refused(report: CertReport) -> CertReport
    requires { cert_total report < 2 ^ 32 - 1 }
    ensures { result ≡ record report { refused = report.refused + 1 } }
{
    CertReport {
        kept: report.kept,
        skipped: report.skipped,
        refused: report.refused + 1,
    }
}

/// A report with one more that is kept.
fn kept(report: CertReport) -> CertReport
    requires { cert_total report < 2 ^ 32 - 1 }
    ensures { result ≡ record report { kept = report.kept + 1 } }
{
    CertReport {
        kept: report.kept + 1,
        skipped: report.skipped,
        refused: report.refused,
    }
}

/// The tally with one certificate more, which is kept.
#[tactic(auto, using(crate::proofs::CertLaws::ascends))]
fn keep(alloc: Global, tally: &Tally, new: HeldCert) -> Result<Tally, Memory>
    requires { cert_total tally.now.report < 2 ^ 32 - 1 }
    ensures { IfOk result (λ with. with ≡ answers.keeps tally.now new) }
{
    let certs = with_cert(alloc, &tally.certs, new)?;
    Ok(Tally {
        certs,
        report: kept(tally.report),
    })
}

/// Takes a certificate that was checked.
fn take_checked(
    alloc: Global,
    tally: Tally,
    new: HeldCert,
    answer: CertAnswer,
) -> Result<Tally, MirrorRefusal>
    requires { cert_total tally.report < 2 ^ 32 - 1 }
    ensures takes { IfOk result (λ with. TakesChecked tally new answer with) }
    ensures fault { result ≡ Err MirrorRefusal.VerifierFault → answer ≡ CertAnswer.VerifierFault }
    ensures told { answer ≡ CertAnswer.VerifierFault → result ≡ Err MirrorRefusal.VerifierFault }
    ensures only { IfErr result IsNoSigning }
{
    match answer {
        CertAnswer::Checked => match keep(alloc, &tally, new) {
            Ok(with) => Ok(with),
            Err(_) => Err(MirrorRefusal::Memory),
        },
        CertAnswer::VerifierFault => Err(MirrorRefusal::VerifierFault),
        _ => Ok(Tally {
            certs: tally.certs,
            report: refused(tally.report),
        }),
    }
}

/// Takes a certificate.
fn take_one<V: Verifier>(
    alloc: Global,
    roster: &Roster,
    now: u64,
    tally: Tally,
    new: HeldCert,
    verifier: &mut V,
) -> Result<Tally, MirrorRefusal>
    requires { cert_total tally.report < 2 ^ 32 - 1 }
    ensures takes { IfOk result (λ with. TakesCert (rules V.may_accept V.may_refuse) roster.now now tally new with) }
    ensures fault { result ≡ Err MirrorRefusal.VerifierFault → Rose (V.faults verifier.old) (V.faults verifier.new) }
    ensures faults { V.faults verifier.old ≤ V.faults verifier.new }
    ensures told { V.faults verifier.old < V.faults verifier.new → result ≡ Err MirrorRefusal.VerifierFault }
    ensures only { IfErr result IsNoSigning }
{
    if !is_looked_at(roster, &tally.certs, &new.cert) {
        return Ok(Tally {
            certs: tally.certs,
            report: skipped(tally.report),
        });
    }
    let answer = check(&new.cert, now, verifier);
    take_checked(alloc, tally, new, answer)
}

/// Takes certificates, one after the other.
pub(crate) fn take_each<V: Verifier>(
    alloc: Global,
    roster: &Roster,
    now: u64,
    certs: Vec<HeldCert>,
    new: VecDeque<(Cert, Bytes)>,
    verifier: &mut V,
) -> Result<Tally, MirrorRefusal>
    requires few { length new.items < 2 ^ 32 - 1 }
    requires ascend { CertsAscend certs.items }
    ensures takes { IfOk result (λ with. TakesEach (rules V.may_accept V.may_refuse) roster.now now (answers.no_certs_yet certs.items) new.items with) }
    ensures fault { result ≡ Err MirrorRefusal.VerifierFault → Rose (V.faults verifier.old) (V.faults verifier.new) }
    ensures faults { V.faults verifier.old ≤ V.faults verifier.new }
    ensures told { V.faults verifier.old < V.faults verifier.new → result ≡ Err MirrorRefusal.VerifierFault }
    ensures only { IfErr result IsNoSigning }
{
    let mut left = new;
    let mut tally = Tally {
        certs,
        report: CertReport {
            kept: 0,
            skipped: 0,
            refused: 0,
        },
    };
    'certs: while let Some((cert, bytes)) = left.pop_front() {
        match take_one(
            alloc,
            roster,
            now,
            tally,
            HeldCert { cert, bytes },
            verifier,
        ) {
            Ok(with) => tally = with,
            Err(why) => return Err(why),
        }
    }
    Ok(tally)
}
