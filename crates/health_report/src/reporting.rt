// The health report of a period.
ghost use Rattle.std.specs.Prelude.{◌≡◌, ◌<◌, ◌≤◌, Err, IfOk};
ghost use Rattle.dir_bytes.specs.Causes.{Rose, last_moment};
ghost use Rattle.key_port.specs.Answers.{rules};
ghost use Rattle.health_report.specs.Reports as reports;
ghost use Rattle.health_report.specs.Reports.{IsReport};

use crate::fault::ReportFault;
use crate::lines::push_head;
use crate::members::push_members;
use crate::params::push_params;
use crate::relays::push_relays;
use crate::signing::signers_of;
use consensus_terms::{Flavour, SignedConsensus};
use detached_sigs::SignerKey;
use dir_bytes::Memory;
use dir_values::Roster;
use key_port::Verifier;
use std::alloc::Global;
use vote_doc::Accepted;

/// The text of the report, where these signed.
fn text_of(
    alloc: Global,
    roster: &Roster,
    votes: &Accepted,
    consensus: &SignedConsensus,
    signers: &[SignerKey],
) -> Result<Vec<u8>, Memory>
    requires { consensus.now.facts.valid_after ≤ last_moment }
    ensures { IfOk result (λ text. text.items ≡ reports.report_text roster.now votes.now.votes consensus.now signers.now) }
{
    let mut out = Vec::new(alloc);
    let begin = consensus.facts.valid_after;
    let authorities = roster.len();
    let held = votes.len();
    let routers = consensus.facts.routers.as_slice();
    push_head(&mut out, begin, authorities, held)?;
    push_members(alloc, &mut out, roster, votes, signers)?;
    push_params(alloc, &mut out, votes)?;
    push_relays(alloc, &mut out, votes, routers)?;
    Ok(out)
}

/// The health report of a roster, the held votes and a consensus of the ns flavour, which was read from these bytes: which
/// authorities miss a vote or a signature, the params that votes give, the relays and flags that they list, and which relays
/// stand in the consensus.
///
/// # Errors
/// `WrongFlavour` exactly where the consensus is of the microdesc flavour; then the verifier is not asked. `VerifierFault`
/// only where the verifier's count of faults rose, and wherever it is greater. `Memory` is want of memory.
pub fn report<V: Verifier>(
    alloc: Global,
    roster: &Roster,
    votes: &Accepted,
    consensus: &SignedConsensus,
    bytes: &[u8],
    verifier: &mut V,
) -> Result<Vec<u8>, ReportFault>
    requires { consensus.now.facts.valid_after ≤ last_moment }
    ensures report { IfOk result (λ text. IsReport (rules V.may_accept V.may_refuse) roster.now votes.now.votes consensus.now bytes.now text.items) }
    ensures flavour { consensus.now.flavour ≡ Flavour.Microdesc → result ≡ Err ReportFault.WrongFlavour }
    ensures only { result ≡ Err ReportFault.WrongFlavour → consensus.now.flavour ≡ Flavour.Microdesc }
    ensures unasked { result ≡ Err ReportFault.WrongFlavour → verifier.new ≡ verifier.old }
    ensures fault { result ≡ Err ReportFault.VerifierFault → Rose (V.faults verifier.old) (V.faults verifier.new) }
    ensures faults { V.faults verifier.old ≤ V.faults verifier.new }
    ensures told { V.faults verifier.old < V.faults verifier.new → result ≡ Err ReportFault.VerifierFault }
{
    if consensus.flavour == Flavour::Microdesc {
        return Err(ReportFault::WrongFlavour);
    }
    match signers_of(alloc, votes, consensus, bytes, verifier) {
        Ok(signers) => {
            let text = text_of(alloc, roster, votes, consensus, &signers)?;
            Ok(text)
        }
        Err(fault) => Err(fault),
    }
}
