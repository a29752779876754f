// The lines of the members of a roster.
ghost use Rattle.std.specs.Prelude.{◌≡◌, ◌++◌, IfOk, OnOk};
ghost use Rattle.health_report.specs.Reports as reports;

use crate::identity_set::IdentitySet;
use crate::lines::push_line;
use detached_sigs::SignerKey;
use dir_bytes::Memory;
use dir_values::Roster;
use std::alloc::Global;
use vote_doc::Accepted;

/// The members of a roster, ascending.
fn members_of(alloc: Global, roster: &Roster) -> Result<IdentitySet, Memory>
    ensures { IfOk result (λ members. members ≡ reports.members_of roster.now) }
{
    let mut members = IdentitySet::new(alloc);
    'members: for i in 0..roster.len() {
        let member = roster.member(i);
        members.insert(alloc, &member)?;
    }
    Ok(members)
}

/// Whether the vote of an authority is held.
fn has_vote(votes: &Accepted, member: &[u8]) -> bool
    ensures { result ≡ reports.has_vote votes.now.votes member.now }
{
    'votes: for number in 0..votes.len() {
        if votes.vote(number).vote().identity().0.as_slice() == member {
            return true;
        }
    }
    false
}

/// Appends the line of a member without a held vote.
fn push_missing(out: &mut Vec<u8>, votes: &Accepted, member: &[u8]) -> Result<(), Memory>
    ensures { OnOk result (out.new.items ≡ out.old.items ++ reports.missing_vote votes.now.votes member.now) }
{
    if has_vote(votes, member) {
        return Ok(());
    }
    push_line(out, b"missing-vote", member)
}

/// Appends the line of each member without a held vote.
#[tactic(auto, unfolding(crate::specs::Reports::missing_votes))]
fn push_missing_votes(
    out: &mut Vec<u8>,
    votes: &Accepted,
    members: &IdentitySet,
) -> Result<(), Memory>
    ensures { OnOk result (out.new.items ≡ out.old.items ++ reports.missing_votes votes.now.votes members.now) }
{
    'members: for i in 0..members.len() {
        push_missing(out, votes, members.identity(i))?;
    }
    Ok(())
}

/// Whether an authority is among the signers.
fn has_signer(signers: &[SignerKey], member: &[u8]) -> bool
    ensures { result ≡ reports.has_signer signers.now member.now }
{
    'signers: for signer in signers {
        if signer.authority.0.as_slice() == member {
            return true;
        }
    }
    false
}

/// Appends the line of a member that signed or did not.
fn push_signer(out: &mut Vec<u8>, signers: &[SignerKey], member: &[u8]) -> Result<(), Memory>
    ensures { OnOk result (out.new.items ≡ out.old.items ++ reports.signer_line signers.now member.now) }
{
    if has_signer(signers, member) {
        return push_line(out, b"signer", member);
    }
    push_line(out, b"missing-signer", member)
}

/// Appends the line of each member that signed or did not.
#[tactic(auto, unfolding(crate::specs::Reports::signer_lines))]
fn push_signers(
    out: &mut Vec<u8>,
    signers: &[SignerKey],
    members: &IdentitySet,
) -> Result<(), Memory>
    ensures { OnOk result (out.new.items ≡ out.old.items ++ reports.signer_lines signers.now members.now) }
{
    'members: for i in 0..members.len() {
        push_signer(out, signers, members.identity(i))?;
    }
    Ok(())
}

/// Appends the lines of the members of a roster: who has no held vote, and who signed.
pub(crate) fn push_members(
    alloc: Global,
    out: &mut Vec<u8>,
    roster: &Roster,
    votes: &Accepted,
    signers: &[SignerKey],
) -> Result<(), Memory>
    ensures { OnOk result (out.new.items ≡ out.old.items ++ reports.missing_votes votes.now.votes (reports.members_of roster.now) ++ reports.signer_lines signers.now (reports.members_of roster.now)) }
{
    let members = members_of(alloc, roster)?;
    push_missing_votes(out, votes, &members)?;
    push_signers(out, signers, &members)
}
