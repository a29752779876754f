// Which identities are included.
ghost use Rattle.std.specs.Prelude.{◌≡◌, ◌≤◌, count_by, length};
ghost use Rattle.compute_terms.specs.Identities as identities;

use crate::counts::over;
use compute_terms::EdPart;
use relay_entries::EdOpinion;

/// The part with which an RSA identity is included, of whose entries the `id` lines say this.
pub fn included_part(roster: u32, eds: &[EdOpinion]) -> Option<EdPart>
    ensures { result ≡ identities.included_part roster eds.now }
{
    match included_pair(roster, eds) {
        Some(part) => Some(part),
        None => {
            if over(eds.len() as u64, roster) {
                Some(EdPart::Bare)
            } else {
                None
            }
        }
    }
}

/// The part of the pair that is included.
fn included_pair(roster: u32, eds: &[EdOpinion]) -> Option<EdPart>
    ensures { result ≡ identities.included_pair roster eds.now }
{
    'eds: for ed in eds {
        if let Some(part) = part_in(ed) {
            if includes(roster, eds, &part) {
                return Some(part);
            }
        }
    }
    None
}

/// The part of a pair that an `id` line names.
fn part_in(ed: &EdOpinion) -> Option<EdPart>
    ensures { result ≡ identities.part_in ed.now }
{
    match ed {
        EdOpinion::Key(key) => Some(EdPart::Key(*key)),
        EdOpinion::None => Some(EdPart::NoKey),
        EdOpinion::Absent => None,
    }
}

/// Whether the pair with this part is included.
fn includes(roster: u32, eds: &[EdOpinion], part: &EdPart) -> bool
    ensures { result ≡ identities.includes roster eds.now part.now }
{
    over(naming(eds, part) as u64, roster)
}

/// How many `id` lines name a part.
fn naming(eds: &[EdOpinion], part: &EdPart) -> usize
    ensures count { result ≡ count_by (identities.names part.now) eds.now }
    ensures within { result ≤ length eds.now }
{
    let mut count = 0;
    'eds: for ed in eds {
        if names(part, ed) {
            count += 1;
        }
    }
    count
}

/// Whether an `id` line names a part.
fn names(part: &EdPart, ed: &EdOpinion) -> bool
    ensures { result ≡ identities.names part.now ed.now }
{
    match part {
        EdPart::Key(key) => match ed {
            EdOpinion::Key(other) => key == other,
            EdOpinion::None => false,
            EdOpinion::Absent => false,
        },
        EdPart::NoKey => match ed {
            EdOpinion::Key(_) => false,
            EdOpinion::None => true,
            EdOpinion::Absent => false,
        },
        EdPart::Bare => false,
    }
}

/// Whether an entry with this `id` line belongs to an identity with this part.
pub fn belongs(part: &EdPart, ed: &EdOpinion) -> bool
    ensures { result ≡ identities.belongs part.now ed.now }
{
    match part {
        EdPart::Key(key) => match ed {
            EdOpinion::Key(other) => key == other,
            EdOpinion::None => false,
            EdOpinion::Absent => true,
        },
        EdPart::NoKey => match ed {
            EdOpinion::Key(_) => false,
            EdOpinion::None => true,
            EdOpinion::Absent => true,
        },
        EdPart::Bare => true,
    }
}
