// What is chosen of what entries say of a relay.
ghost use Rattle.std.specs.{Prelude.{◌≡◌, ◌≤◌, Some, IfOk, IfSome, IsSome, option_map, length}, List.filter_map};
ghost use Rattle.dir_bytes.specs.Causes.{last_moment};
ghost use Rattle.dir_values.specs.Versions.{named_order};
ghost use Rattle.count_terms.specs.Choosing.{chosen, text_order};
ghost use Rattle.compute_terms.specs.Tuples.{chosen_tuple};
ghost use Rattle.compute_terms.specs.Lines as terms;
ghost use Rattle.relay_select.specs.Choices as choices;
ghost use Rattle.relay_select.specs.Fields.{field_text};

use crate::lines::{Field, addresses, micros, texts, versions};
use crate::members::entries_at;
use crate::micro::Micro;
use crate::searching::belonging;
use crate::tuple::{RelayTuple, tuples};
use compute_terms::Identity;
use dir_bytes::{Memory, Text};
use dir_values::{Digest1, Digest2};
use field_votes::{Line, VersionLine, chosen};
use std::alloc::Global;
use vote_doc::{Accepted, Entry};

/// What is chosen of what entries say of a relay (dir-spec, "Computing a consensus from a set of votes"). The texts are the
/// rests of their lines.
#[derive(Debug, Drop)]
pub struct Choice {
    /// The nickname.
    pub nickname: Text,
    /// The digest of its descriptor.
    pub digest: Digest1,
    /// When its descriptor was published, in seconds since 1970-01-01 00:00:00 UTC.
    pub published: u64,
    /// The IPv4 address, its first byte highest.
    pub ip: u32,
    /// The onion routing port.
    pub or_port: u16,
    /// The directory port.
    pub dir_port: u16,
    /// The further address, where there is one.
    pub a: Option<Text>,
    /// The version, where there is one.
    pub v: Option<Text>,
    /// The subprotocols, where there are some.
    pub pr: Option<Text>,
    /// The summary of its exit policy, where there is one.
    pub p: Option<Text>,
    /// The SHA-256 of its microdescriptor, where there is one.
    pub m: Option<Digest2>,
}

/// Room for what the entries of one relay say, which is used again for the next.
#[derive(Drop)]
pub struct Desk<'a> {
    tuples: Vec<RelayTuple<'a>>,
    lines: Vec<Line<'a>>,
    versions: Vec<VersionLine<'a>>,
    digests: Vec<Micro>,
}

impl<'a> Desk<'a> {
    /// Room for nothing yet.
    pub fn new(alloc: Global) -> Desk<'a> {
        Desk {
            tuples: Vec::new(alloc),
            lines: Vec::new(alloc),
            versions: Vec::new(alloc),
            digests: Vec::new(alloc),
        }
    }
}

/// What is chosen for an identity that some entry belongs to.
///
/// # Errors
/// `Memory` is want of memory.
pub fn choose(
    alloc: Global,
    identity: &Identity,
    method: u32,
    votes: &Accepted,
) -> Result<Choice, Memory>
    requires { 1 ≤ length (choices.belonging_entries votes.now.votes identity.now) }
    ensures value { IfOk result (λ choice. option_map (choices.choice_of method (choices.belonging_entries votes.now.votes identity.now)) (chosen_tuple (choices.belonging_entries votes.now.votes identity.now)) ≡ Some choice) }
    ensures moment { IfOk result (λ choice. choice.published ≤ last_moment) }
{
    let members = belonging(alloc, identity, votes)?;
    let mut entries = Vec::new(alloc);
    entries_at(votes, &members, &mut entries)?;
    let mut desk = Desk::new(alloc);
    match choose_from(alloc, method, &entries, &mut desk)? {
        Some(choice) => Ok(choice),
        None => unreachable!(),
    }
}

/// What is chosen of what these entries say of a relay. `None` comes where there is no entry.
///
/// # Errors
/// `Memory` is want of memory.
pub fn choose_from<'a>(
    alloc: Global,
    method: u32,
    entries: &[Entry<'a>],
    desk: &mut Desk<'a>,
) -> Result<Option<Choice>, Memory>
    ensures value { IfOk result (λ choice. choice ≡ option_map (choices.choice_of method entries.now) (chosen_tuple entries.now)) }
    ensures some { IfOk result (λ choice. 1 ≤ length entries.now → IsSome choice) }
    ensures moment { IfOk result (λ choice. IfSome choice (λ chosen. chosen.published ≤ last_moment)) }
{
    tuples(entries, &mut desk.tuples)?;
    match chosen(&desk.tuples) {
        Some(place) => {
            let tuple = &desk.tuples[place];
            let choice = choice_with(
                alloc,
                method,
                entries,
                tuple,
                &mut desk.lines,
                &mut desk.versions,
                &mut desk.digests,
            )?;
            Ok(Some(choice))
        }
        None => Ok(None),
    }
}

/// What is chosen of what these entries say of a relay with this tuple.
fn choice_with<'a>(
    alloc: Global,
    method: u32,
    entries: &[Entry<'a>],
    tuple: &RelayTuple<'a>,
    lines: &mut Vec<Line<'a>>,
    versions: &mut Vec<VersionLine<'a>>,
    digests: &mut Vec<Micro>,
) -> Result<Choice, Memory>
    ensures value { IfOk result (λ choice. choice ≡ choices.choice_of method entries.now tuple.now) }
    ensures moment { IfOk result (λ choice. choice.published ≤ last_moment) }
{
    let digest = tuple.digest();
    let nickname = Text::copy_of(alloc, tuple.nickname())?;
    let a = address(alloc, entries, method, tuple, lines)?;
    let m = micro(entries, method, digest, digests)?;
    let v = version(alloc, entries, versions)?;
    let pr = text(alloc, entries, Field::Protocols, lines)?;
    let p = text(alloc, entries, Field::Policy(digest), lines)?;
    Ok(Choice {
        nickname,
        digest,
        published: tuple.published(),
        ip: tuple.ip(),
        or_port: tuple.or_port(),
        dir_port: tuple.dir_port(),
        a,
        v,
        pr,
        p,
        m,
    })
}

/// The chosen one of what entries say in a line.
fn text<'a>(
    alloc: Global,
    entries: &[Entry<'a>],
    field: Field,
    lines: &mut Vec<Line<'a>>,
) -> Result<Option<Text>, Memory>
    ensures { IfOk result (λ text. text ≡ chosen text_order (filter_map (field_text field) entries.now)) }
{
    texts(entries, field, lines)?;
    copy_of(alloc, lines)
}

/// The chosen one of the `v` lines of entries.
fn version<'a>(
    alloc: Global,
    entries: &[Entry<'a>],
    lines: &mut Vec<VersionLine<'a>>,
) -> Result<Option<Text>, Memory>
    ensures { IfOk result (λ text. text ≡ terms.chosen_version entries.now) }
{
    versions(entries, lines)?;
    copy_of_version(alloc, lines)
}

fn copy_of_version(alloc: Global, lines: &[VersionLine<'_>]) -> Result<Option<Text>, Memory>
    ensures { IfOk result (λ text. text ≡ chosen named_order lines.now) }
{
    match chosen(lines) {
        Some(place) => {
            let line = &lines[place];
            Ok(Some(Text::copy_of(alloc, line.text())?))
        }
        None => Ok(None),
    }
}

/// The chosen one of the `a` lines of the entries with this tuple.
fn address<'a>(
    alloc: Global,
    entries: &[Entry<'a>],
    method: u32,
    tuple: &RelayTuple<'a>,
    lines: &mut Vec<Line<'a>>,
) -> Result<Option<Text>, Memory>
    ensures { IfOk result (λ text. text ≡ terms.chosen_address method tuple.now entries.now) }
{
    addresses(entries, method, tuple, lines)?;
    copy_of(alloc, lines)
}

/// The chosen one of the microdescriptors of the entries with this digest.
fn micro(
    entries: &[Entry<'_>],
    method: u32,
    digest: Digest1,
    digests: &mut Vec<Micro>,
) -> Result<Option<Digest2>, Memory>
    ensures { IfOk result (λ micro. micro ≡ terms.chosen_micro method digest entries.now) }
{
    micros(entries, method, digest, digests)?;
    Ok(chosen_digest(digests))
}

fn chosen_digest(digests: &[Micro]) -> Option<Digest2>
    ensures { result ≡ chosen terms.digest_order digests.now }
{
    match chosen(digests) {
        Some(place) => Some(digests[place].digest()),
        None => None,
    }
}

/// A copy of the line that is chosen.
fn copy_of(alloc: Global, lines: &[Line<'_>]) -> Result<Option<Text>, Memory>
    ensures { IfOk result (λ text. text ≡ chosen text_order lines.now) }
{
    match chosen(lines) {
        Some(place) => {
            let line = &lines[place];
            Ok(Some(Text::copy_of(alloc, line.text())?))
        }
        None => Ok(None),
    }
}
