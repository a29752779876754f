// Signatures that are held.
ghost use Rattle.std.specs.Prelude.{◌≡◌, ◌≤◌, ◌<◌, ◌+◌, ◌^◌, IfOk, length, vec_len, vec_capacity, if◌then◌else◌};
ghost use Rattle.period_terms.specs.Advances as advances;
ghost use Rattle.period_terms.specs.States as states;
ghost use Rattle.period_terms.specs.Dropping.{DropsAt, lines_but};

use consensus_terms::{Flavour, SignatureLine};
use dir_bytes::{Memory, Text};
use dir_values::{Digest1, Fingerprint, Roster};
use sha1::Sha1;
use std::alloc::Global;

/// Whether one of some signatures is an authority's.
pub fn has_line(lines: &[SignatureLine], authority: &Fingerprint) -> bool
    ensures { result ≡ states.has_line lines.now authority.now }
{
    lines.iter().any(|line| line.identity.is_same(authority))
}

/// The name of the digest that a flavour is signed over.
fn algorithm_of(flavour: Flavour) -> &'static [u8]
    ensures { result.now ≡ advances.algorithm_of flavour }
{
    match flavour {
        Flavour::Ns => b"sha1",
        Flavour::Microdesc => b"sha256",
    }
}

/// The authority's signature over a flavour.
pub fn own_line(
    alloc: Global,
    flavour: Flavour,
    identity: Fingerprint,
    key: &[u8],
    signature: Text,
) -> Result<SignatureLine, Memory>
    ensures { IfOk result (λ line. line ≡ advances.own_line flavour identity key.now signature) }
{
    let algorithm = Text::copy_of(alloc, algorithm_of(flavour))?;
    Ok(SignatureLine {
        algorithm,
        identity,
        key_digest: Digest1(Sha1::digest(key)),
        signature,
    })
}

/// Drops the signature at a place where it is this authority's, and tells where the next one stands.
fn drop_line(lines: &mut Vec<SignatureLine>, at: usize, identity: &Fingerprint) -> usize
    requires { at < vec_len lines.old }
    ensures lines { DropsAt identity.now lines.old.items at lines.new.items result }
    ensures capacity { vec_capacity lines.old ≤ vec_capacity lines.new }
{
    if lines[at].identity.is_same(identity) {
        lines.remove(at);
        at
    } else {
        at + 1
    }
}

/// Drops each signature of an authority.
fn drop_lines(lines: &mut Vec<SignatureLine>, identity: &Fingerprint)
    ensures lines { lines.new.items ≡ lines_but lines.old.items identity.now }
    ensures few { vec_len lines.new ≤ vec_len lines.old }
    ensures capacity { vec_capacity lines.old ≤ vec_capacity lines.new }
{
    let mut at = 0;
    'lines: while at < lines.len() {
        at = drop_line(lines, at, identity);
    }
}

/// Puts a signature in place of its authority's.
pub fn put_line(lines: &mut Vec<SignatureLine>, line: SignatureLine)
    requires { vec_len lines.old < vec_capacity lines.old }
    ensures lines { lines.new.items ≡ states.with_signature lines.old.items line }
    ensures capacity { vec_capacity lines.old ≤ vec_capacity lines.new }
{
    drop_lines(lines, &line.identity);
    lines.push_reserved(line);
}

/// A count with one more, where it is one.
fn one_more(count: u32, is: bool) -> u32
    requires { count < 2 ^ 31 }
    ensures { result ≡ (if is then count + 1 else count) }
{
    if is { count + 1 } else { count }
}

/// How many members of the roster have a signature among some.
pub fn signers_in(roster: &Roster, lines: &[SignatureLine]) -> u32
    ensures value { result ≡ states.signers_in roster.now lines.now }
    ensures within { result ≤ length roster.now }
{
    let mut count = 0u32;
    'members: for i in 0..roster.len() {
        count = one_more(count, has_line(lines, &roster.member(i)));
    }
    count
}
