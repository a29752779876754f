// The tuples of entries.
ghost use Rattle.std.specs.Prelude.{◌≡◌, ◌≤◌, OnOk, map};
ghost use Rattle.dir_bytes.specs.Causes.{last_moment};
ghost use Rattle.compute_terms.specs.Tuples as terms;

use dir_bytes::Memory;
use dir_values::Digest1;
use field_votes::Ballot;
use std::cmp::Ordering;
use std::marker::Model;
use vote_doc::Entry;

/// What an entry says of a relay's descriptor, of its name and of where it is reached.
#[derive(Drop)]
pub struct RelayTuple<'a> {
    digest: Digest1,
    published: u64,
    nickname: &'a [u8],
    ip: u32,
    or_port: u16,
    dir_port: u16,
}

impl<'a> Model for RelayTuple<'a> {
    ghost use Rattle.std.specs.Prelude.{◌≤◌};
    ghost use Rattle.dir_bytes.specs.Causes.{last_moment};
    ghost use Rattle.compute_terms.specs.Tuples.{Tuple};

    ghost Value = { Tuple };

    ghost view = { λ t. record { digest = t.digest; published = t.published; nickname = t.nickname.now; ip = t.ip; or_port = t.or_port; dir_port = t.dir_port } };

    ghost invariant = { λ t. t.published ≤ last_moment };
}

impl<'a> RelayTuple<'a> {
    /// The tuple of an entry.
    pub fn of(entry: &Entry<'a>) -> RelayTuple<'a>
        ensures { result ≡ terms.tuple_of entry.now }
    {
        RelayTuple {
            digest: entry.digest(),
            published: entry.published(),
            nickname: entry.nickname(),
            ip: entry.ip(),
            or_port: entry.or_port(),
            dir_port: entry.dir_port(),
        }
    }

    /// The digest of its descriptor.
    pub fn digest(&self) -> Digest1
        ensures { result ≡ self.now.digest }
    {
        self.digest
    }

    /// When its descriptor was published, in seconds since 1970-01-01 00:00:00 UTC.
    pub fn published(&self) -> u64
        ensures value { result ≡ self.now.published }
        ensures within { result ≤ last_moment }
    {
        self.published
    }

    /// The nickname.
    pub fn nickname(&self) -> &'a [u8]
        ensures { result.now ≡ self.now.nickname }
    {
        self.nickname
    }

    /// The IPv4 address, its first byte highest.
    pub fn ip(&self) -> u32
        ensures { result ≡ self.now.ip }
    {
        self.ip
    }

    /// The onion routing port.
    pub fn or_port(&self) -> u16
        ensures { result ≡ self.now.or_port }
    {
        self.or_port
    }

    /// The directory port.
    pub fn dir_port(&self) -> u16
        ensures { result ≡ self.now.dir_port }
    {
        self.dir_port
    }
}

impl<'a> Ballot for RelayTuple<'a> {
    ghost use Rattle.compute_terms.specs.Tuples.{tuple_order};
    ghost use Rattle.relay_select.specs.TupleOrder.{tuple_total, tuple_ties};

    ghost order = { tuple_order };

    ghost total = { tuple_total };

    ghost ties = { tuple_ties };

    fn compare(&self, other: &Self) -> Ordering {
        self.published()
            .cmp(&other.published())
            .then(other.digest().0.as_slice().cmp(self.digest().0.as_slice()))
            .then(other.nickname().cmp(self.nickname()))
            .then(addresses(other, self))
    }
}

/// Compares where two relays are reached.
fn addresses(a: &RelayTuple<'_>, b: &RelayTuple<'_>) -> Ordering
    ensures { result ≡ terms.address_order a.now b.now }
{
    a.ip()
        .cmp(&b.ip())
        .then(a.or_port().cmp(&b.or_port()))
        .then(a.dir_port().cmp(&b.dir_port()))
}

/// Replaces what is in `tuples` by the tuples of these entries.
pub fn tuples<'a>(entries: &[Entry<'a>], tuples: &mut Vec<RelayTuple<'a>>) -> Result<(), Memory>
    ensures { OnOk result (tuples.new.items ≡ map terms.tuple_of entries.now) }
{
    tuples.clear();
    'entries: for entry in entries {
        tuples.push(RelayTuple::of(entry))?;
    }
    Ok(())
}
