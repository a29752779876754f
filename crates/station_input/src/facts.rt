// What a station is given, in values of its own.
ghost use Rattle.std.specs.Prelude.{◌≡◌, IfOk, map};
ghost use Rattle.station_input.specs.Facts as facts;

use crate::frame_said::{MeasuredRelay, MemberLine};
use crate::kept::Kept;
use authority_certs::{Cert, CertHead, cert_at};
use count_terms::Newest;
use dir_bytes::{Memory, Seq, Text};
use dir_values::Fingerprint;
use flag_rules::OperatorRule;
use frame_values::{between, copy_part, copy_part_if};
use std::alloc::Global;
use vote_terms::{VoteLists, vote_lists};

/// An authority of the network.
#[derive(Drop)]
pub struct Peer {
    /// Its identity.
    pub identity: Fingerprint,
    /// The text of its IPv4 address and port, with a colon between them, where the input names them.
    pub address: Option<Text>,
}

/// What a station is given, without the descriptors: a field for each item, but for those that say always the same; and the newest
/// consensus method that its authority knows.
#[derive(Drop)]
pub struct StationFacts {
    /// The own authority's nickname.
    pub nickname: Text,
    /// The own authority's identity.
    pub identity: Fingerprint,
    /// The name of the own authority's host.
    pub address: Text,
    /// The own authority's IPv4 address, its first byte highest.
    pub ip: u32,
    /// The own authority's directory port.
    pub dir_port: u16,
    /// The own authority's onion routing port.
    pub or_port: u16,
    /// The text of the own authority's contact, where the input gives it.
    pub contact: Option<Text>,
    /// The seconds between two consensuses.
    pub interval: u64,
    /// The seconds for exchanging votes.
    pub vote_seconds: u64,
    /// The seconds for exchanging signatures.
    pub dist_seconds: u64,
    /// The authorities of the network, in the input's order.
    pub authorities: Seq<Peer>,
    /// Its versions, protocols and params.
    pub lists: VoteLists,
    /// The rules of the operator, in the input's order.
    pub rules: Seq<OperatorRule>,
    /// What was measured of relays, in the input's order.
    pub measured: Seq<MeasuredRelay>,
    /// The own authority's certificate.
    pub certificate: Cert,
    /// The certificate's bytes as they stand in the input, from its first item through its last object.
    pub certificate_bytes: Text,
    /// The newest consensus method that the authority knows, which the operator names.
    pub newest: Newest,
}

/// An authority of the network, in these bytes.
fn peer_of(alloc: Global, bytes: &[u8], member: &MemberLine) -> Result<Peer, Memory>
    ensures { IfOk result (λ peer. peer ≡ facts.peer_in bytes.now member.now) }
{
    Ok(Peer {
        identity: member.identity,
        address: copy_part_if(alloc, bytes, member.peer)?,
    })
}

/// The authorities of the network, in these bytes.
fn peers_of(alloc: Global, bytes: &[u8], members: &[MemberLine]) -> Result<Seq<Peer>, Memory>
    ensures { IfOk result (λ peers. peers ≡ map (facts.peer_in bytes.now) members.now) }
{
    let mut peers = Vec::with_capacity(alloc, members.len())?;
    for member in members {
        peers.push(peer_of(alloc, bytes, member)?)?;
    }
    Ok(Seq::new(peers))
}

/// A copy of the bytes of the certificate of which this was kept.
fn certificate_bytes(alloc: Global, bytes: &[u8], head: &CertHead) -> Result<Text, Memory>
    ensures { IfOk result (λ text. text ≡ facts.whole_part bytes.now head.now) }
{
    Text::copy_of(alloc, between(bytes, head.begin, head.end))
}

/// What the station input says of which this was kept, where this is the newest method that is known.
///
/// # Errors
/// `Memory` is want of memory.
pub(crate) fn facts_of(
    alloc: Global,
    newest: Newest,
    bytes: &[u8],
    kept: Kept,
) -> Result<StationFacts, Memory>
    ensures { IfOk result (λ found. found ≡ facts.facts_of newest bytes.now kept) }
{
    let head = &kept.head;
    Ok(StationFacts {
        nickname: copy_part(alloc, bytes, head.source.nickname)?,
        identity: head.source.identity,
        address: copy_part(alloc, bytes, head.source.address)?,
        ip: head.source.ip,
        dir_port: head.source.dir_port,
        or_port: head.source.or_port,
        contact: copy_part_if(alloc, bytes, head.contact)?,
        interval: head.schedule.interval,
        vote_seconds: head.schedule.vote,
        dist_seconds: head.schedule.dist,
        authorities: peers_of(alloc, bytes, kept.members.as_slice())?,
        lists: vote_lists(alloc, bytes, &head.lists)?,
        certificate: cert_at(alloc, bytes, &head.certificate)?,
        certificate_bytes: certificate_bytes(alloc, bytes, &head.certificate)?,
        rules: kept.rules,
        measured: kept.measured,
        newest,
    })
}
