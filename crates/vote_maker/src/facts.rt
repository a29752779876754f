// What the vote says, and the text of it that is signed.
ghost use Rattle.std.specs.Prelude.{◌≡◌, ◌≤◌, [], IfOk, OnOk};
ghost use Rattle.dir_bytes.specs.Causes.{last_moment};
ghost use Rattle.flag_rules.specs.Rules.{KeepsTo};
ghost use Rattle.vote_schedule.specs.{Moments.valid_until, Schedules.IsSchedule};
ghost use Rattle.vote_maker.specs.Made as terms;
ghost use Rattle.vote_maker.specs.Private as walks;

use crate::copies::{copy, copy_certificate, copy_if, copy_lists};
use crate::entry::made_methods;
use crate::known::known_relays;
use crate::measures::Measures;
use crate::parts::{back, front_of, push_entries_of};
use authority_certs::Cert;
use dir_bytes::{Memory, Seq, Text};
use dir_values::{Algorithm, Digest1, FlagSet};
use flag_rules::{Flags, Hook, RelayFacts, Rules, Ruling, assign};
use key_port::Verifier;
use sha1::Sha1;
use sha2::Digest;
use station_input::StationFacts;
use std::alloc::Global;
use vote_pool::Pool;
use vote_terms::{SignatureFacts, VoteFacts};

/// The flags that the vote knows.
fn made_flags(alloc: Global) -> Result<FlagSet, Memory>
    ensures { IfOk result (λ flags. flags ≡ terms.made_flags) }
{
    let every = Flags {
        bad_exit: true,
        exit: true,
        fast: true,
        guard: true,
        hs_dir: true,
        middle_only: true,
        running: true,
        stable: true,
        stale_desc: true,
        sybil: true,
        v2_dir: true,
        valid: true,
    };
    every.names(alloc)
}

/// Who signs, as the certificate says, without a signature.
fn no_signature(alloc: Global, cert: &Cert) -> SignatureFacts
    ensures { result ≡ terms.signature_by cert.now [] }
{
    SignatureFacts {
        algorithm: Algorithm::Sha1,
        identity: cert.fingerprint,
        key_digest: Digest1(Sha1::digest(cert.signing_key.as_bytes())),
        signature: Text::new(Vec::new(alloc)),
    }
}

/// Appends the text of the entries of a pool's relays, each of which the hook was asked of, to the front of the vote that says
/// this around them.
///
/// # Errors
/// `Memory` is want of memory.
fn push_ruled<R: Rules, F: Fn(RelayFacts) -> Ruling, V: Verifier>(
    out: &mut Vec<u8>,
    alloc: Global,
    around: VoteFacts,
    station: &StationFacts,
    pool: &Pool<V>,
    hook: &Hook<R, F>,
    now: u64,
) -> Result<(), Memory>
    requires hook { KeepsTo R.allows F.pre F.post hook.now.rules hook.now.ask }
    requires front { out.old.items ≡ walks.front_text around station.now.certificate_bytes }
    ensures { OnOk result (walks.AppendsEntriesUnder (R.allows hook.now.rules) station.now.newest station.now.measured pool.now.descriptors now out.old.items out.new.items) }
{
    let measures = Measures::new(alloc, station.measured.as_slice())?;
    let known = known_relays(alloc, pool, &measures)?;
    let given = assign(alloc, &known, hook, now)?;
    push_entries_of(
        out,
        alloc,
        station.newest,
        around,
        station.certificate_bytes.as_bytes(),
        pool,
        &known,
        given.rulings.as_slice(),
        given.flags.as_slice(),
    )?;
    Ok(())
}

/// What the vote says, but for its entries, of an authority that is given this, for the period that begins then.
///
/// # Errors
/// `Memory` is want of memory.
fn said_around(
    alloc: Global,
    station: &StationFacts,
    valid_after: u64,
    now: u64,
) -> Result<VoteFacts, Memory>
    requires schedule { IsSchedule (terms.schedule_in station.now) }
    requires moments { valid_until (terms.schedule_in station.now) valid_after ≤ last_moment }
    ensures { IfOk result (λ facts. facts ≡ walks.said_around station.now valid_after now) }
{
    Ok(VoteFacts {
        methods: Some(made_methods(alloc, station.newest)?),
        published: now,
        valid_after,
        fresh_until: valid_after + station.interval,
        valid_until: valid_after + 3 * station.interval,
        vote_seconds: station.vote_seconds as u32,
        dist_seconds: station.dist_seconds as u32,
        known_flags: made_flags(alloc)?,
        flag_thresholds: None,
        lists: copy_lists(alloc, &station.lists)?,
        nickname: copy(alloc, &station.nickname)?,
        identity: station.identity,
        address: copy(alloc, &station.address)?,
        ip: station.ip,
        dir_port: station.dir_port,
        or_port: station.or_port,
        contact: copy_if(alloc, &station.contact)?,
        random_previous: None,
        random_current: None,
        certificate: copy_certificate(alloc, &station.certificate)?,
        entries: Seq::new(Vec::new(alloc)),
        signature: no_signature(alloc, &station.certificate),
    })
}

/// The text that is signed of the vote of an authority that is given this, and holds these descriptors, for the period that
/// begins then. Few of its entries are held at once.
///
/// # Errors
/// `Memory` is want of memory.
pub(crate) fn signed_part<R: Rules, F: Fn(RelayFacts) -> Ruling, V: Verifier>(
    alloc: Global,
    station: &StationFacts,
    pool: &Pool<V>,
    hook: &Hook<R, F>,
    valid_after: u64,
    now: u64,
) -> Result<Vec<u8>, Memory>
    requires schedule { IsSchedule (terms.schedule_in station.now) }
    requires moments { valid_until (terms.schedule_in station.now) valid_after ≤ last_moment }
    requires hook { KeepsTo R.allows F.pre F.post hook.now.rules hook.now.ask }
    ensures { IfOk result (λ text. walks.IsSignedPart (R.allows hook.now.rules) (terms.basis station.now pool.now.descriptors valid_after now) text.items) }
{
    let around = said_around(alloc, station, valid_after, now)?;
    let certificate = station.certificate_bytes.as_bytes();
    let mut out = front_of(alloc, &around, certificate, pool.len())?;
    push_ruled(&mut out, alloc, around, station, pool, hook, now)?;
    out.extend_from_slice(back())?;
    Ok(out)
}
