// The flags of relays under their rulings.
ghost use Rattle.std.specs.Prelude.{◌≡◌, IfOk, filter};
ghost use Rattle.flag_rules.specs.Flags as table;
ghost use Rattle.flag_rules.specs.Standings.{is_active};

use crate::addresses::standings;
use crate::flags::Flags;
use crate::limits::{
    FAST_KILOBYTES, FRESH_SECONDS, GUARD_KILOBYTES, HS_DIR_SECONDS, STABLE_SECONDS,
};
use crate::relay::RuledRelay;
use crate::standing::Standing;
use crate::thresholds::{Thresholds, thresholds_of};
use dir_bytes::Memory;
use std::alloc::Global;

/// The flags of relays under their rulings.
#[tactic(auto, unfolding(crate::specs::Flags::flags_of))]
pub(crate) fn flags_of(alloc: Global, now: u64, relays: &[RuledRelay]) -> Result<Vec<Flags>, Memory>
    ensures { IfOk result (λ flags. flags.items ≡ table.flags_of now relays.now) }
{
    let standings = standings(alloc, now, relays)?;
    let active = active(alloc, now, &standings)?;
    let least = thresholds_of(alloc, &active)?;
    let flags: Vec<Flags> = standings
        .iter()
        .map(|relay| flags_with(now, &least, relay))
        .collect(alloc)?;
    Ok(flags)
}

/// The active relays.
fn active(alloc: Global, now: u64, relays: &[Standing]) -> Result<Vec<Standing>, Memory>
    ensures { IfOk result (λ active. active.items ≡ filter (is_active now) relays.now) }
{
    let active: Vec<Standing> = relays
        .iter()
        .copied()
        .filter(|relay| relay.is_active(now))
        .collect(alloc)?;
    Ok(active)
}

/// The flags of a relay: none of one that is rejected, Sybil alone of one that is one too many.
fn flags_with(now: u64, least: &Thresholds, relay: &Standing) -> Flags
    ensures { result ≡ table.flags_with now least.now relay.now }
{
    if relay.ruling.is_reject() || relay.sybil {
        sybil_alone(relay.sybil)
    } else {
        own_flags(now, least, relay)
    }
}

/// Sybil or not, and no other flag.
fn sybil_alone(sybil: bool) -> Flags
    ensures { result ≡ table.sybil_alone sybil }
{
    Flags {
        bad_exit: false,
        exit: false,
        fast: false,
        guard: false,
        hs_dir: false,
        middle_only: false,
        running: false,
        stable: false,
        stale_desc: false,
        sybil,
        v2_dir: false,
        valid: false,
    }
}

/// The flags of a relay that is neither rejected nor a Sybil.
fn own_flags(now: u64, least: &Thresholds, relay: &Standing) -> Flags
    ensures { result ≡ table.own_flags now least.now relay.now }
{
    let middle_only = relay.ruling.is_middle_only();
    let anywhere = !middle_only;
    Flags {
        bad_exit: relay.ruling.is_bad_exit(),
        exit: is_exit(now, relay) && anywhere,
        fast: is_fast(now, least, relay),
        guard: is_guard(now, least, relay) && anywhere,
        hs_dir: is_hs_dir(now, least, relay) && anywhere,
        middle_only,
        running: relay.is_running(now),
        stable: is_stable(now, least, relay),
        stale_desc: is_stale(now, relay.facts.published),
        sybil: false,
        v2_dir: is_directory(now, relay) && anywhere,
        valid: relay.is_valid(),
    }
}

/// Whether a relay is Stable.
fn is_stable(now: u64, least: &Thresholds, relay: &Standing) -> bool
    ensures { result ≡ table.is_stable now least.now relay.now }
{
    let wmtbf = relay.facts.measured.wmtbf;
    relay.is_active(now) && (wmtbf >= least.stable_wmtbf || wmtbf >= STABLE_SECONDS)
}

/// Whether a relay is Fast.
fn is_fast(now: u64, least: &Thresholds, relay: &Standing) -> bool
    ensures { result ≡ table.is_fast now least.now relay.now }
{
    let kilobytes = u64::from(relay.facts.bandwidth());
    relay.is_active(now) && (kilobytes >= least.fast_kb || kilobytes >= FAST_KILOBYTES)
}

/// Whether a relay serves directory documents.
fn is_directory(now: u64, relay: &Standing) -> bool
    ensures { result ≡ table.is_directory now relay.now }
{
    relay.is_active(now) && (relay.facts.dir_port != 0 || relay.facts.tunnelled)
}

/// Whether a relay is Fast, Stable and a directory.
fn is_sound(now: u64, least: &Thresholds, relay: &Standing) -> bool
    ensures { result ≡ table.is_sound now least.now relay.now }
{
    is_fast(now, least, relay) && is_stable(now, least, relay) && is_directory(now, relay)
}

/// Whether a relay is fit for Guard.
fn is_guard(now: u64, least: &Thresholds, relay: &Standing) -> bool
    ensures { result ≡ table.is_guard now least.now relay.now }
{
    let kilobytes = u64::from(relay.facts.bandwidth());
    is_sound(now, least, relay)
        && u64::from(relay.facts.measured.wfu_ppm) >= least.guard_wfu_ppm
        && (kilobytes >= least.guard_kb || kilobytes >= GUARD_KILOBYTES)
}

/// Whether a relay is fit for HSDir.
fn is_hs_dir(now: u64, least: &Thresholds, relay: &Standing) -> bool
    ensures { result ≡ table.is_hs_dir now least.now relay.now }
{
    is_sound(now, least, relay) && relay.facts.uptime >= HS_DIR_SECONDS
}

/// Whether a relay is fit for Exit.
fn is_exit(now: u64, relay: &Standing) -> bool
    ensures { result ≡ table.is_exit now relay.now }
{
    relay.is_active(now) && relay.facts.exit_web
}

/// Whether a descriptor is older than 18 hours.
fn is_stale(now: u64, published: u64) -> bool
    ensures { result ≡ table.is_stale now published }
{
    now.saturating_sub(published) > FRESH_SECONDS
}
