// What was measured of relays, with the bandwidths of a file.
ghost use Rattle.std.specs.Prelude.{◌≡◌, ◌++◌, map, IfOk, OnOk};
ghost use Rattle.station_commands.specs.MeasuredTold.{AreToldBy, row_relay, told_relay, told_relays};

use bandwidth_file::Relays;
use dir_bytes::Memory;
use dir_values::Fingerprint;
use flag_rules::Measured;
use station_input::MeasuredRelay;
use std::alloc::Global;

/// What was measured of relays, where a file tells their bandwidths: each has the one that the file gives it, or none, whatever was
/// measured; the rest stays as it was. A relay of which only the file tells is a relay of which only its bandwidth was measured.
///
/// # Errors
/// `Memory` is want of memory.
pub fn told_by(
    alloc: Global,
    measured: &[MeasuredRelay],
    file: &Relays,
) -> Result<Vec<MeasuredRelay>, Memory>
    ensures list { IfOk result (λ relays. relays.items ≡ told_relays file.now measured.now) }
    ensures told { IfOk result (λ relays. AreToldBy file.now measured.now relays.items) }
{
    let mut relays = with_bandwidths(alloc, measured, file)?;
    let rows = file.rows(alloc)?;
    push_rows(&mut relays, &rows)?;
    Ok(relays)
}

/// Those that were measured, each with its bandwidth by the file.
fn with_bandwidths(
    alloc: Global,
    measured: &[MeasuredRelay],
    file: &Relays,
) -> Result<Vec<MeasuredRelay>, Memory>
    ensures { IfOk result (λ relays. relays.items ≡ map (told_relay file.now) measured.now) }
{
    let mut relays = Vec::with_capacity(alloc, measured.len())?;
    for relay in measured {
        relays.push(with_bandwidth(relay, file))?;
    }
    Ok(relays)
}

/// A measured relay with its bandwidth by the file.
fn with_bandwidth(relay: &MeasuredRelay, file: &Relays) -> MeasuredRelay
    ensures { result ≡ told_relay file.now relay.now }
{
    MeasuredRelay {
        identity: relay.identity,
        measured: Measured {
            kb: file.get(&relay.identity),
            ..relay.measured
        },
    }
}

/// Appends the relays of a file.
fn push_rows(relays: &mut Vec<MeasuredRelay>, rows: &[(Fingerprint, u32)]) -> Result<(), Memory>
    ensures { OnOk result (relays.new.items ≡ relays.old.items ++ map row_relay rows.now) }
{
    for (identity, bandwidth) in rows {
        relays.push(relay_of(identity, *bandwidth))?;
    }
    Ok(())
}

/// A relay of which only its bandwidth was measured.
fn relay_of(identity: &Fingerprint, bandwidth: u32) -> MeasuredRelay
    ensures { result ≡ row_relay (identity.now, bandwidth) }
{
    MeasuredRelay {
        identity: *identity,
        measured: Measured {
            reached_at: 0,
            wmtbf: 0,
            wfu_ppm: 0,
            known_for: 0,
            kb: Some(bandwidth),
        },
    }
}
