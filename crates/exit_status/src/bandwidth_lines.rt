// The line and the number of each reason why an input gives no bandwidth file that counts.
ghost use Rattle.std.specs.Prelude.{◌≡◌, ◌≤◌, []};
ghost use Rattle.exit_status.specs.BandwidthLines as lines;
ghost use Rattle.exit_status.specs.{Parts.joined_parts, Reports.Reports};

use crate::parts::{report_at, write_parts};
use bandwidth_file::BandReason;
use dir_bytes::Sink;
use station_commands::BandwidthRefusal;

/// The number with which the process ends.
pub(crate) fn bandwidth_number(refusal: BandwidthRefusal) -> u8
    ensures { result ≡ lines.bandwidth_number refusal }
{
    match refusal {
        BandwidthRefusal::Fault(fault) => fault_number(fault.reason),
        BandwidthRefusal::Old { .. } => 15,
    }
}

/// 9 where the fault is a limit, and else 5.
fn fault_number(reason: BandReason) -> u8
    ensures { result ≡ lines.fault_number reason }
{
    match reason {
        BandReason::LineTooLong | BandReason::TooMany => 9,
        BandReason::Timestamp
        | BandReason::Header
        | BandReason::Value
        | BandReason::Nul
        | BandReason::Unterminated => 5,
    }
}

/// Writes what is wrong with a bandwidth file.
fn report_fault<E: Sink>(errors: &mut E, place: u64, reason: BandReason)
    ensures { Reports (E.written errors.old) (E.written errors.new) (E.faults errors.old) (E.faults errors.new)
        (joined_parts (lines.fault_parts place reason)) }
{
    match reason {
        BandReason::Timestamp => report_at(errors, place, b"timestamp", b""),
        BandReason::Header => report_at(errors, place, b"header", b""),
        BandReason::Value => report_at(errors, place, b"value", b""),
        BandReason::Nul => report_at(errors, place, b"nul", b""),
        BandReason::Unterminated => report_at(errors, place, b"unterminated", b""),
        BandReason::LineTooLong => write_parts(errors, &[b"limit line 1048576", b"\n"]),
        BandReason::TooMany => write_parts(errors, &[b"limit bandwidth-relays 65535", b"\n"]),
    }
}

/// Writes why an input gives no bandwidth file that counts.
pub fn report_bandwidth<E: Sink>(errors: &mut E, refusal: BandwidthRefusal)
    ensures { Reports (E.written errors.old) (E.written errors.new) (E.faults errors.old) (E.faults errors.new)
        (joined_parts (lines.bandwidth_parts refusal)) }
{
    match refusal {
        BandwidthRefusal::Fault(fault) => report_fault(errors, fault.place, fault.reason),
        BandwidthRefusal::Old { timestamp } => {
            let mut time = itoa::Buffer::new();
            let time = time.format(timestamp);
            write_parts(
                errors,
                &[b"bandwidth file is old: ", time.as_bytes(), b"\n"],
            )
        }
    }
}
