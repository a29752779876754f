// The line and the number of each reason why a station can make no vote.
ghost use Rattle.std.specs.Prelude.{◌≡◌, ◌≤◌, []};
ghost use Rattle.exit_status.specs.StationLines as lines;
ghost use Rattle.exit_status.specs.{Parts.joined_parts, Reports.Reports};

use crate::document_lines::{document_limit, fault_number, report_fault};
use crate::parts::write_parts;
use daemon_words::Kind;
use dir_bytes::Sink;
use station_commands::{CertWord, DescriptorWord, OrderWord, StationRefusal};

/// The number with which the process ends.
pub(crate) fn station_number(refusal: StationRefusal) -> u8
    ensures { result ≡ lines.station_number refusal }
{
    match refusal {
        StationRefusal::Fault(fault) => fault_number(fault.reason),
        StationRefusal::Order(_) => 13,
        StationRefusal::NoDescriptor(fault) => fault_number(fault.reason),
        StationRefusal::Descriptor { .. } => 6,
        StationRefusal::PoolFull | StationRefusal::EndOfTime => 13,
        StationRefusal::OwnCert(_) => 12,
    }
}

/// The word of a line for what is wrong with what a station is given.
fn order_text(word: OrderWord) -> &'static [u8]
    ensures { result.now ≡ lines.order_text word }
{
    match word {
        OrderWord::Roster => b"roster",
        OrderWord::Schedule => b"schedule",
        OrderWord::Own => b"own",
    }
}

/// The word of a line for the clause that a descriptor fails.
fn descriptor_text(word: DescriptorWord) -> &'static [u8]
    ensures { result.now ≡ lines.descriptor_text word }
{
    match word {
        DescriptorWord::Identity => b"identity",
        DescriptorWord::Signature => b"signature",
        DescriptorWord::Ed25519 => b"ed25519",
    }
}

/// The word of a line for the clause that the own certificate fails.
fn cert_text(word: CertWord) -> &'static [u8]
    ensures { result.now ≡ lines.cert_text word }
{
    match word {
        CertWord::Fingerprint => b"fingerprint",
        CertWord::Expired => b"expired",
        CertWord::Certification => b"certification",
        CertWord::Crosscert => b"crosscert",
    }
}

/// Writes which descriptor does not hold, and why.
fn report_descriptor<E: Sink>(errors: &mut E, number: u64, word: DescriptorWord)
    ensures { Reports (E.written errors.old) (E.written errors.new) (E.faults errors.old) (E.faults errors.new)
        (joined_parts (lines.descriptor_parts number word)) }
{
    let mut k = itoa::Buffer::new();
    let k = k.format(number);
    write_parts(
        errors,
        &[
            b"descriptor ",
            k.as_bytes(),
            b" refused: ",
            descriptor_text(word),
            b"\n",
        ],
    )
}

/// Writes what is wrong with what a station is given, or with the time.
fn report_word<E: Sink>(errors: &mut E, word: &'static [u8])
    ensures { Reports (E.written errors.old) (E.written errors.new) (E.faults errors.old) (E.faults errors.new)
        (joined_parts (lines.word_parts word.now)) }
{
    write_parts(errors, &[b"station refused: ", word, b"\n"])
}

/// Writes why a station can make no vote.
pub fn report_station<E: Sink>(errors: &mut E, refusal: StationRefusal)
    ensures { Reports (E.written errors.old) (E.written errors.new) (E.faults errors.old) (E.faults errors.new)
        (joined_parts (lines.station_parts refusal)) }
{
    match refusal {
        StationRefusal::Fault(fault) => {
            report_fault(errors, b"input 268435456", fault.place, fault.reason)
        }
        StationRefusal::Order(word) => report_word(errors, order_text(word)),
        StationRefusal::NoDescriptor(fault) => report_fault(
            errors,
            document_limit(Kind::Descriptor),
            fault.place,
            fault.reason,
        ),
        StationRefusal::Descriptor { number, word } => report_descriptor(errors, number, word),
        StationRefusal::PoolFull => report_word(errors, b"pool"),
        StationRefusal::EndOfTime => report_word(errors, b"end of time"),
        StationRefusal::OwnCert(word) => write_parts(
            errors,
            &[b"own certificate refused: ", cert_text(word), b"\n"],
        ),
    }
}
