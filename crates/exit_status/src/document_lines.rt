// The line and the number of each fault of an input that is read as documents of a kind.
ghost use Rattle.std.specs.Prelude.{◌≡◌, ◌≤◌, []};
ghost use Rattle.exit_status.specs.DocumentLines as lines;
ghost use Rattle.exit_status.specs.{Parts.joined_parts, Reports.Reports};

use crate::parts::{report_at, write_parts};
use daemon_words::Kind;
use dir_bytes::Sink;
use frame_terms::FrameReason;
use item_terms::DocReason;

/// 9 where the fault is a limit, and else 5.
pub(crate) fn fault_number(reason: FrameReason) -> u8
    ensures { result ≡ lines.fault_number reason }
{
    match reason {
        FrameReason::Doc(reason) => match reason {
            DocReason::LineTooLong | DocReason::DocumentTooLong | DocReason::ObjectTooLong => 9,
            _ => 5,
        },
        FrameReason::TooMany(_) => 9,
        FrameReason::Missing(_)
        | FrameReason::Order
        | FrameReason::Twice(_)
        | FrameReason::Value
        | FrameReason::Unsorted
        | FrameReason::DuplicateEd => 5,
    }
}

/// The limit of a document of a kind, with its number.
pub(crate) fn document_limit(kind: Kind) -> &'static [u8]
    ensures { result.now ≡ lines.document_limit kind }
{
    match kind {
        Kind::Vote => b"vote 16777216",
        Kind::Cert => b"certificate 65536",
        Kind::Consensus => b"consensus 67108864",
        Kind::Descriptor => b"descriptor 65536",
        Kind::Micro => b"microdescriptor 65536",
        Kind::Detached => b"detached 1048576",
    }
}

/// What a line says of a fault of a document that has this limit.
fn doc_text(limit: &'static [u8], reason: DocReason) -> &'static [u8]
    ensures { result.now ≡ lines.doc_text limit.now reason }
{
    match reason {
        DocReason::Keyword => b"keyword",
        DocReason::Nul => b"nul",
        DocReason::Unterminated => b"unterminated",
        DocReason::ObjectWords => b"object words",
        DocReason::ObjectBase64 => b"object base64",
        DocReason::ObjectEnd => b"object end",
        DocReason::LineTooLong => b"line 1048576",
        DocReason::DocumentTooLong => limit,
        DocReason::ObjectTooLong => b"object 65536",
    }
}

/// Writes what is wrong with a line or an object of a document that has this limit.
fn report_doc<E: Sink>(errors: &mut E, limit: &'static [u8], place: u64, reason: DocReason)
    ensures { Reports (E.written errors.old) (E.written errors.new) (E.faults errors.old) (E.faults errors.new)
        (joined_parts (lines.doc_parts limit.now place reason)) }
{
    match reason {
        DocReason::LineTooLong | DocReason::DocumentTooLong | DocReason::ObjectTooLong => {
            write_parts(errors, &[b"limit ", doc_text(limit, reason), b"\n"])
        }
        _ => report_at(errors, place, doc_text(limit, reason), b""),
    }
}

/// Writes what is wrong with a document that has this limit.
pub fn report_fault<E: Sink>(errors: &mut E, limit: &'static [u8], place: u64, reason: FrameReason)
    ensures { Reports (E.written errors.old) (E.written errors.new) (E.faults errors.old) (E.faults errors.new)
        (joined_parts (lines.fault_parts limit.now place reason)) }
{
    match reason {
        FrameReason::Doc(reason) => report_doc(errors, limit, place, reason),
        FrameReason::Missing(keyword) => report_at(errors, place, b"missing ", keyword.text()),
        FrameReason::Twice(keyword) => report_at(errors, place, b"twice ", keyword.text()),
        FrameReason::Order => report_at(errors, place, b"order", b""),
        FrameReason::Value => report_at(errors, place, b"value", b""),
        FrameReason::Unsorted => report_at(errors, place, b"unsorted", b""),
        FrameReason::DuplicateEd => report_at(errors, place, b"duplicate ed25519", b""),
        FrameReason::TooMany(what) => {
            let mut most = itoa::Buffer::new();
            let most = most.format(what.number());
            write_parts(
                errors,
                &[b"limit ", what.name(), b" ", most.as_bytes(), b"\n"],
            )
        }
    }
}
