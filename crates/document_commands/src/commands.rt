// The commands over one document: a line in each for each kind.
ghost use Rattle.std.specs.Prelude.{◌≡◌, ◌<◌, ◌^◌, length};
ghost use Rattle.daemon_words.specs.Stops.{Answered};
ghost use Rattle.document_commands.specs.Answers as answers;
ghost use Rattle.document_commands.specs.Answers.{CheckAnswers, ReadAnswers, ShowAnswers, canonical_text, check_text};
ghost use Rattle.document_commands.specs.Documents.{document_of};

use crate::bandwidth::{check_file, show_file};
use crate::one::{check_one, show_one};
use crate::refusal::SubjectRefusal;
use authority_certs::Cert;
use bandwidth_file::BandFault;
use bytes::Bytes;
use consensus_doc::SignedConsensus;
use daemon_words::{DocumentRefusal, Kind, Stop, Subject};
use descriptor_doc::Descriptor;
use detached_doc::Detached;
use micro_desc::Micro;
use std::alloc::Global;
use vote_doc::Vote;

/// That the input is no document of the kind that is named.
fn of_document(stop: Stop<DocumentRefusal>) -> Stop<SubjectRefusal>
    ensures { result ≡ answers.of_document stop }
{
    match stop {
        Stop::Refused(why) => Stop::Refused(SubjectRefusal::Document(why)),
        Stop::Memory => Stop::Memory,
    }
}

/// That it is no bandwidth file.
fn of_file(stop: Stop<BandFault>) -> Stop<SubjectRefusal>
    ensures { result ≡ answers.of_file stop }
{
    match stop {
        Stop::Refused(fault) => Stop::Refused(SubjectRefusal::File(fault)),
        Stop::Memory => Stop::Memory,
    }
}

/// `ok`, where the input is what is named.
pub fn check(
    alloc: Global,
    subject: Subject,
    bytes: &Bytes,
) -> Result<Vec<u8>, Stop<SubjectRefusal>>
    requires { length bytes.now < 2 ^ 61 }
    ensures { Answered (CheckAnswers subject bytes.now) result }
{
    match subject {
        Subject::Document(kind) => check_document(alloc, kind, bytes).map_err(of_document),
        Subject::BandwidthFile => check_file(alloc, bytes).map_err(of_file),
    }
}

/// `ok`, where the input is one document of this kind, with nothing but blank lines before and after it.
fn check_document(
    alloc: Global,
    kind: Kind,
    bytes: &Bytes,
) -> Result<Vec<u8>, Stop<DocumentRefusal>>
    requires { length bytes.now < 2 ^ 61 }
    ensures { Answered (ReadAnswers check_text kind (document_of kind bytes.now)) result }
{
    match kind {
        Kind::Vote => check_one::<Vote>(alloc, kind, bytes),
        Kind::Cert => check_one::<Cert>(alloc, kind, bytes),
        Kind::Consensus => check_one::<SignedConsensus>(alloc, kind, bytes),
        Kind::Descriptor => check_one::<Descriptor>(alloc, kind, bytes),
        Kind::Micro => check_one::<Micro>(alloc, kind, bytes),
        Kind::Detached => check_one::<Detached>(alloc, kind, bytes),
    }
}

/// The canonical text of what is named, where the input is it.
pub fn show(alloc: Global, subject: Subject, bytes: &Bytes) -> Result<Vec<u8>, Stop<SubjectRefusal>>
    requires { length bytes.now < 2 ^ 61 }
    ensures { Answered (ShowAnswers subject bytes.now) result }
{
    match subject {
        Subject::Document(kind) => show_document(alloc, kind, bytes).map_err(of_document),
        Subject::BandwidthFile => show_file(alloc, bytes).map_err(of_file),
    }
}

/// The canonical text of the document of this kind that the input is, with nothing but blank lines before and after it.
fn show_document(alloc: Global, kind: Kind, bytes: &Bytes) -> Result<Vec<u8>, Stop<DocumentRefusal>>
    requires { length bytes.now < 2 ^ 61 }
    ensures { Answered (ReadAnswers canonical_text kind (document_of kind bytes.now)) result }
{
    match kind {
        Kind::Vote => show_one::<Vote>(alloc, kind, bytes),
        Kind::Cert => show_one::<Cert>(alloc, kind, bytes),
        Kind::Consensus => show_one::<SignedConsensus>(alloc, kind, bytes),
        Kind::Descriptor => show_one::<Descriptor>(alloc, kind, bytes),
        Kind::Micro => show_one::<Micro>(alloc, kind, bytes),
        Kind::Detached => show_one::<Detached>(alloc, kind, bytes),
    }
}
