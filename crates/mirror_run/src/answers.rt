// What a mirror answers, as text.
use anyhow::Result;
use frame_terms::{FrameFault, FrameReason, Keyword};
use mirror_core::{CertReport, MicroReport, MirrorRefusal};
use std::alloc::Global;
use std::str;

// A reason that tells a keyword.
fn with_keyword(alloc: Global, name: &str, keyword: Keyword) -> Result<String> {
    let keyword = str::from_utf8(keyword.text())?;
    Ok(format!(in alloc; "{name} {keyword}")?)
}

// What is wrong with a document.
fn reason_text(alloc: Global, reason: FrameReason) -> Result<String> {
    match reason {
        FrameReason::Missing(keyword) => with_keyword(alloc, "missing", keyword),
        FrameReason::Twice(keyword) => with_keyword(alloc, "twice", keyword),
        _ => Ok(String::from_str(alloc, "other")?),
    }
}

// What is wrong with a document, and where.
fn document_text(alloc: Global, fault: FrameFault) -> Result<String> {
    let place = fault.place;
    let reason = reason_text(alloc, fault.reason)?;
    Ok(format!(in alloc; "document {place} {reason}")?)
}

/// Why a mirror took nothing.
pub fn refusal_text(alloc: Global, why: MirrorRefusal) -> Result<String> {
    match why {
        MirrorRefusal::Document(fault) => document_text(alloc, fault),
        MirrorRefusal::WrongFlavour => Ok(String::from_str(alloc, "wrong-flavour")?),
        MirrorRefusal::Older { held } => Ok(format!(in alloc; "older {held}")?),
        MirrorRefusal::VerifierFault => Ok(String::from_str(alloc, "verifier-fault")?),
        MirrorRefusal::TooFewSigners { counted, roster } => {
            Ok(format!(in alloc; "too-few {counted} {roster}")?)
        }
        MirrorRefusal::Memory => Ok(String::from_str(alloc, "memory")?),
    }
}

/// What came of certificates.
pub fn certs_text(alloc: Global, report: CertReport) -> Result<String> {
    let CertReport {
        kept,
        skipped,
        refused,
    } = report;
    Ok(format!(in alloc; "kept {kept} skipped {skipped} refused {refused}")?)
}

/// What came of microdescriptors.
pub fn micros_text(alloc: Global, report: MicroReport) -> Result<String> {
    let MicroReport {
        kept,
        had,
        unwanted,
    } = report;
    Ok(format!(in alloc; "kept {kept} had {had} unwanted {unwanted}")?)
}
