// The signatures that are offered.
use crate::authority::{Authority, signed_text};
use crate::texts::time_text;
use anyhow::{Context, Result, bail};
use checked_sigs::check_signatures;
use detached_sigs::SignerKey;
use dir_bytes::{Seq, Text};
use dir_values::{Digest1, Digest2};
use hex::encode_upper;
use key_port::TestKeys;
use period_core::PeriodState;
use period_terms::{CheckedSig, PeriodView};
use std::alloc::{AllocError, Global};

/// The two digests that are signed.
#[derive(Clone, Copy)]
struct Digests {
    ns: Digest1,
    microdesc: Digest2,
}

// The digests that a state has computed; zeros where nothing is computed, or where these are wanted.
fn digests_of(alloc: Global, state: &PeriodState<TestKeys>, over: &str) -> Result<Digests> {
    let zeros = Digests {
        ns: Digest1([0; 20]),
        microdesc: Digest2([0; 32]),
    };
    if over != "ours" {
        return Ok(zeros);
    }
    match state.view(alloc) {
        Ok(Some(view)) => Ok(Digests {
            ns: view.ns,
            microdesc: view.microdesc,
        }),
        Ok(None) => Ok(zeros),
        Err(_) => bail!("no memory"),
    }
}

// The items of detached signatures before the signatures, for the period that begins then.
fn head_text(alloc: Global, time: &str, digests: &Digests) -> Result<String, AllocError> {
    let ns = encode_upper(alloc, &digests.ns.0)?;
    let microdesc = encode_upper(alloc, &digests.microdesc.0)?;
    let times = format!(in alloc; "valid-after {time}\nfresh-until {time}\nvalid-until {time}")?;
    format!(in alloc;
        "consensus-digest {ns}\n{times}\nadditional-digest microdesc sha256 {microdesc}\n"
    )
}

// One signature, of a flavour.
fn line_text(
    alloc: Global,
    authority: &Authority,
    flavour: &str,
    digests: &Digests,
) -> Result<String> {
    if flavour == "ns" {
        let signed = signed_text(alloc, authority, &digests.ns.0)?;
        return Ok(format!(in alloc; "directory-signature {signed}")?);
    }
    let signed = signed_text(alloc, authority, &digests.microdesc.0)?;
    Ok(format!(in alloc; "additional-signature microdesc sha256 {signed}")?)
}

// What the signature of an authority is checked against.
fn view_of(
    alloc: Global,
    authority: &Authority,
    valid_after: u64,
    digests: Digests,
) -> Result<PeriodView> {
    let Ok(key) = Text::copy_of(alloc, authority.key.as_bytes()) else {
        bail!("no memory");
    };
    let authority = authority.identity;
    let keys = vec![in alloc; SignerKey { authority, key }]?;
    Ok(PeriodView {
        valid_after,
        ns: digests.ns,
        microdesc: digests.microdesc,
        keys: Seq::new(keys),
    })
}

// The one signature of a document, read and checked.
fn checked(alloc: Global, text: &[u8], view: &PeriodView) -> Result<CheckedSig<TestKeys>> {
    if text.len() > 100_000 {
        bail!("the document is long");
    }
    let mut keys = TestKeys::new(Vec::new(alloc));
    match check_signatures(alloc, text, view, &mut keys) {
        Ok(report) => report
            .checked
            .into_vec()
            .pop()
            .context("the signature is refused"),
        Err(_) => bail!("the document is refused"),
    }
}

/// The signature of an authority in a flavour, over the state's digest or over zeros, for the period that begins then: read and
/// checked.
pub fn signature_of(
    alloc: Global,
    state: &PeriodState<TestKeys>,
    authority: &Authority,
    flavour: &str,
    over: &str,
    valid_after: u64,
) -> Result<CheckedSig<TestKeys>> {
    let digests = digests_of(alloc, state, over)?;
    let time = time_text(alloc, valid_after)?;
    let head = head_text(alloc, &time, &digests)?;
    let line = line_text(alloc, authority, flavour, &digests)?;
    let text = format!(in alloc; "{head}{line}")?;
    let view = view_of(alloc, authority, valid_after, digests)?;
    checked(alloc, text.as_bytes(), &view)
}
