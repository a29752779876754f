// What comes to a mirror.
ghost use Rattle.std.specs.Prelude.{◌≤◌, IfOk, length};

use crate::answers::{certs_text, micros_text, refusal_text};
use crate::holding::{held_text, wanted_text};
use crate::words::words_of;
use anyhow::{Result, bail};
use bytes::Bytes;
use key_port::TestKeys;
use mirror_core::Mirror;
use std::alloc::Global;
use std::fs;

/// The input that stands in a file, of 100,000,000 bytes at most.
fn input_of(rt: &HostRuntime, name: &str) -> Result<Bytes>
    ensures { IfOk result (λ bytes. length bytes ≤ 100000000) }
{
    let bytes = Bytes::from_string(fs::read_to_string(rt, name)?)?;
    if bytes.len() > 100_000_000 {
        bail!("the input is long");
    }
    Ok(bytes)
}

// Keys of the test scheme that do not fail.
fn keys(alloc: Global) -> TestKeys {
    TestKeys::new(Vec::new(alloc))
}

// Certificates come at a moment.
fn certs(rt: &HostRuntime, mirror: &mut Mirror<TestKeys>, name: &str, now: &str) -> Result<String> {
    let alloc = rt.alloc();
    let bytes = input_of(rt, name)?;
    match mirror.take_certs(&bytes, now.parse::<u64>()?, &mut keys(alloc)) {
        Ok(report) => certs_text(alloc, report),
        Err(why) => refusal_text(alloc, why),
    }
}

// A consensus comes.
fn consensus(rt: &HostRuntime, mirror: &mut Mirror<TestKeys>, name: &str) -> Result<String> {
    let alloc = rt.alloc();
    let bytes = input_of(rt, name)?;
    match mirror.take_consensus(&bytes, &mut keys(alloc)) {
        Ok(signers) => Ok(format!(in alloc; "signers {signers}")?),
        Err(why) => refusal_text(alloc, why),
    }
}

// Microdescriptors come.
fn micros(rt: &HostRuntime, mirror: &mut Mirror<TestKeys>, name: &str) -> Result<String> {
    let alloc = rt.alloc();
    let bytes = input_of(rt, name)?;
    match mirror.take_micros(&bytes) {
        Ok(report) => micros_text(alloc, report),
        Err(why) => refusal_text(alloc, why),
    }
}

/// The call that a line is, and the answer.
pub fn answer_to(rt: &HostRuntime, mirror: &mut Mirror<TestKeys>, line: &str) -> Result<String> {
    let words = words_of(rt.alloc(), line)?;
    match words.as_slice() {
        ["certs", name, "now", now] => certs(rt, mirror, name, now),
        ["consensus", name] => consensus(rt, mirror, name),
        ["micros", name] => micros(rt, mirror, name),
        ["wanted"] => wanted_text(rt.alloc(), mirror),
        ["held"] => held_text(rt.alloc(), mirror),
        _ => bail!("no such call"),
    }
}
