// A run of a mirror.
use crate::case::Outer;
use crate::forms::{End, asked_text, clock, link, sink};
use crate::gates::{Answer, gate};
use key_port::TestKeys;
use mirror_daemon::{MirrorOutside, run_mirror};
use std::alloc::{AllocError, Global};
use std::sync::Wait;

/// Runs a mirror by its words over what stands outside, of which it has the one worker's clock, verifier and gate, the link and
/// the errors sink. None where there is another number of workers.
pub fn end_of_mirror<H: Wait>(
    rt: &H,
    alloc: Global,
    words: &[String],
    outer: Outer,
    answers: &[Answer],
) -> Result<Option<End>, AllocError> {
    let mut workers = outer.workers;
    if workers.len() != 1 {
        return Ok(None);
    }
    let Some(worker) = workers.pop() else {
        return Ok(None);
    };
    let mut outside = MirrorOutside {
        clock: clock(worker.clock)?,
        verifier: TestKeys::new(worker.verifies),
        gate: gate(alloc, worker.gives, worker.gates, answers)?,
        link: link(alloc, outer.replies, outer.exchanges)?,
        errors: sink(alloc, outer.errors_room, outer.piece, outer.errors)?,
    };
    let status = run_mirror(rt, alloc, words, &mut outside).number() as u64;
    let MirrorOutside {
        clock: _,
        verifier: _,
        gate: _,
        link,
        errors,
    } = outside;
    let asked = asked_text(alloc, &link.asked)?;
    Ok(Some(End {
        status,
        line: errors.written,
        text: Vec::new(alloc),
        asked,
    }))
}
