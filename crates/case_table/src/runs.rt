// A run of a case.
use crate::case::{Case, Outer};
use crate::differences::{response_difference, text_difference};
use crate::forms::{End, asked_text, clock, link, places, sink};
use crate::gates::{Answer, CaseGate, gate};
use crate::mirrors::end_of_mirror;
use crate::worker::Worker;
use authority_daemon::{Outside, run};
use dir_bytes::{MemoryClock, MemorySource};
use key_port::TestKeys;
use std::alloc::{AllocError, Global};
use std::sync::Wait;
use std::thread::Threads;

/// How many workers there may be.
const WORKERS: usize = 16;

// What workers have, each a clock, a verifier and a gate.
#[derive(Drop)]
struct Staff<'a> {
    clocks: Vec<MemoryClock>,
    verifiers: Vec<TestKeys>,
    gates: Vec<CaseGate<'a>>,
}

fn staff_of<'a>(
    alloc: Global,
    workers: Vec<Worker>,
    answers: &'a [Answer],
) -> Result<Staff<'a>, AllocError> {
    let mut clocks = Vec::new(alloc);
    let mut verifiers = Vec::new(alloc);
    let mut gates = Vec::new(alloc);
    for worker in workers {
        clocks.push(clock(worker.clock)?)?;
        verifiers.push(TestKeys::new(worker.verifies))?;
        gates.push(gate(alloc, worker.gives, worker.gates, answers)?)?;
    }
    Ok(Staff {
        clocks,
        verifiers,
        gates,
    })
}

// Runs words over an input and what stands outside. None where there are no workers, or too many.
fn end_of<H: Threads + Wait + Sync>(
    rt: &H,
    alloc: Global,
    words: &[String],
    input: Vec<u8>,
    outer: Outer,
    answers: &[Answer],
) -> Result<Option<End>, AllocError> {
    let Outer {
        cuts,
        reads,
        writes,
        errors,
        signs,
        workers,
        replies,
        exchanges,
        piece,
        room,
        errors_room,
    } = outer;
    let Staff {
        clocks,
        verifiers,
        gates,
    } = staff_of(alloc, workers, answers)?;
    let count = gates.len();
    if count == 0 || count > WORKERS || clocks.len() != count || verifiers.len() != count {
        return Ok(None);
    }
    let mut outside = Outside {
        source: MemorySource::new(input, cuts, reads),
        sink: sink(alloc, room, piece, writes)?,
        errors: sink(alloc, errors_room, piece, errors)?,
        clocks,
        verifiers,
        signer: TestKeys::new(signs),
        gates,
        link: link(alloc, replies, exchanges)?,
    };
    let status = run(rt, alloc, words, &mut outside).number() as u64;
    let Outside {
        source: _,
        sink,
        errors,
        clocks: _,
        verifiers: _,
        signer: _,
        gates: _,
        link,
    } = outside;
    let asked = asked_text(alloc, &link.asked)?;
    Ok(Some(End {
        status,
        line: errors.written,
        text: sink.written,
        asked,
    }))
}

/// What a case gives that it is not to give; an empty text where it gives what it is to.
pub fn difference<H: Threads + Wait + Sync>(
    rt: &H,
    alloc: Global,
    case: Case,
) -> Result<String, AllocError> {
    let Case {
        name: _,
        mirror,
        words,
        input,
        old: _,
        outer,
        text,
        marks,
        responses,
        asked,
        line,
        status,
    } = case;
    let answers = places(alloc, responses.len())?;
    let end = if mirror {
        end_of_mirror(rt, alloc, &words, outer, &answers)?
    } else {
        end_of(rt, alloc, &words, input, outer, &answers)?
    };
    let Some(end) = end else {
        return String::from_str(alloc, "another number of workers");
    };
    let said = String::from_utf8_lossy(alloc, &end.line)?;
    let said = said.trim_end();
    if end.status != status {
        return format!(in alloc; "status {}, {said}", end.status);
    }
    if end.line != line {
        return format!(in alloc; "line {said}");
    }
    let other = text_difference(alloc, &end.text, &text, &marks)?;
    if !other.is_empty() {
        return Ok(other);
    }
    if end.asked != asked {
        let other = String::from_utf8_lossy(alloc, &end.asked)?;
        return format!(in alloc; "asked {other}");
    }
    response_difference(alloc, &answers, &responses)
}
