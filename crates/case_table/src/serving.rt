// The lines of a table that say what gates and the link give, and which responses are to come.
use crate::case::Case;
use crate::texts::{numbers_of, text_of};
use crate::worker::{Connection, plain_worker};
use anyhow::{Context, Result};
use std::alloc::Global;
use std::fs;

/// Takes a line that gives a worker, a reply of the link, a response, or something of a connection; whether it is one.
pub fn take_serving(rt: &HostRuntime, case: &mut Case, key: &str, rest: &str) -> Result<bool> {
    let alloc = rt.alloc();
    match key {
        "worker" => case.outer.workers.push(plain_worker(alloc))?,
        "connection" => begin_connection(alloc, case)?,
        "reply" => case.outer.replies.push(text_of(alloc, rest)?.into_bytes())?,
        "reply-file" => last(&mut case.outer.replies)?.append(&mut fs::read(rt, rest)?)?,
        "response" => last(&mut case.responses)?.append(&mut text_of(alloc, rest)?.into_bytes())?,
        "response-file" => last(&mut case.responses)?.append(&mut fs::read(rt, rest)?)?,
        _ => return take_request(rt, case, key, rest),
    }
    Ok(true)
}

// The last of some texts.
fn last(texts: &mut Vec<Vec<u8>>) -> Result<&mut Vec<u8>> {
    texts.last_mut().context("none has begun")
}

// Begins a connection of the last worker, on which nothing is sent and no response is to come.
fn begin_connection(alloc: Global, case: &mut Case) -> Result<()> {
    let connection = Connection {
        number: case.responses.len(),
        request: Vec::new(alloc),
        cuts: Vec::new(alloc),
        after: None,
    };
    let worker = case.outer.workers.last_mut().context("no worker")?;
    worker.gives.push(Some(connection))?;
    case.responses.push(Vec::new(alloc))?;
    Ok(())
}

// Takes a line that says something of the last worker's last connection; whether it is one.
fn take_request(rt: &HostRuntime, case: &mut Case, key: &str, rest: &str) -> Result<bool> {
    let alloc = rt.alloc();
    let Some(worker) = case.outer.workers.last_mut() else {
        return Ok(false);
    };
    let Some(Some(connection)) = worker.gives.last_mut() else {
        return Ok(false);
    };
    match key {
        "request" => connection
            .request
            .append(&mut text_of(alloc, rest)?.into_bytes())?,
        "request-file" => connection.request.append(&mut fs::read(rt, rest)?)?,
        "request-cuts" => connection.cuts = numbers_of(alloc, rest)?,
        "after" => connection.after = rest.parse::<usize>()?.checked_sub(1),
        _ => return Ok(false),
    }
    Ok(true)
}
