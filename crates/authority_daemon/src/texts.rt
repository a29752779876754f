// The commands that write a text, over what stands outside.
ghost use Rattle.std.specs.Prelude.{◌≡◌, ◌<◌, ◌^◌, Some, true, length, vec_len};
ghost use Rattle.daemon_words.specs.Rehearsals.{IsWithinBounds};
ghost use Rattle.authority_daemon.specs.{Commands.may, Inside.{IsAnswer, LeavesStreams, is_gathered}, World.IsRun};

use crate::outside::Stands;
use crate::telling::{check, health, show, vote};
use bytes::Bytes;
use daemon_words::{Command, Rehearse, Stop};
use dir_bytes::{Clock, ReadAllFault, Sink, Source, WriteAll, read_all, write_all};
use exit_status::{Refusal, Status};
use key_port::{Signer, Verifier};
use serve_command::Outside;
use std::alloc::Global;
use vote_rehearsal::rehearse;

/// How many bytes an input may have.
pub(crate) const INPUT_LIMIT: u64 = 268_435_456;

/// Runs a rehearsal, which reads no input.
pub(crate) fn run_rehearsal<
    S: Source + Drop,
    K: Sink + Drop,
    E: Sink + Drop,
    C: Clock + Drop,
    V: Verifier + Drop,
    N: Signer + Drop,
    G: Drop,
    L: Drop,
>(alloc: Global, wanted: Rehearse, outside: &mut Outside<S, K, E, C, V, N, G, L>) -> Status
    requires bounds { IsWithinBounds wanted }
    ensures run { let at = ⟦<Outside<S, K, E, C, V, N, G, L> as Stands<S, C, V, N, G, L>>⟧.at in
        IsRun (may V.may_accept V.may_refuse N.may_give N.steps) (Some (Command.Rehearse wanted))
        (at outside.old) (at outside.new) result }
    ensures quiet { outside.new.errors ≡ outside.old.errors }
{
    match rehearse(alloc, wanted.seed, wanted.relays, wanted.authorities) {
        Ok(summary) => match write_all(&mut outside.sink, &summary) {
            WriteAll::Done => Status::Done,
            WriteAll::Failed { .. } => Status::WriteFault,
        },
        Err(_) => Status::Memory,
    }
}

/// Runs a command over the input, which is read whole before it is answered.
pub(crate) fn run_over<
    S: Source + Drop,
    K: Sink + Drop,
    E: Sink + Drop,
    C: Clock + Drop,
    V: Verifier + Drop,
    N: Signer + Drop,
    G: Drop,
    L: Drop,
>(alloc: Global, command: &Command, outside: &mut Outside<S, K, E, C, V, N, G, L>) -> Status
    requires clocks { 0 < vec_len outside.old.clocks }
    requires verifiers { 0 < vec_len outside.old.verifiers }
    requires input { is_gathered command.now ≡ true }
    ensures run { let at = ⟦<Outside<S, K, E, C, V, N, G, L> as Stands<S, C, V, N, G, L>>⟧.at in
        IsRun (may V.may_accept V.may_refuse N.may_give N.steps) (Some command.now)
        (at outside.old) (at outside.new) result }
    ensures quiet { outside.new.errors ≡ outside.old.errors }
{
    let bytes = match read_all(alloc, &mut outside.source, INPUT_LIMIT) {
        Ok(bytes) => bytes,
        Err(ReadAllFault::TooLong) => return Status::TooLong,
        Err(ReadAllFault::ReadFault) => return Status::ReadFault,
        Err(ReadAllFault::Memory) => return Status::Memory,
    };
    match answer(alloc, command, bytes, outside) {
        Ok(text) => match write_all(&mut outside.sink, &text) {
            WriteAll::Done => Status::Done,
            WriteAll::Failed { .. } => Status::WriteFault,
        },
        Err(Stop::Memory) => Status::Memory,
        Err(Stop::Refused(refusal)) => Status::Refused(refusal),
    }
}

/// What a command answers to an input of these bytes.
fn answer<
    S: Source + Drop,
    K: Sink + Drop,
    E: Sink + Drop,
    C: Clock + Drop,
    V: Verifier + Drop,
    N: Signer + Drop,
    G: Drop,
    L: Drop,
>(
    alloc: Global,
    command: &Command,
    bytes: Vec<u8>,
    outside: &mut Outside<S, K, E, C, V, N, G, L>,
) -> Result<Vec<u8>, Stop<Refusal>>
    requires clocks { 0 < vec_len outside.old.clocks }
    requires verifiers { 0 < vec_len outside.old.verifiers }
    requires input { is_gathered command.now ≡ true }
    requires length { vec_len bytes < 2 ^ 61 }
    ensures answer { let at = ⟦<Outside<S, K, E, C, V, N, G, L> as Stands<S, C, V, N, G, L>>⟧.at in
        IsAnswer (may V.may_accept V.may_refuse N.may_give N.steps) command.now bytes.items
        (at outside.old) (at outside.new) result }
    ensures streams { LeavesStreams outside.old outside.new }
{
    let input = Bytes::from_vec(bytes)?;
    answer_to(alloc, command, &input, outside)
}

/// What a command answers to an input.
fn answer_to<
    S: Source + Drop,
    K: Sink + Drop,
    E: Sink + Drop,
    C: Clock + Drop,
    V: Verifier + Drop,
    N: Signer + Drop,
    G: Drop,
    L: Drop,
>(
    alloc: Global,
    command: &Command,
    bytes: &Bytes,
    outside: &mut Outside<S, K, E, C, V, N, G, L>,
) -> Result<Vec<u8>, Stop<Refusal>>
    requires clocks { 0 < vec_len outside.old.clocks }
    requires verifiers { 0 < vec_len outside.old.verifiers }
    requires input { is_gathered command.now ≡ true }
    requires length { length bytes.now < 2 ^ 61 }
    ensures answer { let at = ⟦<Outside<S, K, E, C, V, N, G, L> as Stands<S, C, V, N, G, L>>⟧.at in
        IsAnswer (may V.may_accept V.may_refuse N.may_give N.steps) command.now bytes.now
        (at outside.old) (at outside.new) result }
    ensures streams { LeavesStreams outside.old outside.new }
{
    match command {
        Command::Check(subject) => check(alloc, *subject, bytes),
        Command::Show(subject) => show(alloc, *subject, bytes),
        Command::MakeVote(wanted) => vote(
            alloc,
            wanted.bandwidths,
            wanted.newest,
            bytes,
            &mut outside.clocks[0],
            &mut outside.verifiers[0],
            &mut outside.signer,
        ),
        Command::Report(wanted) => { health(alloc, wanted, bytes, &mut outside.verifiers[0]) }
        // The input of the one is not gathered, the next reads none, and the last writes no text.
        Command::Compute(_) | Command::Rehearse(_) | Command::Serve(_) => unreachable!(),
    }
}
