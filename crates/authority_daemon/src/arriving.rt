// The command whose input is checked while it is read, over what stands outside.
ghost use Rattle.std.specs.Prelude.{◌≡◌, ◌<◌, Some, vec_len};
ghost use Rattle.key_port.specs.Answers.{rules};
ghost use Rattle.authority_daemon.specs.{Commands.may, Inside.{IsComputed, LeavesOthers}, Runs.first_count};
ghost use Rattle.authority_daemon.specs.World.{IsRun};
ghost use Rattle.authority_daemon.specs.Inside as its;

use crate::outside::Stands;
use crate::texts::INPUT_LIMIT;
use compute_command::{Halt, compute_from};
use daemon_words::{Command, Compute, Stop};
use dir_bytes::{Clock, Sink, Source, WriteAll, write_all};
use exit_status::{Status, by_compute};
use key_port::{Signer, Verifier};
use serve_command::Outside;
use std::alloc::Global;

/// How a run ends whose command stops so.
fn status_of(why: Halt) -> Status
    ensures { result ≡ its.status_of why }
{
    match why {
        Halt::ReadFault => Status::ReadFault,
        Halt::TooLong => Status::TooLong,
        Halt::Stops(Stop::Memory) => Status::Memory,
        Halt::Stops(Stop::Refused(why)) => Status::Refused(by_compute(why)),
    }
}

/// What `compute` gives of the input, each vote of which is checked as it ends.
fn computed<
    S: Source + Drop,
    K: Sink + Drop,
    E: Sink + Drop,
    C: Clock + Drop,
    V: Verifier + Drop,
    N: Signer + Drop,
    G: Drop,
    L: Drop,
>(
    alloc: Global,
    wanted: &Compute,
    outside: &mut Outside<S, K, E, C, V, N, G, L>,
) -> Result<Vec<u8>, Halt>
    requires verifiers { 0 < vec_len outside.old.verifiers }
    ensures computed { IsComputed (rules V.may_accept V.may_refuse) wanted.now
        (S.left outside.old.source) (S.left outside.new.source)
        (S.faults outside.old.source) (S.faults outside.new.source)
        outside.old.verifiers.items outside.new.verifiers.items
        (first_count V.faults outside.old.verifiers.items) (first_count V.faults outside.new.verifiers.items) result }
    ensures others { LeavesOthers outside.old outside.new }
{
    let verifier = &mut outside.verifiers[0];
    compute_from(alloc, wanted, &mut outside.source, INPUT_LIMIT, verifier)
}

/// Computes a consensus of the votes that the input is, each of which is checked as it ends.
pub(crate) fn run_compute<
    S: Source + Drop,
    K: Sink + Drop,
    E: Sink + Drop,
    C: Clock + Drop,
    V: Verifier + Drop,
    N: Signer + Drop,
    G: Drop,
    L: Drop,
>(alloc: Global, wanted: &Compute, outside: &mut Outside<S, K, E, C, V, N, G, L>) -> Status
    requires verifiers { 0 < vec_len outside.old.verifiers }
    ensures run { let at = ⟦<Outside<S, K, E, C, V, N, G, L> as Stands<S, C, V, N, G, L>>⟧.at in
        IsRun (may V.may_accept V.may_refuse N.may_give N.steps) (Some (Command.Compute wanted.now))
        (at outside.old) (at outside.new) result }
    ensures quiet { outside.new.errors ≡ outside.old.errors }
{
    match computed(alloc, wanted, outside) {
        Ok(text) => match write_all(&mut outside.sink, &text) {
            WriteAll::Done => Status::Done,
            WriteAll::Failed { .. } => Status::WriteFault,
        },
        Err(why) => status_of(why),
    }
}
