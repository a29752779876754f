// The program over what stands outside.
ghost use Rattle.std.specs.Prelude.{◌≡◌, ◌<◌};
ghost use Rattle.key_port.specs.Answers.{rules};
ghost use Rattle.daemon_words.specs.Words as grammar;
ghost use Rattle.exit_status.specs.{Lines.line_of, Reports.Reports};
ghost use Rattle.serve_command.specs.Serving.{HasWorkers};
ghost use Rattle.authority_daemon.specs.{Moments.telling_of, Commands.may, World.{AnswersWhatItMust, Runs}};

use crate::arriving::run_compute;
use crate::outside::Stands;
use crate::serving::run_serving;
use crate::texts::{run_over, run_rehearsal};
use daemon_words::{Command, command_of};
use dir_bytes::{Clock, Sink, Source};
use dir_http::{Gate, Link};
use exit_status::{Status, report};
use key_port::{Signer, Verifier};
use serve_command::Outside;
use std::alloc::Global;
use std::sync::Wait;
use std::thread::Threads;

/// Runs the command that the words give, which come without the program's name: reads the input, writes the command's
/// text, or a line to `errors` that says why there is none. `serve` serves until the gates are closed, and writes the
/// report on what was left; it has a worker for each gate, with a clock and a verifier of its own.
///
/// Of several statuses that apply the first is given: `BadWords`, `ReadFault`, `TooLong`, the refusals in the order of
/// the command (of `compute` the input's first fault, then the first vote that is refused or of which the verifier
/// fails, then too few votes; of `make-vote` as `station_commands::make_vote` has them; of `serve` as
/// `serve_command::serve_station` has them, then `Gate`), and then `WriteFault`. `Memory` may come at any time. The
/// input is read to its end, or past its limit, also where it is refused; `rehearse` reads none.
pub fn run<
    H: Threads + Wait + Sync,
    S: Source + Drop,
    K: Sink + Drop,
    E: Sink + Drop,
    C: Clock + Send + Drop,
    V: Verifier + Send + Sync + Drop,
    N: Signer + Send + Drop,
    G: Gate + Send + Drop,
    L: Link + Send + Drop,
>(rt: &H, alloc: Global, words: &[String], outside: &mut Outside<S, K, E, C, V, N, G, L>) -> Status
    requires workers { HasWorkers outside.old }
    // The words, the input, the text, the faults, and what is asked.
    ensures run { let at = ⟦<Outside<S, K, E, C, V, N, G, L> as Stands<S, C, V, N, G, L>>⟧.at in
        Runs (may V.may_accept V.may_refuse N.may_give N.steps) (telling_of C.last C.asks G.faults G.closed)
        (grammar.command_of words.now) (at outside.old) (at outside.new) result }
    // The errors sink gets the line of the status.
    ensures errors { Reports (E.written outside.old.errors) (E.written outside.new.errors)
        (E.faults outside.old.errors) (E.faults outside.new.errors) (line_of result) }
    // An input that has to be answered is, unless there is no memory or something outside failed.
    ensures complete { let at = ⟦<Outside<S, K, E, C, V, N, G, L> as Stands<S, C, V, N, G, L>>⟧.at in
        AnswersWhatItMust (rules V.may_accept V.may_refuse) (grammar.command_of words.now)
        (at outside.old) (at outside.new) result }
{
    let status = run_command(rt, alloc, words, outside);
    report(&mut outside.errors, status);
    status
}

/// Runs the command, and says nothing on the errors sink.
#[tactic(auto, using(crate::proofs::Choosing::runs))]
fn run_command<
    H: Threads + Wait + Sync,
    S: Source + Drop,
    K: Sink + Drop,
    E: Sink + Drop,
    C: Clock + Send + Drop,
    V: Verifier + Send + Sync + Drop,
    N: Signer + Send + Drop,
    G: Gate + Send + Drop,
    L: Link + Send + Drop,
>(rt: &H, alloc: Global, words: &[String], outside: &mut Outside<S, K, E, C, V, N, G, L>) -> Status
    requires workers { HasWorkers outside.old }
    ensures run { let at = ⟦<Outside<S, K, E, C, V, N, G, L> as Stands<S, C, V, N, G, L>>⟧.at in
        Runs (may V.may_accept V.may_refuse N.may_give N.steps) (telling_of C.last C.asks G.faults G.closed)
        (grammar.command_of words.now) (at outside.old) (at outside.new) result }
    ensures quiet { outside.new.errors ≡ outside.old.errors }
{
    match command_of(alloc, words) {
        Ok(Some(Command::Serve(wanted))) => run_serving(rt, alloc, &wanted, outside),
        Ok(Some(Command::Compute(wanted))) => run_compute(alloc, &wanted, outside),
        Ok(Some(Command::Rehearse(wanted))) => run_rehearsal(alloc, wanted, outside),
        Ok(Some(command)) => run_over(alloc, &command, outside),
        Ok(None) => Status::BadWords,
        Err(_) => Status::Memory,
    }
}
