// An authority that is ready to serve.
ghost use Rattle.std.specs.Prelude.{◌≡◌, ◌≤◌, ◌<◌, ◌^◌, Err, IfErr, IfOk, length};
ghost use Rattle.dir_bytes.specs.Causes.{Rose};
ghost use Rattle.key_port.specs.Answers.{rules};
ghost use Rattle.serve_command.specs.{Private.{IsOpened, IsReady, StopsFor}, Starting.{RefusesStation, RefusesToServe}};

use crate::beginning::beginning_of;
use crate::refusal::ServeRefusal;
use crate::starting::start;
use crate::station::station_in;
use bytes::Bytes;
use count_terms::Newest;
use daemon_words::{Measures, Stop};
use flag_rules::OperatorList;
use key_port::Verifier;
use serve_board::{Board, Pass};
use station_input::StationFacts;
use std::alloc::Global;

/// What workers serve with: what their station is given, its operator's rules, a board, and a pass of it for each.
pub(crate) struct Ready<V: Verifier> {
    pub(crate) station: StationFacts,
    pub(crate) operator: OperatorList,
    pub(crate) board: Board<V>,
    pub(crate) passes: Vec<Pass<V>>,
}

/// The rules of a station's operator, and a board of its authority with so many passes, as it starts at the moment `now`
/// with the descriptors that stand in the input from a place on.
///
/// # Errors
/// Those of `beginning_of`.
fn open_board<V: Verifier>(
    alloc: Global,
    bytes: &Bytes,
    station: &StationFacts,
    used: usize,
    now: u64,
    workers: u32,
    verifier: &mut V,
) -> Result<(OperatorList, Board<V>, Vec<Pass<V>>), Stop<ServeRefusal>>
    requires short { length bytes.now < 2 ^ 61 }
    requires within { used ≤ length bytes.now }
    requires some { 0 < workers }
    ensures opened { IfOk result (λ opened. IsOpened (rules V.may_accept V.may_refuse) now station.now used bytes.now
        workers opened.0 opened.1 opened.2.items) }
    ensures stops { IfErr result (λ why.
        StopsFor (RefusesStation (rules V.may_accept V.may_refuse) now station.now used bytes.now) why) }
    ensures fault { result ≡ Err (Stop.Refused ServeRefusal.Verifier)
        → Rose (V.faults verifier.old) (V.faults verifier.new) }
    ensures told { V.faults verifier.old < V.faults verifier.new → result ≡ Err (Stop.Refused ServeRefusal.Verifier) }
{
    let operator = OperatorList::new(station.rules.as_slice().to_vec(alloc)?)?;
    let (schedule, pool) = beginning_of(alloc, bytes, station, used, now, verifier)?;
    let started = start(alloc, station, schedule, now)?;
    let (board, passes) = Board::new(alloc, started, pool, workers)?;
    Ok((operator, board, passes))
}

/// What so many workers serve with, as an input has it at the moment `now`, where this is the newest method that is known.
///
/// # Errors
/// `Refused` by the first that applies: those of `station_in`, and then those of `open_board`. `Memory` is want of
/// memory.
pub(crate) fn prepare<V: Verifier>(
    alloc: Global,
    measures: Measures,
    newest: Newest,
    bytes: &Bytes,
    now: u64,
    workers: u32,
    verifier: &mut V,
) -> Result<Ready<V>, Stop<ServeRefusal>>
    requires short { length bytes.now < 2 ^ 61 }
    requires some { 0 < workers }
    ensures ready { IfOk result (λ ready. IsReady (rules V.may_accept V.may_refuse) measures newest now bytes.now workers
        ready.station ready.operator ready.board ready.passes.items) }
    ensures stops { IfErr result (λ why.
        StopsFor (RefusesToServe (rules V.may_accept V.may_refuse) measures newest now bytes.now) why) }
    ensures fault { result ≡ Err (Stop.Refused ServeRefusal.Verifier)
        → Rose (V.faults verifier.old) (V.faults verifier.new) }
    ensures told { V.faults verifier.old < V.faults verifier.new → result ≡ Err (Stop.Refused ServeRefusal.Verifier) }
{
    let (station, used) = station_in(alloc, measures, newest, now, bytes)?;
    let (operator, board, passes) = open_board(
        alloc, bytes, &station, used, now, workers, verifier,
    )?;
    Ok(Ready {
        station,
        operator,
        board,
        passes,
    })
}
