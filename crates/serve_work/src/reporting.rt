// The report on the state that all workers left.
ghost use Rattle.serve_work.specs.Serving.{Reports};

use crate::serving::Served;
use crate::writing::write;
use dir_bytes::{Sink, WriteAll, write_all};
use key_port::Verifier;
use period_core::PeriodState;
use std::alloc::Global;

/// Writes the report on a state.
pub(crate) fn report<V: Verifier, K: Sink>(
    alloc: Global,
    state: &PeriodState<V>,
    sink: &mut K,
) -> Served
    ensures { Reports (K.written sink.old) (K.written sink.new) (K.faults sink.old) (K.faults sink.new) state.now
        result }
{
    let Ok(text) = write(alloc, state) else {
        return Served::NoMemory;
    };
    match write_all(sink, &text) {
        WriteAll::Done => Served::Whole,
        WriteAll::Failed { .. } => Served::WriteFault,
    }
}
