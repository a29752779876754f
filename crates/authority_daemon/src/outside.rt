// What stands outside the program, as clauses see it.
ghost use Rattle.authority_daemon.specs.{Runs.first_count, Moments.Moment};

use dir_bytes::{Clock, Sink, Source};
use key_port::{Signer, Verifier};
use serve_command::Outside;

/// What stands outside, as clauses see it.
pub trait Stands<S, C, V, N, G, L> {
    /// What stands there at a moment.
    ghost at: { Self → Moment S C V N G L };
}

impl<
    S: Source + Drop,
    K: Sink + Drop,
    E: Drop,
    C: Clock + Drop,
    V: Verifier + Drop,
    N: Signer + Drop,
    G: Drop,
    L: Drop,
> Stands<S, C, V, N, G, L> for Outside<S, K, E, C, V, N, G, L> {
    ghost at = { λ outside. record {
      source = outside.source;
      left = S.left outside.source;
      read_faults = S.faults outside.source;
      written = K.written outside.sink;
      write_faults = K.faults outside.sink;
      clocks = outside.clocks.items;
      last = first_count C.last outside.clocks.items;
      asks = first_count C.asks outside.clocks.items;
      verifiers = outside.verifiers.items;
      verifier_faults = first_count V.faults outside.verifiers.items;
      signer = outside.signer;
      signer_faults = N.faults outside.signer;
      gates = outside.gates.items;
      link = outside.link;
    } };
}
