// What connects to a key service.
ghost use Rattle.std.specs.declared.option.Option.{Option};

use dir_bytes::{Sink, Source};

/// What connects to a key service.
pub trait Dial {
    /// What the service's answers are read from.
    type In: Source + Drop;

    /// What the requests are written to.
    type Out: Sink + Drop;

    /// What a dial may give, between the state before it and the one after.
    ghost gives: { Self → Option (Self.In × Self.Out) → Self → Type 0 };

    /// What taking a connection back may do, between the state before it and the one after.
    ghost takes_back: { Self → Self.In × Self.Out → Self → Type 0 };

    /// Both ends of a new connection, or `None` where there is none.
    fn dial(&mut self) -> Option<(Self::In, Self::Out)>
        ensures { gives self.old result self.new };

    /// Takes back both ends of a connection over which a question failed.
    fn take_back(&mut self, failed: (Self::In, Self::Out))
        ensures { takes_back self.old failed self.new };
}
