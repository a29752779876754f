// What a worker does with what its gate gives.

/// What a worker does with what its gate gives.
pub trait Clerk<I, O> {
    /// Whether it may work.
    ghost may_work: { Self → Type 0 };

    /// What it may become by its work: from a clerk before on.
    ghost comes_to: { Self → Self → Type 0 };

    /// Serves a connection: reads from the input, and writes to the output.
    fn serve(&mut self, input: &mut I, output: &mut O)
        requires { may_work self.old }
        ensures may_work { may_work self.new }
        ensures comes { (before : Self) → comes_to before self.old → comes_to before self.new };

    /// Does what there is to do while no connection comes.
    fn rest(&mut self)
        requires { may_work self.old }
        ensures may_work { may_work self.new }
        ensures comes { (before : Self) → comes_to before self.old → comes_to before self.new };
}
