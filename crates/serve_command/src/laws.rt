// With which inputs `serve` has to start an authority.
ghost use Rattle.serve_command.specs.Answerable.{SuchAreNotRefused};

/// A law: an input that can start an authority at a moment is refused only where the verifier failed.
pub fn such_inputs_are_not_refused()
    ensures { SuchAreNotRefused }
{}
