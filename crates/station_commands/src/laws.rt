// Which inputs `make-vote` has to answer with a vote.
ghost use Rattle.station_commands.specs.Answerable.{SuchAreNotRefused, SuchFilesAreNotRefused};

use key_port::Signer;

/// A law: an input that a vote can be made of at a moment is refused only where the verifier or the signer failed.
pub fn such_inputs_are_not_refused<N: Signer>()
    ensures { SuchAreNotRefused N.may_give N.steps }
{}

/// A law: so is one with a bandwidth file in front.
pub fn such_files_are_not_refused<N: Signer>()
    ensures { SuchFilesAreNotRefused N.may_give N.steps }
{}
