// Laws of the relations. There is nothing to run.
ghost use Rattle.key_port.specs.{Answers.ExactlyOneHolds, Signing.GivesWhatIsAccepted};
ghost use Rattle.key_port.specs.TestScheme.{AcceptsTestSignatures};

use crate::signer::Signer;
use crate::test_keys::TestKeys;
use crate::verifier::Verifier;

/// The test scheme accepts the signature of a message by a key, and refuses each other one.
pub fn test_signatures_are_accepted_or_refused()
    ensures one { ExactlyOneHolds ⟦<TestKeys as Verifier>⟧.may_accept ⟦<TestKeys as Verifier>⟧.may_refuse }
    ensures accepts { AcceptsTestSignatures ⟦<TestKeys as Verifier>⟧.may_accept }
{}

/// What the test scheme signs it accepts, and it may give the signature of a message by a key alone.
pub fn test_signatures_are_accepted()
    ensures accepted { GivesWhatIsAccepted ⟦<TestKeys as Signer>⟧.may_give ⟦<TestKeys as Verifier>⟧.may_accept }
    ensures alone { AcceptsTestSignatures ⟦<TestKeys as Signer>⟧.may_give }
{}
