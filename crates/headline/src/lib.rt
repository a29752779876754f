//! The headline: what a run of `compute` and of `serve` says, and what an authority has at each time, whatever comes.
#![tactic(auto)]

ghost use Rattle.authority_daemon.specs.{Commands.may, Moments.telling_of};
ghost use Rattle.headline.specs.Laws.{ComputeSays, MajoritiesFailForMemoryAlone, ServeSays, TextsAgree};
ghost use Rattle.headline.specs.{Lists.{DeliveriesAreRight, ListsAgree, RefusalsChangeNothing}, Times.CheckedAreRight};
ghost use Rattle.headline.specs.Times.{DeliveriesAreAccepted, SomeoneSignedBoth};

use dir_bytes::Clock;
use dir_http::Gate;
use key_port::{Signer, Verifier};

/// What a run of `compute` that ends with its text says.
pub fn compute_says<S, C, V: Verifier, N: Signer, G, L>()
    ensures { ComputeSays S C V N G L (may V.may_accept V.may_refuse N.may_give N.steps) }
{}

/// With votes of more than half of the roster `compute` fails for want of memory alone.
pub fn majorities_fail_for_memory_alone<S, C, V: Verifier, N: Signer, G, L>()
    ensures { MajoritiesFailForMemoryAlone S C V N G L (may V.may_accept V.may_refuse N.may_give N.steps) }
{}

/// What a run of `serve` that ends with its report says.
pub fn serve_says<S, C: Clock, V: Verifier, N: Signer, G: Gate, L>()
    ensures { ServeSays S C V N G L (may V.may_accept V.may_refuse N.may_give N.steps)
        (telling_of C.last C.asks G.faults G.closed) }
{}

/// Two inputs of `compute` with the same votes have one text, unless two different votes of one authority share a rank.
pub fn texts_agree()
    ensures { TextsAgree }
{}

/// At each time of a list of changes that was checked an authority has what the headline says.
pub fn checked_are_right()
    ensures { CheckedAreRight }
{}

/// Of two documents of a flavour that are rightly signed for one roster some member signed both digests.
pub fn someone_signed_both()
    ensures { SomeoneSignedBoth }
{}

/// A vote is accepted only where it is for the period, of a member, and not late; and where the period has room each
/// such vote is.
pub fn deliveries_are_accepted()
    ensures { DeliveriesAreAccepted }
{}

/// Whatever list of deliveries that were checked came, an authority has what the headline says.
pub fn deliveries_are_right()
    ensures { DeliveriesAreRight }
{}

/// Two lists of deliveries with the same votes, none late or past the limit, leave the same ranks, and equal documents
/// unless two different votes share a rank.
pub fn lists_agree()
    ensures { ListsAgree }
{}

/// An event whose answer is a refusal, or tells of no change, leaves the state as it was.
pub fn refusals_change_nothing()
    ensures { RefusalsChangeNothing }
{}
