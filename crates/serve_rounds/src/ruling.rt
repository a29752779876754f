// Rules that rule by themselves.
ghost use Rattle.std.specs.Prelude.{IsTrue};

use flag_rules::{OperatorList, RelayFacts, Rules, Ruling};

/// Rules that rule of each relay by themselves. They are asked within a turn of a lock, where no function can be called of which a
/// caller would have to show that it may be.
pub trait Rulers: Rules {
    /// A ruling that the rules allow.
    fn ruling_of(&self, facts: &RelayFacts) -> Ruling
        ensures { IsTrue (Self.allows self.now facts.now result) };
}

impl Rulers for OperatorList {
    fn ruling_of(&self, facts: &RelayFacts) -> Ruling {
        self.ruling(facts)
    }
}

impl<'a, R: Rulers> Rulers for &'a R {
    fn ruling_of(&self, facts: &RelayFacts) -> Ruling {
        (**self).ruling_of(facts)
    }
}
