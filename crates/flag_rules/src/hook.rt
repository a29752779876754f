// What is asked for a ruling.
ghost use Rattle.std.specs.Prelude.{◌≡◌, IsTrue};
ghost use Rattle.flag_rules.specs.Rules.{KeepsTo};

use crate::relay::RelayFacts;
use crate::ruling::Ruling;

/// Rules: which rulings they allow of a relay.
pub trait Rules {
    ghost use Rattle.std.specs.Prelude.{Bool};
    ghost use Rattle.flag_rules.specs.declared.{relay.RelayFacts.RelayFacts, ruling.Ruling.Ruling};

    ghost allows: { Self → RelayFacts → Ruling → Bool };
}

impl<'a, R: Rules> Rules for &'a R {
    ghost allows = { λ rules. R.allows rules.now };
}

/// A function that rules, beside the rules that it keeps to. A type cannot keep a fact of a function that it holds, so
/// each call that asks a hook states what it owes: it may be asked of every relay, and the rules allow each answer.
#[derive(Drop)]
pub struct Hook<R, F> {
    pub rules: R,
    pub ask: F,
}

impl<R: Rules, F: Fn(RelayFacts) -> Ruling> Hook<R, F> {
    ghost use Rattle.flag_rules.specs.Rules.{KeepsTo};

    /// The hook that asks the function.
    pub fn new(rules: R, ask: F) -> Hook<R, F>
        requires { KeepsTo R.allows F.pre F.post rules ask }
        ensures rules { result.rules ≡ rules }
        ensures ask { result.ask ≡ ask }
        ensures kept { KeepsTo R.allows F.pre F.post result.rules result.ask }
    {
        Hook { rules, ask }
    }

    /// A ruling that the rules allow, from one call of the function.
    pub fn rule(&self, facts: &RelayFacts) -> Ruling
        requires { KeepsTo R.allows F.pre F.post self.now.rules self.now.ask }
        ensures allowed { IsTrue (R.allows self.now.rules facts.now result) }
        ensures answer { F.post self.now.ask facts.now result }
    {
        (self.ask)(*facts)
    }
}
