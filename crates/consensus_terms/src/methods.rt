// What a method says of the texts.
ghost use Rattle.std.specs.Prelude.{◌≡◌};
ghost use Rattle.consensus_terms.specs.Methods as methods;

/// Whether a method is 34 or a later one: its texts follow C tor.
#[tactic(auto, unfolding(crate::specs::Methods::is_34_or_later))]
pub fn is_34_or_later(method: u32) -> bool
    ensures { result ≡ methods.is_34_or_later method }
{
    34 <= method
}
