// What is remembered across the items of a station input.
ghost use Rattle.std.specs.Prelude.{◌≡◌};
ghost use Rattle.frame_terms.specs.Refusals.{Becomes};
ghost use Rattle.station_input.specs.Across as memory;

use crate::frame_said::StationValue;
use crate::identity_set::IdentitySet;
use frame_terms::ReadRefusal;
use frame_values::Value;
use std::alloc::Global;

/// What is remembered across the items of a station input: which relays have been ruled on, and which measured.
#[derive(Drop)]
pub struct Across {
    /// The identities of its rules.
    pub ruled: IdentitySet,
    /// The identities that it measured.
    pub measured: IdentitySet,
}

/// Nothing yet.
pub(crate) fn nothing_across(alloc: Global) -> Across
    ensures { result ≡ memory.nothing_across }
{
    Across {
        ruled: IdentitySet::new(alloc),
        measured: IdentitySet::new(alloc),
    }
}

/// Remembers what an item says.
///
/// # Errors
/// `Memory` is want of memory.
pub(crate) fn note_value(across: &mut Across, said: Value<StationValue>) -> Result<(), ReadRefusal>
    ensures { Becomes (memory.note_value across.old said) across.new result }
{
    match said {
        Value::Own(StationValue::Rule(rule)) => across.ruled.insert(&rule.identity)?,
        Value::Own(StationValue::Measured(relay)) => across.measured.insert(&relay.identity)?,
        _ => {}
    }
    Ok(())
}
