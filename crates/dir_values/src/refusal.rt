// Why a text is not read as a value.
ghost use Rattle.std.specs.Prelude.{◌≡◌};

use dir_bytes::Memory;

/// Why a text is not read as a value.
#[derive(Clone, Copy, Debug, PartialEq, Eq)]
pub enum ValueRefusal {
    /// The element at this offset of the text is not of its form.
    BadValue { place: u64 },
    /// There was no memory.
    Memory,
}

impl From<Memory> for ValueRefusal {
    ghost use Rattle.dir_values.specs.declared.refusal.ValueRefusal.TheVariants.{Memory as NoMemory};

    ghost from_gives = { λ _ e. e ≡ NoMemory };

    fn from(_: Memory) -> Self {
        ValueRefusal::Memory
    }
}
