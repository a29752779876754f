// Numbers of given ranges.
ghost use Rattle.std.specs.Prelude.{◌≡◌};
ghost use Rattle.dir_values.specs.Numbers as numbers;

use dir_bytes::{read_u16, read_u32};

/// The number of at most 32 bits that a text spells, with leading zeros read.
pub fn number_of(text: &[u8]) -> Option<u32>
    ensures { result ≡ numbers.number_of text.now }
{
    read_u32(text).ok()
}

/// The port that a text spells, with leading zeros read.
pub fn port_of(text: &[u8]) -> Option<u16>
    ensures { result ≡ numbers.port_of text.now }
{
    read_u16(text).ok()
}
