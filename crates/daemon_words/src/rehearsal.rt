// The words of a rehearsal.
ghost use Rattle.std.specs.Prelude.{◌≡◌};
ghost use Rattle.clap.specs.Words.{found_of, rows_of};
ghost use Rattle.daemon_words.specs.Rehearsals as words;

use crate::values::value_of;
use clap::ArgMatches;
use dir_bytes::{read_u32, read_u64};

/// What is rehearsed.
#[derive(Clone, Copy, Debug, PartialEq, Eq)]
pub struct Rehearse {
    /// The number from which all is drawn.
    pub seed: u64,
    /// How many relays there are, at most 20,000.
    pub relays: u32,
    /// How many authorities there are, 1 to 32.
    pub authorities: u32,
}

/// The rehearsal that stands among the values.
pub fn rehearse_in(values: &ArgMatches<'_>) -> Option<Rehearse>
    ensures { result ≡ words.rehearse_in (rows_of (found_of values.now)) }
{
    let (Some(seed), Some(relays), Some(authorities)) = (
        value_of(values, "seed"),
        value_of(values, "relays"),
        value_of(values, "authorities"),
    ) else {
        return None;
    };
    rehearse_of(seed.as_bytes(), relays.as_bytes(), authorities.as_bytes())
}

/// The rehearsal that three words spell.
fn rehearse_of(seed: &[u8], relays: &[u8], authorities: &[u8]) -> Option<Rehearse>
    ensures { result ≡ words.rehearse_of seed.now relays.now authorities.now }
{
    let (Ok(seed), Ok(relays), Ok(authorities)) = (
        read_u64(seed),
        read_u32(relays),
        read_u32(authorities),
    ) else {
        return None;
    };
    rehearsing(seed, relays, authorities)
}

/// The rehearsal of three numbers, where they are within their bounds.
fn rehearsing(seed: u64, relays: u32, authorities: u32) -> Option<Rehearse>
    ensures { result ≡ words.rehearsal_of seed relays authorities }
{
    if relays > 20_000 || authorities < 1 || authorities > 32 {
        return None;
    }
    Some(Rehearse {
        seed,
        relays,
        authorities,
    })
}
