// The options of serving.
ghost use Rattle.std.specs.Prelude.{◌≡◌, IfOk};
ghost use Rattle.clap.specs.Words.{found_of, rows_of};
ghost use Rattle.daemon_words.specs.Serving as words;

use crate::command::Measures;
use crate::values::value_of;
use clap::ArgMatches;
use count_terms::Newest;
use dir_bytes::{Memory, Text};
use std::alloc::Global;

/// Where and by what an authority serves.
#[derive(Debug, Drop)]
pub struct Serve {
    /// Where its gates listen: not empty, and its first byte is no `-`.
    pub address: Text,
    /// Where the measured bandwidths of relays come from.
    pub bandwidths: Measures,
    /// The newest consensus method that it knows.
    pub newest: Newest,
}

/// The serving that stands among the values, with these bandwidths and this newest method.
pub fn serve_in(
    alloc: Global,
    values: &ArgMatches<'_>,
    bandwidths: Measures,
    newest: Newest,
) -> Result<Option<Serve>, Memory>
    ensures { IfOk result (λ serve. serve ≡ words.serve_in (rows_of (found_of values.now)) bandwidths newest) }
{
    match value_of(values, "listen") {
        Some(address) => serve_of(alloc, address.as_bytes(), bandwidths, newest),
        None => Ok(None),
    }
}

/// The serving at the address that a text is, if it is one, with these bandwidths and this newest method.
fn serve_of(
    alloc: Global,
    address: &[u8],
    bandwidths: Measures,
    newest: Newest,
) -> Result<Option<Serve>, Memory>
    ensures { IfOk result (λ serve. serve ≡ words.serve_of address.now bandwidths newest) }
{
    if !is_address(address) {
        return Ok(None);
    }
    let address = Text::copy_of(alloc, address)?;
    Ok(Some(Serve {
        address,
        bandwidths,
        newest,
    }))
}

/// Whether a text is an address.
pub fn is_address(text: &[u8]) -> bool
    ensures { result ≡ words.is_address text.now }
{
    let Some((first, _)) = text.split_first() else {
        return false;
    };
    *first != b'-'
}
