// What the words of a mirror tell.
ghost use Rattle.std.specs.Prelude.{◌≡◌, IfOk};
ghost use Rattle.clap.specs.Words.{found_of, rows_of};
ghost use Rattle.mirror_daemon.specs.Words as grammar;

use crate::command_line::matches_of;
use crate::peers::read_peers;
use clap::ArgMatches;
use daemon_words::{is_address, read_roster};
use dir_bytes::{Memory, Seq, Text};
use dir_values::Roster;
use std::alloc::Global;

/// What a mirror is run with.
#[derive(Debug, Drop)]
pub struct MirrorWords {
    /// The authorities whose signatures count.
    pub roster: Roster,
    /// The addresses of those whom it asks, in the order of the words: 1 to 32.
    pub peers: Seq<Text>,
    /// Where its gate listens: not empty, and its first byte is no `-`.
    pub listen: Text,
}

/// What the words tell, without the program's name in front, or nothing where they are not of the grammar.
///
/// # Errors
/// `Memory` is want of memory.
pub fn mirror_words_of(alloc: Global, words: &[String]) -> Result<Option<MirrorWords>, Memory>
    ensures { IfOk result (λ told. told ≡ grammar.mirror_words words.now) }
{
    let Some(matches) = matches_of(alloc, words)? else {
        return Ok(None);
    };
    words_in(alloc, &matches)
}

/// What stands among the values.
fn words_in(alloc: Global, values: &ArgMatches<'_>) -> Result<Option<MirrorWords>, Memory>
    ensures { IfOk result (λ told. told ≡ grammar.words_in (rows_of (found_of values.now))) }
{
    let Some(authorities) = values.get_str("authorities") else {
        return Ok(None);
    };
    let Some(peers) = values.get_str("peers") else {
        return Ok(None);
    };
    let Some(listen) = values.get_str("listen") else {
        return Ok(None);
    };
    words_of(
        alloc,
        authorities.as_bytes(),
        peers.as_bytes(),
        listen.as_bytes(),
    )
}

/// What the texts of the three options tell.
fn words_of(
    alloc: Global,
    authorities: &[u8],
    peers: &[u8],
    listen: &[u8],
) -> Result<Option<MirrorWords>, Memory>
    ensures { IfOk result (λ told. told ≡ grammar.words_of authorities.now peers.now listen.now) }
{
    let (Some(roster), Some(peers), Some(listen)) = (
        read_roster(alloc, authorities)?,
        read_peers(alloc, peers)?,
        read_address(alloc, listen)?,
    ) else {
        return Ok(None);
    };
    Ok(Some(MirrorWords {
        roster,
        peers: Seq::new(peers),
        listen,
    }))
}

/// The address that a text is, if it is one.
fn read_address(alloc: Global, text: &[u8]) -> Result<Option<Text>, Memory>
    ensures { IfOk result (λ address. address ≡ grammar.address text.now) }
{
    if is_address(text) {
        Ok(Some(Text::copy_of(alloc, text)?))
    } else {
        Ok(None)
    }
}
