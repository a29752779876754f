// The values of the options.
ghost use Rattle.std.specs.{Prelude.{◌≡◌, ◌≤◌, IfOk, length}, Option.option_map};
ghost use Rattle.clap.specs.Words.{first_of, found_of, rows_of};
ghost use Rattle.daemon_words.specs.Values as values;
ghost use Rattle.daemon_words.specs.Lending as lending;

use clap::ArgMatches;
use dir_bytes::{Memory, read_time};
use dir_values::{Fingerprint, Roster};
use std::alloc::Global;

/// The value of this name, if it stands among the values.
pub fn value_of<'a>(values: &ArgMatches<'a>, name: &str) -> Option<&'a str>
    ensures { option_map (λ value. value.now) result ≡ first_of name.now (rows_of (found_of values.now)) }
{
    values.get_str(name)
}

/// The roster of 1 to 32 fingerprints with one comma between them, each once.
pub fn read_roster(alloc: Global, text: &[u8]) -> Result<Option<Roster>, Memory>
    ensures { IfOk result (λ roster. roster ≡ values.roster text.now) }
{
    let Some(members) = read_members(alloc, text)? else {
        return Ok(None);
    };
    Ok(Roster::new(members).ok())
}

// The members that fingerprints with one comma between them name.
fn read_members(alloc: Global, text: &[u8]) -> Result<Option<Vec<Fingerprint>>, Memory>
    ensures { IfOk result (λ members. option_map (λ v. v.items) members ≡ values.members text.now) }
{
    let mut members = Vec::new(alloc);
    let mut rest = text;
    'members: loop {
        let (word, after) = rest.split_at(word_len(rest));
        let Ok(member) = Fingerprint::read(word) else {
            return Ok(None);
        };
        members.push(member)?;
        let Some((_, others)) = after.split_first() else {
            return Ok(Some(members));
        };
        rest = others;
    }
}

// How many bytes stand in front of the first comma.
fn word_len(text: &[u8]) -> usize
    ensures count { result ≡ lending.word_len text.now }
    ensures within { result ≤ length text.now }
{
    text.iter().take_while(|byte| **byte != b',').count()
}

/// The moment that a date `YYYY-MM-DD` and a time `HH:MM:SS` name, with one space between them.
pub fn read_moment(text: &[u8]) -> Option<u64>
    ensures { result ≡ values.moment text.now }
{
    if text.len() != 19 || text[10] != b' ' {
        return None;
    }
    read_time(&text[..10], &text[11..]).ok()
}
