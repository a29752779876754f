// The commands of the program.
ghost use Rattle.std.specs.Prelude.{◌≡◌, IfOk, IfSome, Some};
ghost use Rattle.clap.specs.Words.{found_of, rows_of};
ghost use Rattle.daemon_words.specs.Words as grammar;

use crate::command_line::matches_of;
use crate::making::MakeVote;
use crate::newest::newest_in;
use crate::rehearsal::{Rehearse, rehearse_in};
use crate::report::{Report, report_in};
use crate::serving::{Serve, serve_in};
use crate::values::{read_moment, read_roster, value_of};
use clap::ArgMatches;
use count_terms::Newest;
use dir_bytes::Memory;
use dir_values::Roster;
use std::alloc::Global;

/// What a consensus is computed for.
#[derive(Debug, Drop)]
pub struct Compute {
    /// The authorities of which a consensus speaks.
    pub roster: Roster,
    /// When it becomes valid, in seconds since 1970-01-01 00:00:00 UTC.
    pub valid_after: u64,
    /// Which texts of it are written.
    pub flavours: Flavours,
    /// The newest consensus method that is known.
    pub newest: Newest,
}

/// The flavours of a consensus that are written.
#[derive(Clone, Copy, Debug, PartialEq, Eq)]
pub enum Flavours {
    /// The ns flavour alone.
    Ns,
    /// The microdesc flavour alone.
    Microdesc,
    /// The ns flavour, and behind it the microdesc flavour.
    Both,
}

/// A kind of document that is checked or shown.
#[derive(Clone, Copy, Debug, PartialEq, Eq)]
pub enum Kind {
    /// A vote.
    Vote,
    /// A key certificate.
    Cert,
    /// A consensus, of either flavour.
    Consensus,
    /// A server descriptor.
    Descriptor,
    /// A microdescriptor.
    Micro,
    /// Detached signatures.
    Detached,
}

/// What is checked or shown.
#[derive(Clone, Copy, Debug, PartialEq, Eq)]
pub enum Subject {
    /// A document of a kind.
    Document(Kind),
    /// A bandwidth file.
    BandwidthFile,
}

/// Where the measured bandwidths of relays come from.
#[derive(Clone, Copy, Debug, PartialEq, Eq)]
pub enum Measures {
    /// What the station is given.
    Station,
    /// A bandwidth file in front of what the station is given.
    File,
}

/// A command with its options.
#[derive(Debug, Drop)]
pub enum Command {
    /// Reads votes, and writes the unsigned texts of their consensus.
    Compute(Compute),
    /// Reads what is named, and says whether the input is one.
    Check(Subject),
    /// Reads what is named, and writes its canonical text.
    Show(Subject),
    /// Reads what a station is given, and writes its signed vote.
    MakeVote(MakeVote),
    /// Makes votes from a number, and writes what is computed of them. It reads no input.
    Rehearse(Rehearse),
    /// Reads votes and a consensus, and writes which authority misses what.
    Report(Report),
    /// Reads what a station is given, and serves as its authority.
    Serve(Serve),
}

/// The command that the words give, without the program's name in front, or nothing where they are not of the grammar.
pub fn command_of(alloc: Global, words: &[String]) -> Result<Option<Command>, Memory>
    ensures command { IfOk result (λ command. command ≡ grammar.command_of words.now) }
    // The numbers of a rehearsal are within their bounds.
    ensures bounds { IfOk result (λ command. IfSome command grammar.KeepsBounds) }
{
    let Some(matches) = matches_of(alloc, words)? else {
        return Ok(None);
    };
    match matches.subcommand() {
        Some((name, options)) => command_named(alloc, name, options),
        None => Ok(None),
    }
}

/// The command of a name and its options.
fn command_named(
    alloc: Global,
    name: &str,
    options: &ArgMatches<'_>,
) -> Result<Option<Command>, Memory>
    ensures { IfOk result (λ command. command ≡ grammar.command_named name.now (rows_of (found_of options.now))) }
{
    match name {
        "compute" => compute_with(alloc, options),
        "check" => Ok(subject_in(options).map(Command::Check)),
        "show" => Ok(subject_in(options).map(Command::Show)),
        "make-vote" => Ok(make_vote_in(options)),
        "rehearse" => Ok(rehearse_in(options).map(Command::Rehearse)),
        "report" => Ok(report_in(alloc, options)?.map(Command::Report)),
        "serve" => serve_with(alloc, options),
        _ => Ok(None),
    }
}

/// `make-vote` with its options.
fn make_vote_in(options: &ArgMatches<'_>) -> Option<Command>
    ensures { result ≡ grammar.make_vote_in (rows_of (found_of options.now)) }
{
    match newest_in(options) {
        Some(newest) => Some(Command::MakeVote(MakeVote {
            bandwidths: measures_in(options),
            newest,
        })),
        None => None,
    }
}

/// `serve` with its options.
fn serve_with(alloc: Global, options: &ArgMatches<'_>) -> Result<Option<Command>, Memory>
    ensures { IfOk result (λ command. command ≡ grammar.serve_with (rows_of (found_of options.now))) }
{
    let Some(newest) = newest_in(options) else {
        return Ok(None);
    };
    Ok(serve_in(alloc, options, measures_in(options), newest)?.map(Command::Serve))
}

/// What stands among the values to be checked or shown.
fn subject_in(values: &ArgMatches<'_>) -> Option<Subject>
    ensures { result ≡ grammar.subject_in (rows_of (found_of values.now)) }
{
    match value_of(values, "kind") {
        Some(word) => subject_named(word),
        None => None,
    }
}

/// What a word names that is checked or shown.
fn subject_named(word: &str) -> Option<Subject>
    ensures { result ≡ grammar.subject_named word.now }
{
    match word {
        "bandwidth" => Some(Subject::BandwidthFile),
        _ => kind_named(word).map(Subject::Document),
    }
}

/// Where measured bandwidths come from, among the values: from a file where that stands there.
fn measures_in(values: &ArgMatches<'_>) -> Measures
    ensures { result ≡ grammar.measures_in (rows_of (found_of values.now)) }
{
    match value_of(values, "bandwidth") {
        Some(word) => measures_named(word),
        None => Measures::Station,
    }
}

/// Where they come from, by whether the flag stands among the words, as clap tells it.
fn measures_named(word: &str) -> Measures
    ensures { result ≡ grammar.measures_named word.now }
{
    if word == "true" {
        Measures::File
    } else {
        Measures::Station
    }
}

/// The kind of document that a word names.
fn kind_named(word: &str) -> Option<Kind>
    ensures { result ≡ grammar.kind_named word.now }
{
    match word {
        "vote" => Some(Kind::Vote),
        "cert" => Some(Kind::Cert),
        "consensus" => Some(Kind::Consensus),
        "descriptor" => Some(Kind::Descriptor),
        "micro" => Some(Kind::Micro),
        "detached" => Some(Kind::Detached),
        _ => None,
    }
}

/// The flavours that stand among the values: the ns flavour where none are named.
fn flavours_in(values: &ArgMatches<'_>) -> Option<Flavours>
    ensures { result ≡ grammar.flavours_in (rows_of (found_of values.now)) }
{
    match value_of(values, "flavour") {
        Some(word) => flavours_named(word),
        None => Some(Flavours::Ns),
    }
}

/// The flavours that a word names.
fn flavours_named(word: &str) -> Option<Flavours>
    ensures { result ≡ grammar.flavours_named word.now }
{
    match word {
        "ns" => Some(Flavours::Ns),
        "microdesc" => Some(Flavours::Microdesc),
        "both" => Some(Flavours::Both),
        _ => None,
    }
}

/// `compute` with its options.
fn compute_with(alloc: Global, options: &ArgMatches<'_>) -> Result<Option<Command>, Memory>
    ensures { IfOk result (λ command. command ≡ grammar.compute_in (rows_of (found_of options.now))) }
{
    let (Some(authorities), Some(valid_after), Some(flavours), Some(newest)) = (
        value_of(options, "authorities"),
        value_of(options, "valid-after"),
        flavours_in(options),
        newest_in(options),
    ) else {
        return Ok(None);
    };
    compute_of(
        alloc,
        authorities.as_bytes(),
        valid_after.as_bytes(),
        flavours,
        newest,
    )
}

/// `compute` with the texts of two options, these flavours and this newest method.
fn compute_of(
    alloc: Global,
    authorities: &[u8],
    valid_after: &[u8],
    flavours: Flavours,
    newest: Newest,
) -> Result<Option<Command>, Memory>
    ensures { IfOk result (λ command. command ≡ grammar.compute_of authorities.now valid_after.now flavours newest) }
{
    let (Some(roster), Some(valid_after)) = (
        read_roster(alloc, authorities)?,
        read_moment(valid_after),
    ) else {
        return Ok(None);
    };
    Ok(Some(Command::Compute(Compute {
        roster,
        valid_after,
        flavours,
        newest,
    })))
}
