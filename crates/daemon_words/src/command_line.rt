// The command line, as clap reads it.
ghost use Rattle.std.specs.Prelude.{◌≡◌, false, IfOk};
ghost use Rattle.clap.specs.Words.{new_app, rule_of};
ghost use Rattle.daemon_words.specs.CommandLine as command_line;
ghost use Rattle.daemon_words.specs.Lending.{AddsCommand, AddsRule, Matches, Reads};

use clap::error::ErrorKind;
use clap::{Arg, ArgAction, ArgMatches, Command};
use dir_bytes::Memory;
use std::alloc::{AllocError, Global};

/// What clap reads in the words, if they are of the command line.
pub fn matches_of<'a>(alloc: Global, words: &'a [String]) -> Result<Option<ArgMatches<'a>>, Memory>
    ensures { IfOk result (Matches words.entry.now) }
{
    let command_line = command_line(alloc)?;
    let error = match command_line.try_get_matches_from(words) {
        Ok(matches) => return Ok(Some(matches)),
        Err(error) => error,
    };
    match error.kind() {
        ErrorKind::OutOfMemory => Err(Memory),
        _ => Ok(None),
    }
}

/// The command line: its commands, and no words for help or a version.
fn command_line<'a>(alloc: Global) -> Result<Command<'a>, AllocError>
    ensures { IfOk result (λ command. Reads command command_line.command_line) }
{
    let command = with_command(program(alloc), compute(alloc)?)?;
    let command = with_command(command, of_kind(alloc, "check")?)?;
    let command = with_command(command, of_kind(alloc, "show")?)?;
    let command = with_command(command, make_vote(alloc)?)?;
    let command = with_command(command, rehearse(alloc)?)?;
    let command = with_command(command, report(alloc)?)?;
    with_command(command, serve(alloc)?)
}

/// The program before its commands.
fn program<'a>(alloc: Global) -> Command<'a>
    ensures { Reads result command_line.program }
{
    Command::new(alloc, "authority_daemon")
        .no_binary_name(true)
        .disable_help_flag(true)
        .disable_help_subcommand(true)
        .subcommand_required(true)
}

/// The command with one more below it.
fn with_command<'a>(command: Command<'a>, below: Command<'a>) -> Result<Command<'a>, AllocError>
    ensures { AddsCommand command.entry below.entry result }
{
    command.subcommand(below)
}

/// The command `compute` with its options.
fn compute<'a>(alloc: Global) -> Result<Command<'a>, AllocError>
    ensures { IfOk result (λ command. Reads command command_line.compute) }
{
    let command = with_needed(alloc, no_words(alloc, "compute"), "authorities")?;
    let command = with_needed(alloc, command, "valid-after")?;
    let command = with_free(alloc, command, "flavour")?;
    with_free(alloc, command, "newest-method")
}

/// The command `report` with its options.
fn report<'a>(alloc: Global) -> Result<Command<'a>, AllocError>
    ensures { IfOk result (λ command. Reads command command_line.report) }
{
    let command = with_needed(alloc, no_words(alloc, "report"), "authorities")?;
    with_needed(alloc, command, "valid-after")
}

/// A command of this name that takes one kind of document.
fn of_kind<'a>(alloc: Global, name: &'a str) -> Result<Command<'a>, AllocError>
    ensures { IfOk result (λ command. Reads command (command_line.of_kind name.entry.now)) }
{
    with_word(alloc, no_words(alloc, name), "kind")
}

/// The command `make-vote` with its options.
fn make_vote<'a>(alloc: Global) -> Result<Command<'a>, AllocError>
    ensures { IfOk result (λ command. Reads command command_line.make_vote) }
{
    let command = with_flag(alloc, no_words(alloc, "make-vote"), "bandwidth")?;
    with_free(alloc, command, "newest-method")
}

/// The command `serve` with its options.
fn serve<'a>(alloc: Global) -> Result<Command<'a>, AllocError>
    ensures { IfOk result (λ command. Reads command command_line.serve) }
{
    let command = with_needed(alloc, no_words(alloc, "serve"), "listen")?;
    let command = with_flag(alloc, command, "bandwidth")?;
    with_free(alloc, command, "newest-method")
}

/// The command `rehearse` with its three words.
fn rehearse<'a>(alloc: Global) -> Result<Command<'a>, AllocError>
    ensures { IfOk result (λ command. Reads command command_line.rehearse) }
{
    let command = with_word(alloc, no_words(alloc, "rehearse"), "seed")?;
    let command = with_word(alloc, command, "relays")?;
    with_word(alloc, command, "authorities")
}

/// A command of this name that takes no words.
#[tactic(auto, unfolding(crate::specs::Lending::Reads))]
fn no_words<'a>(alloc: Global, name: &'a str) -> Command<'a>
    ensures { Reads result (new_app name.entry.now) }
{
    Command::new(alloc, name)
}

/// The command with a word that must stand once, by itself.
fn with_word<'a>(alloc: Global, old: Command<'a>, name: &'a str) -> Result<Command<'a>, AllocError>
    ensures { AddsRule (command_line.needed_word name.entry.now) old.entry result }
{
    old.arg(Arg::new(alloc, name).required(true).action(ArgAction::Set))
}

/// The command with an option that may stand once, without a value.
fn with_flag<'a>(alloc: Global, old: Command<'a>, name: &'a str) -> Result<Command<'a>, AllocError>
    ensures { AddsRule (command_line.flag name.entry.now) old.entry result }
{
    old.arg(Arg::new(alloc, name).long(name).action(ArgAction::SetTrue))
}

/// The command with an option that may stand once, with a value.
fn with_free<'a>(alloc: Global, old: Command<'a>, name: &'a str) -> Result<Command<'a>, AllocError>
    ensures { AddsRule (command_line.free_option name.entry.now) old.entry result }
{
    old.arg(Arg::new(alloc, name).long(name).action(ArgAction::Set))
}

/// The command with an option that must stand once, with a value.
fn with_needed<'a>(
    alloc: Global,
    old: Command<'a>,
    name: &'a str,
) -> Result<Command<'a>, AllocError>
    ensures { AddsRule (command_line.needed_option name.entry.now) old.entry result }
{
    old.arg(needed_option(alloc, name))
}

/// An option that must stand once, with a value.
pub fn needed_option<'a>(alloc: Global, name: &'a str) -> Arg<'a>
    ensures rule { rule_of result ≡ command_line.needed_option name.entry.now }
    ensures local { result.global ≡ false }
{
    Arg::new(alloc, name)
        .long(name)
        .required(true)
        .action(ArgAction::Set)
}
