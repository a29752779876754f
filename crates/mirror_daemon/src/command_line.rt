// The command line, as clap reads it.
ghost use Rattle.std.specs.Prelude.{◌≡◌, IfOk};
ghost use Rattle.clap.specs.Words.{app_of};
ghost use Rattle.mirror_daemon.specs.CommandLine as mirror;
ghost use Rattle.mirror_daemon.specs.Lending.{Matches};

use clap::error::ErrorKind;
use clap::{ArgMatches, Command};
use daemon_words::needed_option;
use dir_bytes::Memory;
use std::alloc::{AllocError, Global};

/// What clap reads in the words, if they are of the command line.
pub(crate) fn matches_of<'a>(
    alloc: Global,
    words: &'a [String],
) -> Result<Option<ArgMatches<'a>>, Memory>
    ensures { IfOk result (Matches words.entry.now) }
{
    let command_line = command_line(alloc)?;
    let error = match command_line.try_get_matches_from(words) {
        Ok(matches) => return Ok(Some(matches)),
        Err(error) => error,
    };
    match error.kind() {
        ErrorKind::OutOfMemory => Err(Memory),
        _ => Ok(None),
    }
}

/// The command line: three options, and no words for help or a version.
fn command_line<'a>(alloc: Global) -> Result<Command<'a>, AllocError>
    ensures { IfOk result (λ command. app_of command ≡ mirror.command_line) }
{
    Command::new(alloc, "dirmirror")
        .no_binary_name(true)
        .disable_help_flag(true)
        .arg(needed_option(alloc, "authorities"))?
        .arg(needed_option(alloc, "peers"))?
        .arg(needed_option(alloc, "listen"))
}
