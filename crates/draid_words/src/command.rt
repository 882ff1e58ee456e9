ghost use Rattle.std.specs.Prelude.{◌≡◌, false, IfOk};
ghost use Rattle.clap.specs.Words.{app_of, rule_of};
ghost use Rattle.draid_words.specs.CommandLine as line;

use clap::{Arg, Command};
use std::alloc::{AllocError, Global};

/// The command line: MODE, a number that may be left out, and `--dir`.
pub fn command<'a>(alloc: Global) -> Result<Command<'a>, AllocError>
    ensures { IfOk result (λ command. app_of command ≡ line.command_line) }
{
    bare(alloc)
        .arg(mode(alloc))?
        .arg(number(alloc))?
        .arg(dir(alloc))
}

/// No argument yet, and neither help nor a version.
fn bare<'a>(alloc: Global) -> Command<'a>
    ensures { app_of result ≡ line.bare }
{
    Command::new(alloc, "dzpool")
        .no_binary_name(true)
        .disable_help_flag(true)
        .disable_version_flag(true)
}

/// MODE, which has to be there.
fn mode<'a>(alloc: Global) -> Arg<'a>
    ensures rule { rule_of result ≡ line.mode }
    ensures own { result.global ≡ false }
{
    Arg::new(alloc, "mode").required(true)
}

/// A number that may be left out.
fn number<'a>(alloc: Global) -> Arg<'a>
    ensures rule { rule_of result ≡ line.number }
    ensures own { result.global ≡ false }
{
    Arg::new(alloc, "number")
}

/// `--dir`.
fn dir<'a>(alloc: Global) -> Arg<'a>
    ensures rule { rule_of result ≡ line.dir }
    ensures own { result.global ≡ false }
{
    Arg::new(alloc, "dir").long("dir")
}
