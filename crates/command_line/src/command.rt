//! The command line as `clap` reads it.
ghost use Rattle.std.specs.Prelude.{◌≡◌, IfOk};
ghost use Rattle.clap.specs.Simple.{app_of};
ghost use Rattle.command_line.specs.inside.Command.{words_app};

use clap::{Arg, Command};
use std::alloc::{AllocError, Global};

/// One simple command: three optional options and two optional positionals, all of them text, and no help or version.
pub(crate) fn words_command<'a>(alloc: Global) -> Result<Command<'a>, AllocError>
    ensures { IfOk result (λ command. app_of command ≡ words_app) }
{
    let workers = Arg::new(alloc, "workers").long("workers");
    let watch = Arg::new(alloc, "watch").long("watch");
    let make = Arg::new(alloc, "make").long("make");
    let text = Arg::new(alloc, "text");
    let script = Arg::new(alloc, "script");
    Command::new(alloc, "displaymap")
        .no_binary_name(true)
        .disable_help_flag(true)
        .disable_version_flag(true)
        .arg(workers)?
        .arg(watch)?
        .arg(make)?
        .arg(text)?
        .arg(script)
}
