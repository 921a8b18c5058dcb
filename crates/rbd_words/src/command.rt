//! The command line, as a command of `clap`.
ghost use Rattle.std.specs.Prelude.{◌≡◌, IfOk};
ghost use Rattle.clap.specs.Words.{app_of};
ghost use Rattle.rbd_words.specs.Command.{IsLocal, gen_command, lab_command, run_command};

use clap::{Arg, ArgAction, Command};
use std::alloc::{AllocError, Global};

/// `run`, with `--trace`.
fn run<'a>(alloc: Global) -> Result<Command<'a>, AllocError>
    ensures app { IfOk result (λ command. app_of command ≡ run_command) }
    ensures local { IfOk result IsLocal }
{
    let trace = Arg::new(alloc, "trace")
        .long("trace")
        .action(ArgAction::SetTrue);
    Command::new(alloc, "run").arg(trace)
}

/// `gen`, with its three options. That all are wanted is told where they are read.
fn generate<'a>(alloc: Global) -> Result<Command<'a>, AllocError>
    ensures app { IfOk result (λ command. app_of command ≡ gen_command) }
    ensures local { IfOk result IsLocal }
{
    let seed = Arg::new(alloc, "seed").long("seed");
    let clients = Arg::new(alloc, "clients").long("clients");
    let commands = Arg::new(alloc, "commands").long("commands");
    Command::new(alloc, "gen")
        .arg(seed)?
        .arg(clients)?
        .arg(commands)
}

/// Both, and no help.
pub fn lab<'a>(alloc: Global) -> Result<Command<'a>, AllocError>
    ensures { IfOk result (λ command. app_of command ≡ lab_command) }
{
    Command::new(alloc, "rbd_lab")
        .no_binary_name(true)
        .disable_help_flag(true)
        .disable_help_subcommand(true)
        .subcommand(run(alloc)?)?
        .subcommand(generate(alloc)?)
}
