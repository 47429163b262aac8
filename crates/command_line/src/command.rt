//! The command line that a program has: the options of every program, then its own.
ghost use Rattle.std.specs.Prelude.{◌≡◌, IfOk, codes, false};
ghost use Rattle.clap.specs.Words.{app_of, rule_of};
ghost use Rattle.command_line.specs.CommandLines.{IsProgram, explain_option, flag_option, names_of, views_option, with_flags};

use crate::program::{Flag, Program, VERSION};
use clap::builder::ValueParser;
use clap::{Arg, ArgAction, Command};
use std::alloc::{AllocError, Global};

static RISKS: [&str; 2] = ["run", "refuse"];

fn flag_option<'a>(alloc: Global, flag: &Flag<'a>) -> Arg<'a>
    ensures rule { rule_of result ≡ flag_option flag.now.name.now }
    ensures own { result.global ≡ false }
{
    Arg::new(alloc, flag.name)
        .long(flag.name)
        .action(ArgAction::SetTrue)
        .help(flag.help)
}

fn with_flags<'a>(
    alloc: Global,
    command: Command<'a>,
    flags: &[Flag<'a>],
) -> Result<Command<'a>, AllocError>
    ensures { IfOk result (λ c. app_of c ≡ with_flags (app_of command.entry) (names_of flags.now)) }
{
    let mut command = command;
    for flag in flags {
        command = command.arg(flag_option(alloc, flag))?;
    }
    Ok(command)
}

/// A command whose help ends with a text, if there is one.
fn with_end<'a>(command: Command<'a>, end: &'a str) -> Command<'a>
    ensures { app_of result ≡ app_of command.entry }
{
    if end.is_empty() {
        return command;
    }
    command.after_help(end)
}

/// The command line of a program.
pub(crate) fn command<'a>(alloc: Global, program: &Program<'a>) -> Result<Command<'a>, AllocError>
    ensures { IfOk result (λ c. IsProgram program.now.name.now (names_of program.now.flags.now) (app_of c)) }
{
    let risk = Arg::new(alloc, "risk")
        .long("risk")
        .value_name("CHOICE")
        .value_parser(RISKS.as_slice())
        .default_value("run")
        .help("Run a job that may fail by its JCL, or refuse it");
    let views = Arg::new(alloc, "views")
        .long("views")
        .value_name("N")
        .value_parser(ValueParser::signed(1, 1024))
        .default_value("1024")
        .help("Answer TOOMANY for a job that has more than N views after a step, 1 to 1024");
    let explain = Arg::new(alloc, "explain")
        .long("explain")
        .action(ArgAction::SetTrue)
        .help("Show for each RISK the lines that the job would write up to its fault");
    let command = Command::new(alloc, program.name)
        .version(VERSION)
        .about(program.about)
        .override_usage(program.usage);
    let command = with_end(command, program.end)
        .arg(risk)?
        .arg(views)?
        .arg(explain)?;
    with_flags(alloc, command, program.flags)
}
