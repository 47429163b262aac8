//! What the words of a command line ask for.
ghost use Rattle.std.specs.Prelude.{◌≡◌, IfOk, codes, map};
ghost use Rattle.clap.specs.Words.{first_value, found_of};
ghost use Rattle.command_line.specs.CommandLines.{IsRead, given_in, has_text, is_used, names_of, risk_in, texts, views_in};

use crate::command::command;
use crate::program::{Flag, Program};
use clap::error::ErrorKind;
use clap::{ArgMatches, Error};
use jname_core::decimal::number_within;
use run_options::{Options, RiskChoice};
use std::alloc::{AllocError, Global};
use std::convert::AsStr;

/// The most views that may be asked for, and how many are where none are asked for.
const MOST_VIEWS: u16 = 1024;

/// What is asked for: how a session is run, and which of the program's own options are given, in the program's order.
#[derive(Drop)]
pub struct Asked<'a> {
    pub options: Options,
    pub given: Vec<&'a str>,
}

impl Asked<'_> {
    /// Whether the program's own option of this name is given.
    pub fn has(&self, name: &str) -> bool
        ensures { result ≡ has_text name.now (texts self.now.given.items) }
    {
        self.given.contains(&name)
    }
}

fn risk_of(matches: &ArgMatches) -> RiskChoice
    ensures { result ≡ risk_in (first_value (found_of matches.now) (codes "risk")) }
{
    match matches.get_str("risk") {
        Some(text) if text == "refuse" => RiskChoice::Refuse,
        _ => RiskChoice::Run,
    }
}

/// How many views are asked for, or `None` where the word is no number of them.
fn views_of(matches: &ArgMatches) -> Option<u16>
    ensures { result ≡ views_in (first_value (found_of matches.now) (codes "views")) }
{
    match matches.get_str("views") {
        None => Some(MOST_VIEWS),
        Some(text) => number_within(1, MOST_VIEWS, text.as_bytes()),
    }
}

/// Whether a flag is given. It has the value `true` then.
fn is_used(matches: &ArgMatches, flag: &str) -> bool
    ensures { result ≡ is_used (first_value (found_of matches.now) flag.now) }
{
    match matches.get_str(flag) {
        None => false,
        Some(text) => text == "true",
    }
}

/// The names of those among these flags that are given.
fn given_of<'a>(
    alloc: Global,
    matches: &ArgMatches,
    flags: &[Flag<'a>],
) -> Result<Vec<&'a str>, AllocError>
    ensures { IfOk result (λ given. texts given.items ≡ given_in (first_value (found_of matches.now)) (names_of flags.now)) }
{
    let mut given = Vec::new(alloc);
    for flag in flags {
        if is_used(matches, flag.name) {
            given.push(flag.name)?;
        }
    }
    Ok(given)
}

/// What the words of a program's command line ask for, the program's own name first. An `Err` has a text that says what is wrong, or
/// what the options are, or the version.
pub fn read_words<'a, S: AsStr>(
    alloc: Global,
    program: &Program<'a>,
    words: &'a [S],
) -> Result<Asked<'a>, Error>
    ensures { IsRead program.now.name.now (names_of program.now.flags.now) (map S.text words.entry.now) result }
{
    let mut command = command(alloc, program)?;
    let matches = command.try_get_matches_from_mut(words)?;
    match views_of(&matches) {
        Some(views) => Ok(Asked {
            options: Options {
                risk: risk_of(&matches),
                views,
                explains: is_used(&matches, "explain"),
            },
            given: given_of(alloc, &matches, program.flags)?,
        }),
        None => {
            let message =
                "invalid value for '--views <N>': it is a number from 1 to 1024, in digits alone";
            Err(command.error(ErrorKind::ValueValidation, message)?)
        }
    }
}
