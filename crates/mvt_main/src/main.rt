//! The program `mvt`: it reads a session on standard input and writes its listing on standard output.
#![tactic(auto)]

mod program;
mod report;
#[cfg(test)]
mod tests;

use crate::program::{USAGE, run_program};
use command_line::ended::end_unread;
use session_core::stream::{Sink, Source};
use std::io::{self, IsTerminal};
use std::process::ExitCode;

/// The words of the command line, the program's own name first.
fn words_of(rt: &HostRuntime) -> io::Result<Vec<String>> {
    let words = std::env::args(rt)?.collect(rt.alloc())?;
    Ok(words)
}

fn main(rt: HostRuntime) -> ExitCode {
    let mut input = rt.stdin();
    let at_terminal = input.is_terminal();
    let mut output = rt.stdout();
    let mut errors = rt.stderr();
    let mut source = Source::new(&mut input);
    let mut sink = Sink::new(&mut output);
    let ended = match words_of(&rt) {
        Ok(words) => run_program(
            rt.alloc(),
            words.as_slice(),
            at_terminal,
            &mut source,
            &mut sink,
            &mut errors,
        ),
        Err(error) => end_unread(&mut errors, USAGE, &error),
    };
    ExitCode::from(ended.status)
}
