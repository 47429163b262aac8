//! The program `mvt-check`: it reads a session on standard input, and writes on standard output why its decks are refused, and where.
#![tactic(auto)]

mod above;
mod answers;
mod asides;
mod brief;
mod known;
mod program;
mod session;
mod trials;

use crate::program::{Wishes, mvt_check, run_program};
use command_line::ended::{end_asked, end_unread, prompt};
use command_line::options::read_words;
use session_core::stream::{Sink, Source};
use std::io::{self, IsTerminal};
use std::process::ExitCode;

/// The words of the command line, the program's own name first.
fn words_of(rt: &HostRuntime) -> io::Result<Vec<String>> {
    let words = std::env::args(rt)?.collect(rt.alloc())?;
    Ok(words)
}

fn main(rt: HostRuntime) -> ExitCode {
    let program = mvt_check();
    let mut input = rt.stdin();
    let at_terminal = input.is_terminal();
    let mut output = rt.stdout();
    let mut errors = rt.stderr();
    let mut source = Source::new(&mut input);
    let ended = match words_of(&rt) {
        Ok(words) => match read_words(rt.alloc(), &program, words.as_slice()) {
            Ok(asked) => {
                let mut sink = Sink::new(&mut output);
                prompt(&mut errors, program.name, at_terminal);
                run_program(
                    rt.alloc(),
                    asked.options,
                    Wishes {
                        brief: asked.has("brief"),
                        deck: asked.has("deck"),
                        again: asked.has("again"),
                    },
                    &mut source,
                    &mut sink,
                    &mut errors,
                )
            }
            Err(error) => end_asked(rt.alloc(), &mut output, &mut errors, program.usage, &error),
        },
        Err(error) => end_unread(&mut errors, program.usage, &error),
    };
    ExitCode::from(ended.status)
}
