//! Command lines of a program with two options of its own, and what is told of each.
use command_line::ended::{WANT_OF_MEMORY, end_unrun};
use command_line::options::{Asked, read_words};
use command_line::program::{Flag, Program};
use row_table::told::Told;
use row_table::words::Lines;
use run_options::RiskChoice;
use std::alloc::{AllocError, Global};

fn program<'a>() -> Program<'a> {
    Program {
        name: "mvt-play",
        about: "Plays a session on",
        usage: "mvt-play [OPTIONS] < SESSION",
        flags: &[
            Flag {
                name: "events",
                help: "Write the events",
            },
            Flag {
                name: "waits",
                help: "Write what waits",
            },
        ],
        end: "",
    }
}

/// The words of a command line, which are lines. One that is no text ends them.
fn words_of(alloc: Global, text: &[u8]) -> Result<Vec<&str>, AllocError> {
    let mut words = Vec::new(alloc);
    let mut lines = Lines::new(text);
    for _ in 0..text.len() {
        let Some(line) = lines.next_line() else {
            break;
        };
        let Ok(word) = str::from_utf8(line) else {
            break;
        };
        words.push(word)?;
    }
    Ok(words)
}

/// Tells the options that are asked for.
fn tell_asked(told: &mut Told, asked: &Asked<'_>) {
    told.word(match asked.options.risk {
        RiskChoice::Run => b"RISK RUN",
        RiskChoice::Refuse => b"RISK REFUSE",
    });
    told.numbered(b" VIEWS ", u64::from(asked.options.views));
    if asked.options.explains {
        told.word(b" EXPLAIN");
    }
    for given in &asked.given {
        told.two(b" ", given.as_bytes());
    }
    told.end_line();
}

/// Tells what the words ask for, or the status and the text of what is told where they are not taken.
pub(crate) fn tell_command_line(alloc: Global, text: &[u8], told: &mut Told) {
    let Some(words) = told.got(words_of(alloc, text)) else {
        return;
    };
    let program = program();
    match read_words(alloc, &program, words.as_slice()) {
        Ok(asked) => tell_asked(told, &asked),
        Err(error) => {
            let mut errors = Vec::new(alloc);
            let ended = end_unrun(alloc, &mut errors, program.usage, &error);
            if ended.status == WANT_OF_MEMORY || !ended.said {
                told.want();
            }
            told.numbered_line(b"STATUS ", u64::from(ended.status));
            told.word(errors.as_slice());
        }
    }
}
