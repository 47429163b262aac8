//! Compares the rows of the tables that the command line names. A word ahead of tables says what these are about.
#![tactic(auto)]

mod opened;
mod sessions;
mod topic;

use crate::topic::topic_of;
use row_table::check::check_file;
use std::process::ExitCode;
use std::{env, io};

/// Status 0 where each row holds, else 1.
fn main(rt: HostRuntime) -> io::Result<ExitCode> {
    let mut topic = None;
    let mut holds = true;
    for word in env::args(&rt)?.skip(1) {
        match (topic_of(word.as_str()), topic) {
            (Some(named), _) => topic = Some(named),
            (None, Some(topic)) => holds &= check_file(&rt, &topic, word.as_str())?,
            (None, None) => {
                eprintln!(rt; "{word}: what this table is about has to come before it")?;
                holds = false;
            }
        }
    }
    Ok(if holds {
        ExitCode::SUCCESS
    } else {
        ExitCode::from(1)
    })
}
