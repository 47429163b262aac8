//! What is wrong with a command line, in one line.
use clap::Error;
use std::alloc::{AllocError, Global};

/// Whether a line tells how the program is called, or where that is told.
fn is_usage(line: &str) -> bool {
    line.starts_with("Usage:") || line.starts_with("For more information")
}

/// What stands between two lines that become one.
fn joint_before(line: &str) -> &'static str {
    if line.starts_with("[") { " " } else { "; " }
}

/// What an error says before the usage, in one line.
pub(crate) fn one_line(alloc: Global, error: &Error) -> Result<String, AllocError> {
    let text = format!(in alloc; "{error}")?;
    let mut said = String::new(alloc);
    for line in text.lines() {
        let line = line.trim();
        if is_usage(line) {
            return Ok(said);
        }
        if !line.is_empty() {
            if !said.is_empty() {
                said.push_str(joint_before(line))?;
            }
            said.push_str(line)?;
        }
    }
    Ok(said)
}
