//! Each row of a table is put in, and what comes is compared with what is wanted.
use crate::table::{Row, Table};
use crate::told::Told;
use std::alloc::{AllocError, Global};
use std::fs;
use std::io::{self, Write};

/// What a table is about: it answers a row's input.
pub trait Subject {
    /// Tells the lines that answer this input.
    fn answer(&self, alloc: Global, input: &[u8], told: &mut Told);
}

/// What is told of an input; where memory is missing it is told anew.
fn told_of<S: Subject>(alloc: Global, subject: &S, input: &[u8]) -> Result<Told, AllocError> {
    for _ in 0..2u8 {
        let mut told = Told::new(alloc);
        subject.answer(alloc, input, &mut told);
        if !told.is_wanting() {
            return Ok(told);
        }
    }
    Err(AllocError)
}

/// Says on standard error which row fails, what was wanted and what came.
fn say_failed(rt: &HostRuntime, table: &str, row: &Row<'_>, told: &[u8]) -> io::Result<()> {
    let mut out = rt.stderr();
    out.write_all(table.as_bytes())?;
    out.write_all(b": ")?;
    out.write_all(row.name)?;
    out.write_all(b"\n-- wanted\n")?;
    out.write_all(row.wanted)?;
    out.write_all(b"-- came\n")?;
    out.write_all(told)
}

/// Compares the rows of a table. It tells how many rows there are, and whether each of them holds.
fn check_rows<S: Subject>(
    rt: &HostRuntime,
    subject: &S,
    name: &str,
    text: &[u8],
) -> io::Result<(u32, bool)> {
    let mut table = Table::new(text);
    let mut count = 0u32;
    let mut holds = true;
    for _ in 0..text.len() {
        let Some(row) = table.next_row() else {
            break;
        };
        let told = told_of(rt.alloc(), subject, row.input)?;
        if told.as_slice() != row.wanted {
            holds = false;
            say_failed(rt, name, &row, told.as_slice())?;
        }
        count = count.saturating_add(1);
    }
    Ok((count, holds))
}

/// Compares the rows of a file, says how many there are, and tells whether each of them holds.
pub fn check_file<S: Subject>(rt: &HostRuntime, subject: &S, name: &str) -> io::Result<bool> {
    let text = fs::read(rt, name)?;
    let (count, holds) = check_rows(rt, subject, name, text.as_slice())?;
    println!(rt; "{name}: {count} rows")?;
    Ok(holds)
}
