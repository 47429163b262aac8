//! Worked sessions with their listings, and texts with the statements that they are. The tables say which commands there are.

mod command_lines;
mod commands;
pub(crate) mod driven;
mod each;
mod listing;
mod row;
mod statements;
mod streams;

use crate::sessions::command_lines::tell_command_line;
use crate::sessions::commands::Asked;
use crate::sessions::driven::list_driven;
use crate::sessions::each::tell_each;
use crate::sessions::listing::tell_runs;
use crate::sessions::row::new_row;
use crate::sessions::statements::tell_statements;
use row_table::escapes::unescaped;
use row_table::told::Told;
use std::alloc::Global;

/// Tells the listing of a session, and that of its events where these are driven one after another and list something else.
fn tell_listing(alloc: Global, asked: &Asked, text: &[u8], told: &mut Told) {
    tell_runs(alloc, asked, text, told);
    if asked.driven
        && let Some(driven) = told.got(list_driven(alloc, asked.options, text))
        && driven.kept() != told.as_slice()
    {
        told.line_of_two(b"DRIVEN\n", driven.kept());
    }
}

/// Tells what is asked for of a text whose bytes are shown.
fn tell_text(alloc: Global, asked: &Asked, shown: &[u8], told: &mut Told) {
    let Some(text) = told.got(unescaped(alloc, shown)) else {
        return;
    };
    match asked.statements {
        _ if asked.command_line => tell_command_line(alloc, text.as_slice(), told),
        Some(ending) => tell_statements(alloc, told, text.as_slice(), ending),
        None => tell_listing(alloc, asked, text.as_slice(), told),
    }
}

/// Tells what a row asks for.
pub fn answer(alloc: Global, input: &[u8], told: &mut Told) {
    let mut row = new_row(alloc);
    row.take(input, told);
    if row.text.is_wanting() {
        told.want();
    }
    match row.asked.each {
        Some(span) => tell_each(alloc, &row.asked, row.text.as_slice(), span, told),
        None => tell_text(alloc, &row.asked, row.text.as_slice(), told),
    }
}
