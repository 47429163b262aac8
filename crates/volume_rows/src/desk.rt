//! A row: its first line says what it is about, and each further line is a command.
use crate::catalog::new_catalog;
use crate::extents::answer_extents;
use crate::groups::new_groups;
use crate::mounted::new_kept;
use crate::records::Written;
use crate::volumes::new_sets;
use row_table::desk::{Desk, Line, answer_lines};
use row_table::told::Told;
use std::alloc::Global;

#[derive(Clone, Copy)]
enum About {
    Group,
    Catalog,
    Extents,
    Records,
    Volume,
    Mounted,
}

const ABOUT: [(&str, About); 6] = [
    ("GROUP", About::Group),
    ("CATALOG", About::Catalog),
    ("EXTENTS", About::Extents),
    ("RECORDS", About::Records),
    ("VOLUME", About::Volume),
    ("MOUNTED", About::Mounted),
];

/// Does the commands of all lines, where there is something that they are about.
fn answer_at<D: Desk + Drop>(alloc: Global, desk: Option<D>, line: &mut Line<'_>) {
    if let Some(mut desk) = desk {
        answer_lines(alloc, &mut desk, line);
    }
}

/// Answers the lines behind the first.
fn answer_all(alloc: Global, line: &mut Line<'_>) {
    match line.words.one_of(&ABOUT) {
        Some(About::Group) => answer_at(alloc, new_groups(alloc, line), line),
        Some(About::Catalog) => answer_lines(alloc, &mut new_catalog(alloc, line), line),
        Some(About::Extents) => answer_extents(alloc, line),
        Some(About::Records) => answer_lines(alloc, &mut Written::new(alloc), line),
        Some(About::Volume) => answer_at(alloc, new_sets(alloc, line), line),
        Some(About::Mounted) => answer_at(alloc, new_kept(alloc, line), line),
        None => line.end(),
    }
}

/// Answers each line of a row.
pub fn answer(alloc: Global, input: &[u8], told: &mut Told) {
    let mut line = Line::new(alloc, input);
    if line.next() {
        answer_all(alloc, &mut line);
    }
    told.append(&line.told);
}
