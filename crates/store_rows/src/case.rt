//! A job and what it finds, read from a text of one item a line. Records, members, used tracks, requests and lines of a procedure come
//! before the line that takes them.
use crate::coded::{Coded, CodedVerb, nothing_coded};
use crate::found::{Found, FoundVerb, nothing_found};
use crate::terms::{Terms, TermsVerb, no_terms};
use jcl_plan::day::Day;
use jcl_plan::plan::Record;
use plain::lent::Lent;
use plain::listed::Listed;
use row_table::desk::Line;
use std::alloc::Global;

/// What a line says.
#[derive(Clone, Copy)]
enum Verb {
    Card,
    Found(FoundVerb),
    Coded(CodedVerb),
    Terms(TermsVerb),
}

const VERBS: [(&str, Verb); 23] = [
    ("CARD", Verb::Card),
    ("USED", Verb::Found(FoundVerb::Used)),
    ("VOLUME", Verb::Found(FoundVerb::Volume)),
    ("RECORD", Verb::Found(FoundVerb::Record)),
    ("RECORDS", Verb::Found(FoundVerb::Records)),
    ("SET", Verb::Found(FoundVerb::Set)),
    ("ENTRY", Verb::Found(FoundVerb::Entry)),
    ("MEMBER", Verb::Found(FoundVerb::Member)),
    ("GROUP", Verb::Found(FoundVerb::Group)),
    ("GET", Verb::Coded(CodedVerb::Get)),
    ("PUT", Verb::Coded(CodedVerb::Put)),
    ("CODE", Verb::Coded(CodedVerb::Code)),
    ("ABEND", Verb::Coded(CodedVerb::Abend)),
    ("PROGRAM", Verb::Coded(CodedVerb::Program)),
    ("LINE", Verb::Coded(CodedVerb::Line)),
    ("PROC", Verb::Coded(CodedVerb::Proc)),
    ("UNIT", Verb::Coded(CodedVerb::Unit)),
    ("PLACE", Verb::Terms(TermsVerb::Place)),
    ("GRANT", Verb::Terms(TermsVerb::Grant)),
    ("CANCEL", Verb::Terms(TermsVerb::Cancel)),
    ("DATE", Verb::Terms(TermsVerb::Date)),
    ("RETPD", Verb::Terms(TermsVerb::Retpd)),
    ("PATH", Verb::Terms(TermsVerb::Path)),
];

/// A job's deck, what the job finds, what its cards may name, and the terms on which it runs.
#[derive(Drop)]
pub(crate) struct Case<'a> {
    pub(crate) found: Found,
    pub(crate) coded: Coded,
    pub(crate) terms: Terms,
    pub(crate) deck: Listed<Lent<'a>>,
}

/// 80 columns that begin with the text.
pub(crate) fn columns(text: &[u8]) -> Record {
    let mut record = [b' '; 80];
    for (column, byte) in record.iter_mut().zip(text) {
        *column = *byte;
    }
    record
}

/// Takes a line.
fn take<'a>(alloc: Global, case: &mut Case<'a>, line: &mut Line<'a>) {
    match line.words.one_of(&VERBS) {
        Some(Verb::Card) => {
            let card = Lent::new(line.words.left());
            line.told.over(case.deck.push(card));
        }
        Some(Verb::Found(verb)) => case.found.take(alloc, verb, line),
        Some(Verb::Coded(verb)) => case.coded.take(alloc, verb, line),
        Some(Verb::Terms(verb)) => case.terms.take(alloc, verb, line),
        None => {}
    }
}

/// Reads a job and what it finds. A line that is not understood is told.
pub(crate) fn read_case<'a>(alloc: Global, line: &mut Line<'a>, date: Day) -> Case<'a> {
    let mut case = Case {
        found: nothing_found(alloc),
        coded: nothing_coded(alloc),
        terms: no_terms(alloc, date),
        deck: Listed::empty(alloc),
    };
    for _ in 0..line.lines.len() {
        if !line.next() {
            break;
        }
        take(alloc, &mut case, line);
        line.end();
    }
    case
}
