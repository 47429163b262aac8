//! What the cards of a job may name: programs, procedures and units.
use crate::case::columns;
use jcl_meaning::program::{Request, SoloProgram};
use jcl_plan::outcome::Code;
use jcl_refs::units::UnitNames;
use jname_core::name8::{Name8, UnitName};
use plain::lent::Lent;
use plain::listed::Listed;
use plain::text::Text;
use proc_library::library::ProcLibrary;
use row_table::desk::Line;
use row_table::names::name8;
use row_table::told::Told;
use row_table::words::Words;
use std::alloc::{AllocError, Global};
use std::mem;

/// Programs, procedures and units, and the requests and lines that no line took yet.
#[derive(Drop)]
pub(crate) struct Coded {
    pub(crate) units: UnitNames,
    pub(crate) library: ProcLibrary,
    pub(crate) programs: Listed<SoloProgram>,
    requests: Listed<Request>,
    lines: Listed<Text>,
}

#[derive(Clone, Copy)]
pub(crate) enum CodedVerb {
    Get,
    Put,
    Code,
    Abend,
    Program,
    Line,
    Proc,
    Unit,
}

pub(crate) fn nothing_coded(alloc: Global) -> Coded {
    Coded {
        units: UnitNames::new(alloc),
        library: ProcLibrary::new(alloc),
        programs: Listed::empty(alloc),
        requests: Listed::empty(alloc),
        lines: Listed::empty(alloc),
    }
}

/// Takes the next word as a code.
fn code(words: &mut Words<'_>) -> Option<Code> {
    let code = Code::new(words.short());
    words.some(code)
}

/// Takes the next words as a request.
fn request(verb: CodedVerb, words: &mut Words<'_>) -> Option<Request> {
    match verb {
        CodedVerb::Get => Some(Request::Get(name8(words)?)),
        CodedVerb::Put => Some(Request::Put {
            dd: name8(words)?,
            text: columns(words.left()),
        }),
        CodedVerb::Code => Some(Request::End(code(words)?)),
        _ => Some(Request::Abend(code(words)?)),
    }
}

/// Lines as a deck lends them.
fn lent<'a>(alloc: Global, lines: &'a [Text]) -> Result<Vec<Lent<'a>>, AllocError> {
    let mut cards = Vec::new(alloc);
    for line in lines {
        cards.push(Lent::new(line.as_slice()))?;
    }
    Ok(cards)
}

impl Coded {
    fn add_request(&mut self, verb: CodedVerb, line: &mut Line<'_>) {
        if let Some(request) = request(verb, &mut line.words) {
            line.told.over(self.requests.push(request));
        }
    }

    fn add_program(&mut self, alloc: Global, name: Name8, told: &mut Told) {
        let requests = mem::replace(&mut self.requests, Listed::empty(alloc));
        told.over(self.programs.push(SoloProgram { name, requests }));
    }

    fn add_line(&mut self, alloc: Global, text: &[u8], told: &mut Told) {
        if let Some(text) = told.got(Text::copy_of(alloc, text)) {
            told.over(self.lines.push(text));
        }
    }

    fn add_procedure(&mut self, alloc: Global, name: Name8, told: &mut Told) {
        let lines = mem::replace(&mut self.lines, Listed::empty(alloc));
        if !self.library.has(&name)
            && let Some(lines) = told.got(lent(alloc, lines.as_slice()))
        {
            told.over(self.library.add(alloc, name, lines.as_slice()));
        }
    }

    fn add_unit(&mut self, line: &mut Line<'_>) {
        let name = UnitName::read(line.words.next_word()).ok();
        if let Some(name) = line.words.some(name)
            && self.units.number(&name).is_none()
            && self.units.len() < 65_535
        {
            line.told.over(self.units.add(name));
        }
    }

    /// Takes a line of a program, a procedure or a unit.
    pub(crate) fn take(&mut self, alloc: Global, verb: CodedVerb, line: &mut Line<'_>) {
        match verb {
            CodedVerb::Get | CodedVerb::Put | CodedVerb::Code | CodedVerb::Abend => {
                self.add_request(verb, line);
            }
            CodedVerb::Program => {
                if let Some(name) = name8(&mut line.words) {
                    self.add_program(alloc, name, &mut line.told);
                }
            }
            CodedVerb::Line => self.add_line(alloc, line.words.left(), &mut line.told),
            CodedVerb::Proc => {
                if let Some(name) = name8(&mut line.words) {
                    self.add_procedure(alloc, name, &mut line.told);
                }
            }
            CodedVerb::Unit => self.add_unit(line),
        }
    }
}
