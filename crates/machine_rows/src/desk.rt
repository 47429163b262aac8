//! What the commands of a row are about, and which of them there are. Where a command wants memory its row goes on: what the row watches has
//! to be as before, else it is told that it changed, and the command is done again.
use crate::catalog::{CatalogVerb, on_catalog};
use crate::holds::{HoldVerb, on_holds, release_all};
use crate::operations::tell_operations;
use crate::places::tell_places;
use crate::programs::{add_program, tell_runs};
use crate::sets::{SetVerb, mount, on_set};
use crate::spool::{SpoolVerb, Written, nothing_written, on_spool};
use cat_core::catalog::Catalog;
use enq_core::table::{EnqTable, Held};
use plain::listed::Listed;
use plain::text::Text;
use prog_core::library::ProgramLibrary;
use row_table::desk::{Desk, Line, answer_lines};
use row_table::told::Told;
use shared_core::store::SharedStore;
use std::alloc::Global;
use std::mem;

/// What a line says.
#[derive(Clone, Copy)]
enum Verb {
    Holds(HoldVerb),
    Program,
    Runs,
    Operations,
    Volume,
    Set(SetVerb),
    Catalog(CatalogVerb),
    Places,
    Spool(SpoolVerb),
    Watch,
}

const VERBS: [(&str, Verb); 27] = [
    ("HOLD", Verb::Holds(HoldVerb::Hold)),
    ("RELEASE", Verb::Holds(HoldVerb::Release)),
    ("HOLDS", Verb::Holds(HoldVerb::Holds)),
    ("PROGRAM", Verb::Program),
    ("RUNS", Verb::Runs),
    ("OPERATIONS", Verb::Operations),
    ("VOLUME", Verb::Volume),
    ("MAKE", Verb::Set(SetVerb::Make)),
    ("GROW", Verb::Set(SetVerb::Grow)),
    ("APPEND", Verb::Set(SetVerb::Append)),
    ("RECORD", Verb::Set(SetVerb::Record)),
    ("EMPTY", Verb::Set(SetVerb::Empty)),
    ("TRIM", Verb::Set(SetVerb::Trim)),
    ("SCRATCH", Verb::Set(SetVerb::Scratch)),
    ("SET", Verb::Set(SetVerb::Set)),
    ("ENTER", Verb::Catalog(CatalogVerb::Enter)),
    ("UNCATALOG", Verb::Catalog(CatalogVerb::Uncatalog)),
    ("CATALOGED", Verb::Catalog(CatalogVerb::Cataloged)),
    ("GROUP", Verb::Catalog(CatalogVerb::Group)),
    ("NUMBER", Verb::Catalog(CatalogVerb::Number)),
    ("GENERATIONS", Verb::Catalog(CatalogVerb::Generations)),
    ("PLACES", Verb::Places),
    ("LINE", Verb::Spool(SpoolVerb::Line)),
    ("OUTPUT", Verb::Spool(SpoolVerb::Output)),
    ("OVER", Verb::Spool(SpoolVerb::Over)),
    ("WRITE", Verb::Spool(SpoolVerb::Write)),
    ("WATCH", Verb::Watch),
];

/// Held names, programs, a store, what writers have to write, and the commands that are watched.
#[derive(Drop)]
struct Machine<'a> {
    table: &'a mut EnqTable,
    held: &'a mut Vec<Held>,
    library: ProgramLibrary,
    store: SharedStore,
    written: Written,
    watches: Listed<Text>,
}

impl Desk for Machine<'_> {
    fn show(&mut self, alloc: Global, told: &mut Told) {
        let watches = mem::replace(&mut self.watches, Listed::empty(alloc));
        for watch in watches.as_slice() {
            let mut line = Line::new(alloc, watch.as_slice());
            line.next();
            self.act(alloc, &mut line);
            told.append(&line.told);
        }
        self.watches = watches;
    }

    fn act(&mut self, alloc: Global, line: &mut Line<'_>) {
        match line.words.one_of(&VERBS) {
            Some(Verb::Holds(verb)) => {
                on_holds(alloc, self.table, self.held, verb, line);
            }
            Some(Verb::Program) => add_program(alloc, &mut self.library, line),
            Some(Verb::Runs) => tell_runs(&self.library, line),
            Some(Verb::Operations) => tell_operations(alloc, line),
            Some(Verb::Volume) => mount(alloc, &mut self.store, line),
            Some(Verb::Set(verb)) => on_set(&mut self.store, verb, line),
            Some(Verb::Catalog(verb)) => on_catalog(alloc, &mut self.store, verb, line),
            Some(Verb::Places) => tell_places(alloc, line),
            Some(Verb::Spool(verb)) => on_spool(alloc, &mut self.written, verb, line),
            Some(Verb::Watch) => {
                line.words.left();
            }
            None => {}
        }
    }
}

/// The commands that a row watches.
fn watches_in(alloc: Global, line: &mut Line<'_>) -> Listed<Text> {
    let mut watches = Listed::empty(alloc);
    let mut lines = line.lines;
    for _ in 0..lines.len() {
        let Some(text) = lines.next_line() else {
            break;
        };
        if let Some(watch) = text.strip_prefix(b"WATCH ")
            && let Some(watch) = line.told.got(Text::copy_of(alloc, watch))
        {
            line.told.over(watches.push(watch));
        }
    }
    watches
}

/// What the commands of a row tell, in turn. All names are given free behind them.
pub fn answer(alloc: Global, input: &[u8], told: &mut Told) {
    let mut line = Line::new(alloc, input);
    let watches = watches_in(alloc, &mut line);
    let mut table = EnqTable::new(alloc);
    let mut held = Vec::new(alloc);
    let mut machine = Machine {
        table: &mut table,
        held: &mut held,
        library: ProgramLibrary::new(alloc),
        store: SharedStore {
            alloc,
            catalog: Catalog::new(alloc),
            volumes: Listed::empty(alloc),
        },
        written: nothing_written(alloc),
        watches,
    };
    answer_lines(alloc, &mut machine, &mut line);
    told.append(&line.told);
    drop(machine);
    release_all(&mut table, held);
}
