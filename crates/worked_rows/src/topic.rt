//! What tables are about.
use row_table::check::Subject;
use row_table::told::Told;
use std::alloc::Global;

/// What a table is about. The crate that answers its rows is named by it.
#[derive(Clone, Copy)]
pub(crate) enum Topic {
    Volumes,
    Records,
    Machine,
    Stores,
    Sessions,
    Queues,
    Paths,
}

const TOPICS: [(&str, Topic); 7] = [
    ("volumes", Topic::Volumes),
    ("records", Topic::Records),
    ("machine", Topic::Machine),
    ("stores", Topic::Stores),
    ("sessions", Topic::Sessions),
    ("queues", Topic::Queues),
    ("paths", Topic::Paths),
];

/// What this word says that tables are about, if it says so.
pub(crate) fn topic_of(word: &str) -> Option<Topic> {
    for (name, topic) in &TOPICS {
        if *name == word {
            return Some(*topic);
        }
    }
    None
}

impl Subject for Topic {
    fn answer(&self, alloc: Global, input: &[u8], told: &mut Told) {
        match self {
            Topic::Volumes => volume_rows::answer(alloc, input, told),
            Topic::Records => record_rows::answer(alloc, input, told),
            Topic::Machine => machine_rows::answer(alloc, input, told),
            Topic::Stores => store_rows::answer(alloc, input, told),
            Topic::Sessions => crate::sessions::answer(alloc, input, told),
            Topic::Queues => crate::opened::answer(alloc, input, told),
            Topic::Paths => path_rows::answer(alloc, input, told),
        }
    }
}
