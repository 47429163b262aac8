//! The keys of a job's sets among those of all jobs.
ghost use Rattle.std.specs.Prelude.{◌≡◌};
ghost use Rattle.world_meaning.specs.Lenses.{world_key};

use jname_core::key::Key;
use vtoc_core::entry::SetKey;

/// The key under which the set of a job's key stands; a relative number names none.
pub fn world_key(job: u16, key: &Key) -> Option<SetKey>
    ensures { result ≡ world_key job key.now }
{
    match key {
        Key::Named(name) => Some(SetKey::Named(*name)),
        Key::Relative { .. } => None,
        Key::Temporary(name) => Some(SetKey::Temporary { job, name: *name }),
        Key::Unnamed { step, dd } => Some(SetKey::Unnamed {
            job,
            step: *step,
            dd: *dd,
        }),
    }
}
