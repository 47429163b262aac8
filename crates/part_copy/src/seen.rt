//! Which sets of the store of all jobs a job sees.
ghost use Rattle.std.specs.Prelude.{◌≡◌};
ghost use Rattle.std.specs.Option.{option_copied};
ghost use Rattle.jcl_meaning.specs.Names.{held_under};
ghost use Rattle.part_copy.specs.Copies.{is_under, job_key};

use jname_core::ds_name::DsName;
use jname_core::key::Key;
use vtoc_core::entry::SetKey;

/// The name under which a key is held: a generation's base, and else its own.
fn held_under(key: &Key) -> Option<DsName>
    ensures { result ≡ held_under key.now }
{
    match key {
        Key::Named(name) => Some(name.base_of()),
        Key::Relative { base, .. } => Some(*base),
        Key::Temporary(_) => None,
        Key::Unnamed { .. } => None,
    }
}

/// Whether a key is held under this name, or under none.
pub(crate) fn is_under(held: Option<&DsName>, key: &Key) -> bool
    ensures { result ≡ is_under (option_copied held.entry) (held_under key.now) }
{
    match (held, held_under(key)) {
        (None, None) => true,
        (Some(held), Some(base)) => held.as_slice() == base.as_slice(),
        _ => false,
    }
}

/// The key under which a job sees a set of the store of all jobs.
pub(crate) fn job_key(job: u16, key: &SetKey) -> Option<Key>
    ensures { result ≡ job_key job key.now }
{
    match key {
        SetKey::Named(name) => Some(Key::Named(*name)),
        SetKey::Temporary { job: owner, name } => {
            if *owner == job {
                Some(Key::Temporary(*name))
            } else {
                None
            }
        }
        SetKey::Unnamed {
            job: owner,
            step,
            dd,
        } => {
            if *owner == job {
                Some(Key::Unnamed {
                    step: *step,
                    dd: *dd,
                })
            } else {
                None
            }
        }
    }
}
