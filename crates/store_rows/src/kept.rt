//! The keys and the names under which a job may find or leave something.
use jcl_meaning::names::same_key;
use jcl_meaning::state::{KeyMeaning, Resolution};
use jcl_meaning::store::SoloStore;
use jname_core::ds_name::DsName;
use jname_core::key::Key;
use plain::listed::Listed;
use row_table::told::Told;
use std::alloc::Global;

/// The keys of sets, and the names of entries, each once.
#[derive(Drop)]
pub(crate) struct Known {
    pub(crate) keys: Listed<Key>,
    pub(crate) names: Listed<DsName>,
}

fn has_key(keys: &[Key], key: &Key) -> bool {
    for other in keys {
        if same_key(other, key) {
            return true;
        }
    }
    false
}

fn has_name(names: &[DsName], name: &DsName) -> bool {
    for other in names {
        if other == name {
            return true;
        }
    }
    false
}

impl Known {
    fn add_name(&mut self, name: &DsName, told: &mut Told) {
        if !has_name(self.names.as_slice(), name) {
            told.over(self.names.push(*name));
        }
    }

    /// A key, and its name if it is a permanent set.
    fn add_key(&mut self, key: &Key, told: &mut Told) {
        if !has_key(self.keys.as_slice(), key) {
            told.over(self.keys.push(*key));
        }
        if let Key::Named(name) = key {
            self.add_name(name, told);
        }
    }

    fn add_store(&mut self, store: &SoloStore, told: &mut Told) {
        for set in store.sets.as_slice() {
            self.add_key(&set.key, told);
        }
        for entry in store.catalog.as_slice() {
            self.add_name(&entry.name, told);
        }
    }

    fn add_meanings(&mut self, meanings: &[KeyMeaning], told: &mut Told) {
        for meaning in meanings {
            if let Resolution::Means(key) = &meaning.means {
                self.add_key(key, told);
            }
        }
    }
}

/// The keys and names of the store that a job finds, those that it means, and those of the store that it leaves alone.
pub(crate) fn known_in(
    alloc: Global,
    found: &SoloStore,
    meanings: &[KeyMeaning],
    left: &SoloStore,
    told: &mut Told,
) -> Known {
    let mut known = Known {
        keys: Listed::empty(alloc),
        names: Listed::empty(alloc),
    };
    known.add_store(found, told);
    known.add_meanings(meanings, told);
    known.add_store(left, told);
    known
}
