//! What the keys of a job's DDs mean, from admission on. (Generation data sets)
ghost use Rattle.std.specs.Prelude.{◌≡◌, ◌++◌, IfOk, OnOk};
ghost use Rattle.std.specs.Option.{option_copied};
ghost use Rattle.jname_core.specs.declared.key.Key.TheVariants as key;
ghost use Rattle.jcl_meaning.specs.Resolutions.{meanings_in, meanings_of};
ghost use Rattle.jcl_meaning.specs.Stores.{Store, group_of, resolution_of, store_of};

use crate::job_store::JobStore;
use crate::store::group_of;
use group_core::group::{Group, GroupFault};
use jcl_meaning::meanings::Meanings;
use jcl_meaning::state::{KeyMeaning, Resolution};
use jcl_meaning::store::SoloStore;
use jcl_plan::fault::Fault;
use jcl_plan::plan::{DdKind, DdPlan, JobPlan};
use jname_core::ds_name::{DsName, MOST_OF_A_BASE};
use jname_core::key::{Key, Sign};
use std::alloc::{AllocError, Global};

/// A store that is asked for its groups alone.
pub trait HasGroups {
    /// The store that has them.
    ghost shown: { Self → Store };

    /// The group of a base.
    fn group(&self, base: &DsName) -> Option<&Group>
        ensures { option_copied result ≡ group_of (shown self.now) base.now };
}

impl HasGroups for SoloStore {
    ghost shown = { store_of };

    fn group(&self, base: &DsName) -> Option<&Group> {
        group_of(self, base)
    }
}

/// A store of several jobs as one of them sees it.
#[derive(Clone, Copy)]
pub struct SeenBy<'a, S> {
    pub store: &'a S,
    pub job: u16,
}

impl<S: JobStore> HasGroups for SeenBy<'_, S> {
    ghost shown = { λ s. S.seen s.job s.store.now };

    fn group(&self, base: &DsName) -> Option<&Group> {
        self.store.group(self.job, base)
    }
}

/// What a relative number means, by the generations of its group.
fn relative<S: HasGroups>(store: &S, base: &DsName, sign: Sign, amount: u8) -> Resolution
    ensures { result ≡ resolution_of (S.shown store.now) (key.Relative base.now sign amount) }
{
    if base.as_slice().len() > MOST_OF_A_BASE {
        return Resolution::Fails(Fault::F5);
    }
    let Some(group) = store.group(base) else {
        return Resolution::Fails(Fault::F5);
    };
    match group.resolve(sign, amount) {
        Ok(number) => match base.generation(number) {
            Some(name) => Resolution::Means(Key::Named(name)),
            None => Resolution::Fails(Fault::F5),
        },
        Err(GroupFault::TooHigh) => Resolution::Fails(Fault::F9),
        Err(_) => Resolution::Fails(Fault::F5),
    }
}

/// What a key means.
pub(crate) fn resolution_of<S: HasGroups>(store: &S, key: &Key) -> Resolution
    ensures { result ≡ resolution_of (S.shown store.now) key.now }
{
    match key {
        Key::Relative { base, sign, amount } => relative(store, base, *sign, *amount),
        Key::Named(name) => Resolution::Means(Key::Named(*name)),
        Key::Temporary(name) => Resolution::Means(Key::Temporary(*name)),
        Key::Unnamed { step, dd } => Resolution::Means(Key::Unnamed {
            step: *step,
            dd: *dd,
        }),
    }
}

/// Adds what the keys of a step's DDs mean.
fn add_meanings<S: HasGroups>(
    meanings: &mut Meanings,
    store: &S,
    step: usize,
    dds: &[DdPlan],
) -> Result<(), AllocError>
    ensures { OnOk result (meanings.new ≡ meanings.old ++ meanings_in (S.shown store.now) step 1 dds.now) }
{
    for (i, d) in dds.iter().enumerate() {
        match &d.kind {
            DdKind::Set(p) => meanings.push(KeyMeaning {
                step,
                dd: i + 1,
                means: resolution_of(store, &p.key),
            })?,
            DdKind::Sysout(_) => {}
            DdKind::Dummy => {}
            DdKind::Cards(_) => {}
        }
    }
    Ok(())
}

/// What the keys of a job's DDs mean in a store. The error is want of memory.
pub fn meanings_of<S: HasGroups>(
    alloc: Global,
    plan: &JobPlan,
    store: &S,
) -> Result<Meanings, AllocError>
    ensures { IfOk result (λ meanings. meanings ≡ meanings_of (S.shown store.now) plan.now) }
{
    let mut meanings = Meanings::empty(alloc);
    for (i, step) in plan.steps.as_slice().iter().enumerate() {
        add_meanings(&mut meanings, store, i + 1, step.dds.as_slice())?;
    }
    Ok(meanings)
}
