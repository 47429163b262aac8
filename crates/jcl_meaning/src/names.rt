//! The names that a job holds. (This profile's rule)
ghost use Rattle.std.specs.Prelude.{◌≡◌, ◌<◌, ◌≤◌, IfOk, IfErr, OnOk, insert, length, slice_set};
ghost use Rattle.std.specs.List.{flat_map};
ghost use Rattle.jcl_meaning.specs.Names.{AreSorted, asked_again, changes, changes_after_abend, dd_names, held_under, is_shr, is_temporary, names_of, same_key, same_sign, wants_alone, with_name, with_names};

use jcl_plan::plan::{ConditionalWord, DdKind, DdPlan, JobPlan, SetPlan, Status, VolumePlan, Word};
use jname_core::ds_name::DsName;
use jname_core::key::{Key, Sign};
use plain::listed::Listed;
use std::alloc::{AllocError, Global};

/// A name that a job holds, for itself alone or shared with others.
#[derive(Clone, Copy)]
pub struct HeldName {
    pub name: DsName,
    pub exclusive: bool,
}

fn same_sign(a: Sign, b: Sign) -> bool
    ensures { result ≡ same_sign a b }
{
    match (a, b) {
        (Sign::Plus, Sign::Plus) => true,
        (Sign::Minus, Sign::Minus) => true,
        (Sign::Plus, Sign::Minus) => false,
        (Sign::Minus, Sign::Plus) => false,
    }
}

/// Whether two keys are of one set.
pub fn same_key(a: &Key, b: &Key) -> bool
    ensures { result ≡ same_key a.now b.now }
{
    match (a, b) {
        (Key::Named(a), Key::Named(b)) => a.as_slice() == b.as_slice(),
        (
            Key::Relative {
                base: a,
                sign: s,
                amount: n,
            },
            Key::Relative {
                base: b,
                sign: t,
                amount: m,
            },
        ) => a.as_slice() == b.as_slice() && same_sign(*s, *t) && *n == *m,
        (Key::Temporary(a), Key::Temporary(b)) => a.as_slice() == b.as_slice(),
        (Key::Unnamed { step: s, dd: d }, Key::Unnamed { step: t, dd: e }) => *s == *t && *d == *e,
        _ => false,
    }
}

/// A set of the job alone.
pub fn is_temporary(key: &Key) -> bool
    ensures { result ≡ is_temporary key.now }
{
    match key {
        Key::Named(_) => false,
        Key::Relative { .. } => false,
        Key::Temporary(_) => true,
        Key::Unnamed { .. } => true,
    }
}

/// The name under which a key is held: a generation's base, and else its own.
fn held_under(key: &Key) -> Option<DsName>
    ensures { result ≡ held_under key.now }
{
    match key {
        Key::Named(name) => Some(name.base_of()),
        Key::Relative { base, .. } => Some(*base),
        Key::Temporary(_) => None,
        Key::Unnamed { .. } => None,
    }
}

fn changes(word: Option<Word>) -> bool
    ensures { result ≡ changes word }
{
    match word {
        None => false,
        Some(Word::Delete) => true,
        Some(Word::Keep) => false,
        Some(Word::Pass) => false,
        Some(Word::Catlg) => true,
        Some(Word::Uncatlg) => true,
    }
}

fn changes_after_abend(word: Option<ConditionalWord>) -> bool
    ensures { result ≡ changes_after_abend word }
{
    match word {
        None => false,
        Some(ConditionalWord::Delete) => true,
        Some(ConditionalWord::Keep) => false,
        Some(ConditionalWord::Catlg) => true,
        Some(ConditionalWord::Uncatlg) => true,
    }
}

pub fn is_shr(status: Status) -> bool
    ensures { result ≡ is_shr status }
{
    match status {
        Status::New => false,
        Status::Old => false,
        Status::Shr => true,
        Status::Mod => false,
    }
}

/// Whether a DD wants its set for its job alone.
fn wants_alone(p: &SetPlan) -> bool
    ensures { result ≡ wants_alone p.now }
{
    !is_shr(p.status) || changes(p.normal) || changes_after_abend(p.conditional)
}

/// The place of a name in a list in byte order, or the place where it is to be.
fn place_of(names: &[HeldName], wanted: &HeldName) -> Result<usize, usize>
    requires { AreSorted names.now }
    ensures there { IfOk result (λ i. (i < length names.now) × (with_name names.now wanted.now ≡ slice_set names.now i (asked_again names.now i wanted.now))) }
    ensures missing { IfErr result (λ i. (i ≤ length names.now) × (with_name names.now wanted.now ≡ insert names.now i wanted.now)) }
{
    names.binary_search_by(|there| there.name.cmp(&wanted.name))
}

/// A name in its place; it is shared where all who want it share it.
fn want(names: &mut Vec<HeldName>, wanted: HeldName) -> Result<(), AllocError>
    requires { AreSorted names.old.items }
    ensures { OnOk result (names.new.items ≡ with_name names.old.items wanted) }
{
    match place_of(names.as_slice(), &wanted) {
        Ok(i) => names[i].exclusive = names[i].exclusive || wanted.exclusive,
        Err(i) => names.insert(i, wanted)?,
    }
    Ok(())
}

/// The name of a DD's set, and a name to which its VOL refers.
#[tactic(auto, using(crate::proofs::SortedNames::kept_sorted))]
fn want_of_dd(names: &mut Vec<HeldName>, kind: &DdKind) -> Result<(), AllocError>
    requires { AreSorted names.old.items }
    ensures { OnOk result (names.new.items ≡ with_names names.old.items (dd_names kind.now)) }
{
    let DdKind::Set(p) = kind else {
        return Ok(());
    };
    if let Some(name) = held_under(&p.key) {
        let exclusive = wants_alone(p);
        want(names, HeldName { name, exclusive })?;
    }
    if let VolumePlan::OfName(name) = &p.volume {
        let name = name.base_of();
        want(
            names,
            HeldName {
                name,
                exclusive: false,
            },
        )?;
    }
    Ok(())
}

fn want_of_dds(names: &mut Vec<HeldName>, dds: &[DdPlan]) -> Result<(), AllocError>
    requires { AreSorted names.old.items }
    ensures { OnOk result (names.new.items ≡ with_names names.old.items (flat_map (λ dd. dd_names dd.kind) dds.now)) }
{
    for dd in dds {
        want_of_dd(names, &dd.kind)?;
    }
    Ok(())
}

/// The names of a job, each once, in byte order. A name is exclusive if a DD wants its set alone: one that is not SHR, or has DELETE,
/// CATLG or UNCATLG.
pub fn names_of(alloc: Global, plan: &JobPlan) -> Result<Listed<HeldName>, AllocError>
    ensures { IfOk result (λ l. l ≡ names_of plan.now) }
{
    let mut names = Vec::new(alloc);
    for step in plan.steps.as_slice() {
        want_of_dds(&mut names, step.dds.as_slice())?;
    }
    Ok(Listed::new(names))
}
