//! DDNAME: a DD takes the definition of a later DD of its step, which is then no DD of its own. (GC28-6704, DDNAME parameter)
ghost use Rattle.std.specs.Prelude.{◌≡◌, ◌≤◌, ◌++◌, ◌∷◌, IfOk, OnOk, length};
ghost use Rattle.std.specs.List.{list_any};
ghost use Rattle.jcl_refs.specs.LaterDds.{as_dummy, dds_left, defined_by, references_of, wanted_by};
ghost use Rattle.jcl_refs.specs.Planning.{looks_for_later};
ghost use Rattle.jcl_refs.specs.Waiting.{IsWaiting, waiting};

use crate::waiting::Waiting;
use jcl_cards::coded::Coded;
use jcl_dds::dd::{DdCard, Word};
use jname_core::name8::Name8;
use plain::listed::Listed;
use std::alloc::{AllocError, Global};
use std::mem::replace;
use value_core::reference::DdReference;

/// Whether a DD looks for a later one.
pub(crate) fn looks_for_later(dd: &DdCard) -> bool
    ensures { result ≡ looks_for_later dd.now }
{
    match dd.dd_name {
        Coded::NotGiven | Coded::Nullified => false,
        Coded::Value(_) => true,
    }
}

fn some_look(dds: &[DdCard]) -> bool
    ensures { result ≡ list_any looks_for_later dds.now }
{
    dds.iter().any(looks_for_later)
}

/// The name that a DD looks for.
fn wanted_by(dd_name: &Coded<Name8>) -> Option<Name8>
    ensures { result ≡ wanted_by dd_name.now }
{
    match *dd_name {
        Coded::NotGiven | Coded::Nullified => None,
        Coded::Value(name) => Some(name),
    }
}

fn references_of(alloc: Global, control_blocks: Coded<Listed<DdReference>>) -> Listed<DdReference>
    ensures { result ≡ references_of control_blocks }
{
    match control_blocks {
        Coded::NotGiven | Coded::Nullified => Listed::empty(alloc),
        Coded::Value(references) => references,
    }
}

/// References of both.
fn joined(
    own: Listed<DdReference>,
    later: Listed<DdReference>,
) -> Result<Listed<DdReference>, AllocError>
    ensures { IfOk result (λ both. both ≡ own ++ later) }
{
    let mut both = own.into_vec();
    both.append(&mut later.into_vec())?;
    Ok(Listed::new(both))
}

/// A later DD defines another: it takes its name, and that one's references stand before its own.
fn define(alloc: Global, dd: DdCard, later: &mut DdCard) -> Result<(), AllocError>
    ensures { OnOk result (later.new ≡ defined_by dd later.old) }
{
    let own = references_of(alloc, dd.control_blocks);
    let behind = references_of(alloc, replace(&mut later.control_blocks, Coded::NotGiven));
    later.control_blocks = Coded::Value(joined(own, behind)?);
    later.name = dd.name;
    Ok(())
}

/// A DD that looks for one that is not there.
fn as_dummy(dd: DdCard) -> DdCard
    ensures { result ≡ as_dummy dd }
{
    let mut dd = dd;
    dd.word = Some(Word::Dummy);
    dd.dd_name = Coded::NotGiven;
    dd
}

/// A DD with the definition that it looks for among the later ones.
fn settled(alloc: Global, others: &mut Waiting, dd: DdCard) -> Result<DdCard, AllocError>
    requires { IsWaiting others.old }
    ensures is { OnOk result (IsWaiting others.new) }
    ensures fewer { OnOk result (length (waiting others.new) ≤ length (waiting others.old)) }
    ensures left { IfOk result (λ left. dds_left (dd ∷ waiting others.old) ≡ left ∷ dds_left (waiting others.new)) }
{
    let mut dd = dd;
    while let Some(name) = wanted_by(&dd.dd_name) {
        let Some(mut later) = others.take(alloc, name)? else {
            return Ok(as_dummy(dd));
        };
        define(alloc, dd, &mut later)?;
        dd = later;
    }
    Ok(dd)
}

/// The DDs of a step that are left, when each DDNAME took the definition that it looks for.
#[tactic(auto, using(crate::proofs::Left::all_stay))]
pub fn dds_left(alloc: Global, dds: Listed<DdCard>) -> Result<Listed<DdCard>, AllocError>
    ensures { IfOk result (λ left. left ≡ dds_left dds) }
{
    if !some_look(dds.as_slice()) {
        return Ok(dds);
    }
    let mut others = Waiting::of(alloc, dds.into_vec())?;
    let mut left = Listed::empty(alloc);
    while let Some(dd) = others.next() {
        left.push(settled(alloc, &mut others, dd)?)?;
    }
    Ok(left)
}
