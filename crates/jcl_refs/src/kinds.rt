//! The kinds of a step's DDs: sets, DUMMYs, SYSOUT and cards. (GC28-6704, DD statement and "Backward references")
ghost use Rattle.std.specs.Prelude.{◌≡◌, ◌+◌, ◌-◌, ◌≤◌, [], All, IfOk, IfSome, IsSome, MatchOption, length, map, slice_get};
ghost use Rattle.std.specs.Bool.{OnTrue};
ghost use Rattle.std.specs.List.{flat_map};
ghost use Rattle.std.specs.Option.{option_copied};
ghost use Rattle.jcl_plan.specs.declared.plan.TheConstants.{MOST_DDS, MOST_STEPS};
ghost use Rattle.operand_core.specs.Faults.{told};
ghost use Rattle.value_core.specs.Reads.{Gives, answer};
ghost use Rattle.jcl_cards.specs.declared.coded.Coded.TheVariants.{NotGiven};
ghost use Rattle.jcl_procs.specs.Expansions.{and_then};
ghost use Rattle.jcl_refs.specs.Kinds.{FewPlanned, IsDummyAlone, fault_named, fault_with, is_set, key_by, kinds_here, named_by, plan_of, setless, source_of, spot_of, volume_by_source};
ghost use Rattle.jcl_refs.specs.LaterDds.{references_of};
ghost use Rattle.jcl_refs.specs.Plans.{dds_with, disposition_of, faults_of, is_uncataloged, is_uncataloged_after_abend, kind_at, kinds_from, kinds_in};
ghost use Rattle.jcl_refs.specs.Plans.{expiry_of, led, naming, own_kind, set_with, space_of, uncataloged_faults, volume_faults, volume_plan};

use crate::targets::{Target, target_of};
use jcl_cards::coded::Coded;
use jcl_dds::dd::{DdCard, Word as Positional};
use jcl_meaning::names::is_temporary;
use jcl_plan::fault::{Cause, StatementFault};
use jcl_plan::plan::{
    ConditionalWord, DdKind, DdPlan, Expiry, SetPlan, Space, Status, StepPlan, VolumePlan, Word,
};
use jcl_procs::step::FlatStep;
use jname_core::key::Key;
use operand_core::fault::{earlier, when};
use plain::listed::Listed;
use std::alloc::{AllocError, Global};
use value_core::reference::DdReference;
use value_core::refusal::ReadError;
use value_core::set::{Disposition, SetName, VolumeName};

/// Where a DD stands: the steps, the plans of those before its own and of the DDs before it, the call of its step, its step, and its place in it.
/// Both count from 1.
#[derive(Clone, Copy)]
struct Spot<'a> {
    steps: &'a [FlatStep],
    done: &'a [StepPlan],
    here: &'a [DdPlan],
    call: Option<usize>,
    step: u16,
    dd: u16,
}

/// The DD of a set that a reference leads to, and the set's key.
#[derive(Clone, Copy)]
struct Source {
    step: u16,
    dd: u16,
    key: Key,
}

fn kind_in(dds: &[DdPlan], d: usize) -> Option<&DdKind>
    ensures kind { option_copied result ≡ slice_get (kinds_here dds.now) (d - 1) }
    ensures within { IsSome result → d ≤ length dds.now }
{
    let dd = dds.get(d.saturating_sub(1))?;
    Some(&dd.kind)
}

/// The DDs of a step that are planned.
fn dds_at<'a>(spot: &Spot<'a>, k: usize) -> Option<&'a [DdPlan]>
    requires { FewPlanned spot.now }
    ensures dds { let given = slice_get (spot_of spot.now).planned (k - 1) in MatchOption result (given ≡ None) (λ dds. given ≡ Some (kinds_here dds.now)) }
    ensures within { IfSome result (λ dds. (k ≤ MOST_STEPS + 1) × (length dds.now ≤ MOST_DDS)) }
{
    let before = k.saturating_sub(1);
    if before == spot.done.len() {
        return Some(spot.here);
    }
    let step = spot.done.get(before)?;
    Some(step.dds.as_slice())
}

fn kind_at<'a>(spot: &Spot<'a>, target: Target) -> Option<&'a DdKind>
    requires { FewPlanned spot.now }
    ensures kind { option_copied result ≡ kind_at (spot_of spot.now).planned target }
    ensures within { IsSome result → (target.step ≤ MOST_STEPS + 1) × (target.dd ≤ MOST_DDS) }
{
    kind_in(dds_at(spot, target.step)?, target.dd)
}

/// What a reference leads to: the DD of a set, none where it is a DUMMY.
fn led(spot: &Spot<'_>, reference: DdReference) -> Result<Option<Source>, Cause>
    requires { FewPlanned spot.now }
    ensures { result ≡ source_of (led (spot_of spot.now) reference) }
{
    let target = target_of(
        spot.call,
        usize::from(spot.step),
        usize::from(spot.dd),
        spot.steps,
        reference,
    )?;
    match kind_at(spot, target) {
        Some(DdKind::Set(set)) => Ok(Some(Source {
            step: target.step as u16,
            dd: target.dd as u16,
            key: set.key,
        })),
        Some(DdKind::Dummy) => Ok(None),
        Some(DdKind::Sysout(_) | DdKind::Cards(_)) | None => Err(Cause::P(
            StatementFault::ReferenceToNothing,
        )),
    }
}

/// The key that DSNAME names, none where it makes the DD a DUMMY.
fn naming(spot: &Spot<'_>, set_name: &Coded<SetName>) -> Result<Option<Key>, Cause>
    requires { FewPlanned spot.now }
    ensures { result ≡ named_by (naming (spot_of spot.now) set_name.now) }
{
    match *set_name {
        Coded::NotGiven | Coded::Nullified => Ok(Some(Key::Unnamed {
            step: spot.step,
            dd: spot.dd,
        })),
        Coded::Value(SetName::Null) => Ok(None),
        Coded::Value(SetName::Of(key)) => Ok(Some(key)),
        Coded::Value(SetName::OfDd(reference)) => Ok(led(spot, reference)?.map(
            |source| source.key,
        )),
    }
}

fn volume_by(source: Option<Source>) -> VolumePlan
    ensures { result ≡ volume_by_source source }
{
    match source {
        None => VolumePlan::NotCoded,
        Some(source) => VolumePlan::OfDd {
            step: source.step,
            dd: source.dd,
        },
    }
}

/// The way to the volume of a set; none where a reference leads nowhere.
fn volume_plan(spot: &Spot<'_>, volume: &Coded<VolumeName>) -> VolumePlan
    requires { FewPlanned spot.now }
    ensures { result ≡ volume_plan (spot_of spot.now) volume.now }
{
    match *volume {
        Coded::NotGiven | Coded::Nullified | Coded::Value(VolumeName::Any) => VolumePlan::NotCoded,
        Coded::Value(VolumeName::Serial(serial)) => VolumePlan::Serial(serial),
        Coded::Value(VolumeName::OfName(name)) => VolumePlan::OfName(name),
        Coded::Value(VolumeName::OfDd(reference)) => match led(spot, reference) {
            Ok(source) => volume_by(source),
            Err(_) => VolumePlan::NotCoded,
        },
    }
}

/// The fault of a reference that leads nowhere, or for a set that has a name to a DUMMY.
fn volume_fault(for_set: bool, spot: &Spot<'_>, volume: &Coded<VolumeName>) -> Option<Cause>
    requires { FewPlanned spot.now }
    ensures { result ≡ told (volume_faults for_set (spot_of spot.now) volume.now) }
{
    match *volume {
        Coded::Value(VolumeName::OfDd(reference)) => match led(spot, reference) {
            Ok(Some(_)) => None,
            Ok(None) => when(for_set, Cause::P(StatementFault::ReferenceToNothing)),
            Err(fault) => Some(fault),
        },
        Coded::NotGiven
        | Coded::Nullified
        | Coded::Value(VolumeName::Any | VolumeName::Serial(_) | VolumeName::OfName(_)) => None,
    }
}

/// The fault of a reference that leads nowhere.
fn reference_fault(spot: &Spot<'_>, reference: DdReference) -> Option<Cause>
    requires { FewPlanned spot.now }
    ensures { result ≡ told (faults_of (led (spot_of spot.now) reference)) }
{
    match led(spot, reference) {
        Ok(_) => None,
        Err(fault) => Some(fault),
    }
}

/// The fault of references of which one leads nowhere.
fn references_fault(spot: &Spot<'_>, references: &[DdReference]) -> Option<Cause>
    requires { FewPlanned spot.now }
    ensures { result ≡ told (flat_map (λ reference. faults_of (led (spot_of spot.now) reference)) references.now) }
{
    let mut fault = None;
    for reference in references {
        fault = earlier(fault, reference_fault(spot, *reference));
    }
    fault
}

fn references_of(control_blocks: &Coded<Listed<DdReference>>) -> &[DdReference]
    ensures { result.now ≡ references_of control_blocks.now }
{
    match control_blocks {
        Coded::NotGiven | Coded::Nullified => &[],
        Coded::Value(references) => references.as_slice(),
    }
}

fn disposition_of(coded: &Coded<Disposition>) -> Disposition
    ensures { result ≡ disposition_of coded.now }
{
    match *coded {
        Coded::Value(disposition) => disposition,
        Coded::NotGiven | Coded::Nullified => Disposition {
            status: Status::New,
            normal: None,
            conditional: None,
        },
    }
}

fn is_uncataloged(word: Option<Word>) -> bool
    ensures { result ≡ is_uncataloged word }
{
    match word {
        Some(Word::Uncatlg) => true,
        Some(Word::Delete | Word::Keep | Word::Pass | Word::Catlg) | None => false,
    }
}

fn is_uncataloged_after_abend(word: Option<ConditionalWord>) -> bool
    ensures { result ≡ is_uncataloged_after_abend word }
{
    match word {
        Some(ConditionalWord::Uncatlg) => true,
        Some(ConditionalWord::Delete | ConditionalWord::Keep | ConditionalWord::Catlg) | None =>
            false,
    }
}

/// The fault of UNCATLG on a temporary set.
fn uncataloged_fault(key: Option<Key>, disposition: Disposition) -> Option<Cause>
    ensures { result ≡ told (uncataloged_faults key disposition) }
{
    let key = key?;
    when(
        is_temporary(&key)
            && (is_uncataloged(disposition.normal)
                || is_uncataloged_after_abend(disposition.conditional)),
        Cause::P(StatementFault::ExcludeOneAnother),
    )
}

fn space_of(coded: &Coded<Space>) -> Option<Space>
    ensures { result ≡ space_of coded.now }
{
    match *coded {
        Coded::Value(space) => Some(space),
        Coded::NotGiven | Coded::Nullified => None,
    }
}

fn expiry_of(coded: &Coded<Expiry>) -> Expiry
    ensures { result ≡ expiry_of coded.now }
{
    match *coded {
        Coded::Value(expiry) => expiry,
        Coded::NotGiven | Coded::Nullified => Expiry::NotCoded,
    }
}

fn is_set(dd: &DdCard) -> bool
    ensures { result ≡ is_set (own_kind dd.now) }
{
    match (&dd.word, &dd.sysout) {
        (None, Coded::NotGiven | Coded::Nullified) => true,
        (None, Coded::Value(_)) | (Some(_), _) => false,
    }
}

/// The key of a DD that is for a set.
fn key_of(dd: &DdCard, named: Result<Option<Key>, Cause>) -> Option<Key>
    ensures { result ≡ key_by (is_set (own_kind dd.now)) named }
{
    if is_set(dd) { named.ok()? } else { None }
}

/// A DD that is for no set.
fn setless(dd: &DdCard) -> Result<DdKind, AllocError>
    ensures { IfOk result (λ kind. kind ≡ setless (own_kind dd.now)) }
{
    match &dd.word {
        Some(Positional::Dummy) => Ok(DdKind::Dummy),
        Some(Positional::Cards(cards)) => Ok(DdKind::Cards(cards.share()?)),
        None => match dd.sysout {
            Coded::NotGiven | Coded::Nullified => Ok(DdKind::Dummy),
            Coded::Value(class) => Ok(DdKind::Sysout(class)),
        },
    }
}

fn set_with(spot: &Spot<'_>, dd: &DdCard, key: Key) -> SetPlan
    requires { FewPlanned spot.now }
    ensures { result ≡ set_with (spot_of spot.now) dd.now key }
{
    let Disposition {
        status,
        normal,
        conditional,
    } = disposition_of(&dd.disposition);
    SetPlan {
        key,
        status,
        normal,
        conditional,
        volume: volume_plan(spot, &dd.volume),
        units: None,
        space: space_of(&dd.space),
        expiry: expiry_of(&dd.label),
    }
}

fn naming_fault(named: Result<Option<Key>, Cause>) -> Option<Cause>
    ensures { result ≡ fault_named named }
{
    match named {
        Ok(_) => None,
        Err(fault) => Some(fault),
    }
}

/// The fault of a DD, by what DSNAME names and the key of its set.
fn dd_fault(
    spot: &Spot<'_>,
    dd: &DdCard,
    named: Result<Option<Key>, Cause>,
    key: Option<Key>,
) -> Option<Cause>
    requires { FewPlanned spot.now }
    ensures { result ≡ fault_with (spot_of spot.now) dd.now named key }
{
    let volume = earlier(
        naming_fault(named),
        volume_fault(key.is_some(), spot, &dd.volume),
    );
    let blocks = earlier(
        volume,
        references_fault(spot, references_of(&dd.control_blocks)),
    );
    earlier(
        blocks,
        uncataloged_fault(key, disposition_of(&dd.disposition)),
    )
}

fn is_not_given<T>(coded: &Coded<T>) -> bool
    ensures { OnTrue result (coded.now ≡ NotGiven) }
{
    match coded {
        Coded::NotGiven => true,
        Coded::Nullified | Coded::Value(_) => false,
    }
}

/// Whether a DD says DUMMY, and nothing that names a set or leads to another DD.
fn is_dummy_alone(dd: &DdCard) -> bool
    ensures { OnTrue result (IsDummyAlone dd.now) }
{
    matches!(&dd.word, Some(Positional::Dummy))
        && is_not_given(&dd.set_name)
        && is_not_given(&dd.volume)
        && is_not_given(&dd.control_blocks)
}

/// A DD as it is planned at its place, or the lowest of its faults.
fn plan_of(spot: &Spot<'_>, dd: &DdCard) -> Result<DdPlan, ReadError>
    requires { FewPlanned spot.now }
    ensures { Gives result (plan_of (spot_of spot.now) dd.now) }
{
    let named = naming(spot, &dd.set_name);
    let key = key_of(dd, named);
    if let Some(fault) = dd_fault(spot, dd, named, key) {
        return Err(ReadError::Refused(fault));
    }
    match key {
        Some(key) => Ok(DdPlan {
            name: dd.name,
            kind: DdKind::Set(set_with(spot, dd, key)),
        }),
        None => Ok(DdPlan {
            name: dd.name,
            kind: setless(dd)?,
        }),
    }
}

/// The DDs of the k-th step as they are planned, one after another, or the first refusal, of a DD its lowest. Steps and DDs count from 1.
pub(crate) fn planned_dds(
    alloc: Global,
    steps: &[FlatStep],
    call: Option<usize>,
    k: usize,
    done: &[StepPlan],
    dds: &[DdCard],
) -> Result<Listed<DdPlan>, ReadError>
    requires step { k ≤ MOST_STEPS }
    requires few_dds { length dds.now ≤ MOST_DDS }
    requires few_done { length done.now ≤ MOST_STEPS }
    requires few_dds_each { All (λ s. length s.dds ≤ MOST_DDS) done.now }
    ensures { Gives result (and_then (kinds_from steps.now call k (map kinds_in done.now) [] dds.now) (λ kinds. Ok (dds_with dds.now kinds))) }
{
    let mut planned = Listed::empty(alloc);
    for dd in dds {
        if is_dummy_alone(dd) {
            planned.push(DdPlan {
                name: dd.name,
                kind: DdKind::Dummy,
            })?;
            continue;
        }
        let spot = Spot {
            steps,
            done,
            here: planned.as_slice(),
            call,
            step: k as u16,
            dd: planned.len() as u16 + 1,
        };
        let plan = plan_of(&spot, dd)?;
        planned.push(plan)?;
    }
    Ok(planned)
}
