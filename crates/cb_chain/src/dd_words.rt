//! What the record of a DD says of each kind, in bytes and numbers.
ghost use Rattle.std.specs.Prelude.{◌≡◌, ◌+◌, ◌++◌, ◌⊎◌, is_some, length};
ghost use Rattle.cb_meaning.specs.Codes.{conditional_code, mark, normal_code, or_zero, status_code};
ghost use Rattle.cb_meaning.specs.Fields.{two_bytes};
ghost use Rattle.cb_meaning.specs.Spelled.{cards_of, class_of, kind_code, marks_of, of_set, of_space, set_of, volume_code, volume_dd_bytes, volume_dd_of};

use crate::codes::{conditional_code, normal_code, status_code};
use crate::texts::two_bytes;
use jcl_plan::plan::{DdKind, DdPlan, Space, VolumePlan};

/// 1 a set, 2 a dummy, 3 SYSOUT, 4 cards.
pub(crate) fn kind_code(kind: &DdKind) -> u8
    ensures { result ≡ kind_code kind.now }
{
    match kind {
        DdKind::Set(_) => 1,
        DdKind::Dummy => 2,
        DdKind::Sysout(_) => 3,
        DdKind::Cards(_) => 4,
    }
}

pub(crate) fn status_of(kind: &DdKind) -> u8
    ensures { result ≡ of_set (set_of kind.now) (λ p. status_code p.status) }
{
    match kind {
        DdKind::Set(p) => status_code(p.status),
        DdKind::Dummy => 0,
        DdKind::Sysout(_) => 0,
        DdKind::Cards(_) => 0,
    }
}

pub(crate) fn normal_of(kind: &DdKind) -> u8
    ensures { result ≡ of_set (set_of kind.now) (λ p. normal_code p.normal) }
{
    match kind {
        DdKind::Set(p) => normal_code(p.normal),
        DdKind::Dummy => 0,
        DdKind::Sysout(_) => 0,
        DdKind::Cards(_) => 0,
    }
}

pub(crate) fn conditional_of(kind: &DdKind) -> u8
    ensures { result ≡ of_set (set_of kind.now) (λ p. conditional_code p.conditional) }
{
    match kind {
        DdKind::Set(p) => conditional_code(p.conditional),
        DdKind::Dummy => 0,
        DdKind::Sysout(_) => 0,
        DdKind::Cards(_) => 0,
    }
}

/// 4 where SPACE is coded, and 2 with RLSE.
fn space_marks(space: &Option<Space>) -> u8
    ensures { result ≡ mark (is_some space.now) 4 + of_space space.now (λ s. mark s.release 2) }
{
    match space {
        None => 0,
        Some(s) => { if s.release { 6 } else { 4 } }
    }
}

fn set_marks(kind: &DdKind) -> u8
    ensures value { result ≡ of_set (set_of kind.now) (λ p. mark (is_some p.space) 4 + of_space p.space (λ s. mark s.release 2)) }
    ensures even { (result ≡ 0) ⊎ ((result ≡ 4) ⊎ (result ≡ 6)) }
{
    match kind {
        DdKind::Set(p) => space_marks(&p.space),
        DdKind::Dummy => 0,
        DdKind::Sysout(_) => 0,
        DdKind::Cards(_) => 0,
    }
}

/// 1 in a concatenation, 2 with RLSE, 4 where SPACE is coded, added.
pub(crate) fn marks_of(dd: &DdPlan) -> u8
    ensures { result ≡ marks_of dd.now }
{
    if dd.name.is_none() {
        1 + set_marks(&dd.kind)
    } else {
        set_marks(&dd.kind)
    }
}

/// The class of SYSOUT.
pub(crate) fn class_of(kind: &DdKind) -> u8
    ensures { result ≡ class_of kind.now }
{
    match kind {
        DdKind::Set(_) => 0,
        DdKind::Dummy => 0,
        DdKind::Sysout(class) => *class,
        DdKind::Cards(_) => 0,
    }
}

/// How many cards there are.
pub(crate) fn card_count(kind: &DdKind) -> usize
    ensures { result ≡ length (cards_of kind.now) }
{
    match kind {
        DdKind::Set(_) => 0,
        DdKind::Dummy => 0,
        DdKind::Sysout(_) => 0,
        DdKind::Cards(cards) => cards.len(),
    }
}

fn volume_code(volume: &VolumePlan) -> u8
    ensures { result ≡ volume_code volume.now }
{
    match volume {
        VolumePlan::NotCoded => 0,
        VolumePlan::Serial(_) => 1,
        VolumePlan::OfName(_) => 2,
        VolumePlan::OfDd { step: _, dd: _ } => 3,
    }
}

/// 0 not coded, 1 a serial, 2 by a name, 3 by a DD.
pub(crate) fn volume_of(kind: &DdKind) -> u8
    ensures { result ≡ of_set (set_of kind.now) (λ p. volume_code p.volume) }
{
    match kind {
        DdKind::Set(p) => volume_code(&p.volume),
        DdKind::Dummy => 0,
        DdKind::Sysout(_) => 0,
        DdKind::Cards(_) => 0,
    }
}

/// Two numbers of two bytes.
pub(crate) fn pair_bytes(first: u16, second: u16) -> [u8; 4]
    ensures { result ≡ two_bytes first ++ two_bytes second }
{
    let [first_high, first_low] = two_bytes(first);
    let [second_high, second_low] = two_bytes(second);
    [first_high, first_low, second_high, second_low]
}

fn volume_dd_bytes(volume: &VolumePlan) -> [u8; 4]
    ensures { result ≡ volume_dd_bytes volume.now }
{
    match volume {
        VolumePlan::NotCoded => [0; 4],
        VolumePlan::Serial(_) => [0; 4],
        VolumePlan::OfName(_) => [0; 4],
        VolumePlan::OfDd { step, dd } => pair_bytes(*step, *dd),
    }
}

/// The step and the DD that VOL refers to.
pub(crate) fn volume_dd_of(kind: &DdKind) -> [u8; 4]
    ensures { result ≡ volume_dd_of (set_of kind.now) }
{
    match kind {
        DdKind::Set(p) => volume_dd_bytes(&p.volume),
        DdKind::Dummy => [0; 4],
        DdKind::Sysout(_) => [0; 4],
        DdKind::Cards(_) => [0; 4],
    }
}

/// Primary space in tracks.
pub(crate) fn primary_of(kind: &DdKind) -> u16
    ensures { result ≡ of_set (set_of kind.now) (λ p. of_space p.space (λ s. s.primary)) }
{
    match kind {
        DdKind::Set(p) => match p.space {
            Some(s) => s.primary,
            None => 0,
        },
        DdKind::Dummy => 0,
        DdKind::Sysout(_) => 0,
        DdKind::Cards(_) => 0,
    }
}

/// Secondary space in tracks.
pub(crate) fn secondary_of(kind: &DdKind) -> u16
    ensures { result ≡ of_set (set_of kind.now) (λ p. of_space p.space (λ s. s.secondary)) }
{
    match kind {
        DdKind::Set(p) => match p.space {
            Some(s) => s.secondary,
            None => 0,
        },
        DdKind::Dummy => 0,
        DdKind::Sysout(_) => 0,
        DdKind::Cards(_) => 0,
    }
}

/// The list of volumes by its number, 0 for none.
pub(crate) fn units_of(kind: &DdKind) -> u16
    ensures { result ≡ of_set (set_of kind.now) (λ p. or_zero p.units) }
{
    match kind {
        DdKind::Set(p) => match p.units {
            Some(units) => units,
            None => 0,
        },
        DdKind::Dummy => 0,
        DdKind::Sysout(_) => 0,
        DdKind::Cards(_) => 0,
    }
}
