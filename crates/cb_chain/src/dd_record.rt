//! The record of a DD: SIOT.
ghost use Rattle.std.specs.Prelude.{◌≤◌, ◌<◌, ◌^◌, length};
ghost use Rattle.cb_meaning.specs.Spelled.{cards_of};
ghost use Rattle.cb_chain.specs.Composed.{IsSiot, set_entries, word_entries};
ghost use Rattle.cb_chain.specs.Entries.{AreEntered};
ghost use Rattle.cb_chain.specs.Written.{HoldsJobs};

use crate::dd_words::{
    card_count, class_of, conditional_of, kind_code, marks_of, normal_of, primary_of, secondary_of,
    status_of, units_of, volume_dd_of, volume_of,
};
use crate::head::headed;
use crate::texts::name_text;
use cb_meaning::layout::Layout;
use cb_records::rec::Rec;
use cb_records::siot;
use jcl_plan::plan::{DdKind, DdPlan};

/// Writes what a DD is, and its DISP.
fn write_words(rec: &mut Rec, kind: &DdKind)
    ensures { AreEntered rec.old (word_entries kind.now) rec.new }
{
    rec.write_byte(siot::KIND, kind_code(kind));
    rec.write_byte(siot::DISPOSITION_STATUS, status_of(kind));
    rec.write_byte(siot::NORMAL, normal_of(kind));
    rec.write_byte(siot::CONDITIONAL, conditional_of(kind));
}

/// Writes the volume, the space and the unit of a set.
fn write_set(rec: &mut Rec, kind: &DdKind)
    ensures { AreEntered rec.old (set_entries kind.now) rec.new }
{
    rec.write_byte(siot::VOLUME, volume_of(kind));
    rec.write_part(siot::VOLUME_STEP_AND_DD, &volume_dd_of(kind));
    rec.write_number(siot::PRIMARY, u32::from(primary_of(kind)));
    rec.write_number(siot::SECONDARY, u32::from(secondary_of(kind)));
    rec.write_number(siot::UNITS, u32::from(units_of(kind)));
}

/// The record of a DD, with the numbers of the first record below it and of the next DD's.
pub(crate) fn siot_record(layout: &Layout, job: u16, dd: &DdPlan, below: u32, next: u32) -> Rec
    requires holds { HoldsJobs layout.now }
    requires cards { length (cards_of dd.now.kind) < 256 ^ layout.now.cards.width }
    requires below { below ≤ layout.now.most_records }
    requires next { next ≤ layout.now.most_records }
    ensures { IsSiot layout.now job dd.now below next result }
{
    let mut rec = headed(3, job);
    rec.write_number(layout.next_dd, next);
    rec.write_number(layout.below, below);
    write_words(&mut rec, &dd.kind);
    rec.write_text(siot::NAME, name_text(&dd.name));
    rec.write_byte(siot::MARKS, marks_of(dd));
    rec.write_byte(siot::CLASS, class_of(&dd.kind));
    rec.write_number(layout.cards, card_count(&dd.kind) as u32);
    write_set(&mut rec, &dd.kind);
    rec
}
