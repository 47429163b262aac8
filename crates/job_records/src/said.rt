//! What records say of a step and of a DD, in the words of a plan.
ghost use Rattle.std.specs.Prelude.{◌≡◌, ◌<◌};
ghost use Rattle.cb_meaning.specs.Readings.{name_read, step_test_read};
ghost use Rattle.cb_meaning.specs.Writable.{IsExpiry};
ghost use Rattle.cb_read.specs.Ranges.{IsTestInRange, IsVolumeInRange};
ghost use Rattle.jcl_meaning.specs.Programs.{is_continued, is_named};
ghost use Rattle.jcl_plan.specs.declared.plan.DdKind.TheVariants.{Dummy};
ghost use Rattle.job_records.specs.Fields.{fields_of_jfcb, fields_of_sct, fields_of_siot};
ghost use Rattle.job_records.specs.Said.{AreStepNames, disp_said, expiry_said, primary_said, put_said, release_said, secondary_said, set_passes, source_said, step_said, take_other_said, take_set_said, temporary_said, test_bytes, volume_said};

use cb_read::codes::{after_abend_read, conditional_read, normal_read, status_read};
use cb_read::names::{name_read, name8};
use cb_read::set::{expiry_read, volume_read};
use cb_read::tests_read::step_test_read;
use cb_records::jfcb::JfcbView;
use cb_records::sct::SctView;
use cb_records::siot::{SiotView, has_cards, has_space, is_set, is_sysout, releases};
use cb_walk::texts::{is_blank, trimmed};
use jcl_meaning::words::{is_pass, normal_meaning};
use jcl_plan::plan::Test;
use jname_core::name8::Name8;
use job_text::texts::{
    DispSet, DispText, PutSet, PutText, SourceText, StepText, TakeSet, TakeText,
};

/// A step, of its SCT.
pub(crate) fn step_said(r: &SctView<'_>) -> StepText
    requires { AreStepNames (fields_of_sct r.now.layout.now r.now.bytes.now) }
    ensures { result ≡ step_said (fields_of_sct r.now.layout.now r.now.bytes.now) }
{
    StepText {
        name: name_read(r.name()),
        procedure_step: name_read(r.procedure_step()),
        program: name8(r.program()),
        after_abend: after_abend_read(r.after_abend()),
    }
}

/// A test of a step, of its SCT, from 0.
pub(crate) fn test_said(r: &SctView<'_>, test: usize) -> Test
    requires there { test < 8 }
    requires range { IsTestInRange (step_test_read (test_bytes (fields_of_sct r.now.layout.now r.now.bytes.now) test)) }
    ensures { result ≡ step_test_read (test_bytes (fields_of_sct r.now.layout.now r.now.bytes.now) test) }
{
    let at = 5 * test;
    step_test_read(&r.tests()[at..at + 5])
}

/// Whether a DD has this name, of its SIOT.
pub(crate) fn is_named(r: &SiotView<'_>, name: &Name8) -> bool
    ensures { result ≡ is_named name.now (record { name = name_read (fields_of_siot r.now.layout.now r.now.bytes.now).name; kind = Dummy }) }
{
    let text = r.name();
    if is_blank(text) {
        return false;
    }
    trimmed(text) == name.as_slice()
}

/// Whether a DD continues a concatenation, of its SIOT: it has no name.
pub(crate) fn continues(r: &SiotView<'_>) -> bool
    ensures { result ≡ is_continued (name_read (fields_of_siot r.now.layout.now r.now.bytes.now).name) }
{
    is_blank(r.name())
}

/// The tracks that a set gets where it is made; none where no SPACE is coded.
fn primary_said(s: &SiotView<'_>) -> Option<u16>
    ensures { result ≡ primary_said (fields_of_siot s.now.layout.now s.now.bytes.now) }
{
    if has_space(s.bytes) {
        Some(s.primary())
    } else {
        None
    }
}

/// The tracks that a set gets where it is full; 0 where no SPACE is coded.
fn secondary_said(s: &SiotView<'_>) -> u16
    ensures { result ≡ secondary_said (fields_of_siot s.now.layout.now s.now.bytes.now) }
{
    if has_space(s.bytes) { s.secondary() } else { 0 }
}

/// Whether tracks without records are released.
fn release_said(s: &SiotView<'_>) -> bool
    ensures { result ≡ release_said (fields_of_siot s.now.layout.now s.now.bytes.now) }
{
    if has_space(s.bytes) {
        releases(s.bytes)
    } else {
        false
    }
}

/// What the taking of a set reads, of its SIOT and its JFCB.
pub(crate) fn take_set_said(s: &SiotView<'_>, r: &JfcbView<'_>) -> TakeSet
    requires volume { IsVolumeInRange (volume_said (fields_of_siot s.now.layout.now s.now.bytes.now) (fields_of_jfcb r.now.layout.now r.now.bytes.now)) }
    requires expiry { IsExpiry (expiry_said (fields_of_jfcb r.now.layout.now r.now.bytes.now)) }
    ensures { result ≡ take_set_said (fields_of_siot s.now.layout.now s.now.bytes.now) (fields_of_jfcb r.now.layout.now r.now.bytes.now) }
{
    TakeSet {
        status: status_read(s.status()),
        volume: volume_read(s, r),
        primary: primary_said(s),
        expiry: expiry_read(r.expiry_kind(), r.expiry_days()),
    }
}

/// What the taking of a DD that is no set reads, of its SIOT.
pub(crate) fn take_other_said(s: &SiotView<'_>) -> TakeText
    ensures { result ≡ take_other_said (fields_of_siot s.now.layout.now s.now.bytes.now) }
{
    if is_sysout(s.bytes) {
        TakeText::Sysout(s.class())
    } else if has_cards(s.bytes) {
        TakeText::Cards(s.cards() as usize)
    } else {
        TakeText::Dummy
    }
}

/// What a PUT to a DD reads, of its SIOT.
pub(crate) fn put_said(s: &SiotView<'_>) -> PutText
    ensures { result ≡ put_said (fields_of_siot s.now.layout.now s.now.bytes.now) }
{
    if is_set(s.bytes) {
        PutText::Set(PutSet {
            status: status_read(s.status()),
            secondary: secondary_said(s),
        })
    } else if is_sysout(s.bytes) {
        PutText::Sysout
    } else if has_cards(s.bytes) {
        PutText::Cards
    } else {
        PutText::Dummy
    }
}

/// What the disposition of a DD reads, of its SIOT.
pub(crate) fn disp_said(s: &SiotView<'_>) -> DispText
    ensures { result ≡ disp_said (fields_of_siot s.now.layout.now s.now.bytes.now) }
{
    if is_set(s.bytes) {
        DispText::Set(DispSet {
            normal: normal_read(s.normal()),
            conditional: conditional_read(s.conditional()),
            release: release_said(s),
        })
    } else if is_sysout(s.bytes) {
        DispText::Sysout(s.class())
    } else {
        DispText::Nothing
    }
}

/// What a GET may read of a DD, of its SIOT.
pub(crate) fn source_said(s: &SiotView<'_>) -> SourceText
    ensures { result ≡ source_said (fields_of_siot s.now.layout.now s.now.bytes.now) }
{
    if is_set(s.bytes) {
        SourceText::Set
    } else if is_sysout(s.bytes) {
        SourceText::Nothing
    } else if has_cards(s.bytes) {
        SourceText::Cards(s.cards() as usize)
    } else {
        SourceText::Nothing
    }
}

/// Whether a set is temporary, of its JFCB.
fn temporary_said(r: &JfcbView<'_>) -> bool
    ensures { result ≡ temporary_said (fields_of_jfcb r.now.layout.now r.now.bytes.now) }
{
    r.key_kind() == 4 || r.key_kind() == 5
}

/// Whether a DD may pass the set that it takes, of its SIOT and its JFCB.
pub(crate) fn set_passes(s: &SiotView<'_>, r: &JfcbView<'_>) -> bool
    ensures { result ≡ set_passes (fields_of_siot s.now.layout.now s.now.bytes.now) (fields_of_jfcb r.now.layout.now r.now.bytes.now) }
{
    is_pass(normal_meaning(temporary_said(r), normal_read(s.normal())))
}
