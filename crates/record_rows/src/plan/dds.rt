//! The line of a DD.
ghost use Rattle.std.specs.Prelude.{◌≡◌, ◌<◌, length};
ghost use Rattle.job_text.specs.Places.{dd_at, step_at};
ghost use Rattle.job_text.specs.Texts.{cards_in};

use crate::plan::tell_name;
use jcl_plan::plan::{ConditionalWord, DdKind, Expiry, SetPlan, Status, VolumePlan, Word};
use jname_core::ds_name::DsName;
use jname_core::key::{Key, Sign};
use job_text::text::JobText;
use job_text::texts::{DispSet, DispText, PutSet, PutText, TakeSet, TakeText};
use row_table::told::Told;

fn status_number(status: &Status) -> u64 {
    match status {
        Status::New => 1,
        Status::Old => 2,
        Status::Shr => 3,
        Status::Mod => 4,
    }
}

fn word_number(word: &Option<Word>) -> u64 {
    match word {
        None => 0,
        Some(Word::Delete) => 1,
        Some(Word::Keep) => 2,
        Some(Word::Pass) => 3,
        Some(Word::Catlg) => 4,
        Some(Word::Uncatlg) => 5,
    }
}

fn conditional_number(word: &Option<ConditionalWord>) -> u64 {
    match word {
        None => 0,
        Some(ConditionalWord::Delete) => 1,
        Some(ConditionalWord::Keep) => 2,
        Some(ConditionalWord::Catlg) => 4,
        Some(ConditionalWord::Uncatlg) => 5,
    }
}

/// A text without the blanks at its end.
fn trimmed(text: &[u8]) -> &[u8] {
    match text.iter().rposition(|b| *b != b' ') {
        None => &text[..0],
        Some(last) => &text[..text.len().min(last + 1)],
    }
}

/// So many cards of a DD, with a blank between two of them. Steps and DDs count from 0.
fn tell_cards<T: JobText>(told: &mut Told, step: usize, dd: usize, count: usize, text: &T)
    requires reads { T.reads text.now }
    requires step { step < length (T.plan text.now).steps }
    requires dd { dd < length (step_at (T.plan text.now).steps step).dds }
    requires cards { count ≡ length (cards_in (dd_at (step_at (T.plan text.now).steps step).dds dd).kind) }
{
    for place in 0..count {
        if place != 0 {
            told.word(b" ");
        }
        told.word(trimmed(text.card(step, dd, place).as_slice()));
    }
}

/// What a DD is, the class of its output and its cards.
fn tell_kind<T: JobText>(told: &mut Told, step: usize, dd: usize, text: &T)
    requires reads { T.reads text.now }
    requires step { step < length (T.plan text.now).steps }
    requires dd { dd < length (step_at (T.plan text.now).steps step).dds }
{
    match text.take_text(step, dd) {
        TakeText::Sysout(class) => {
            told.two(b" kind sysout sysclass ", &[class]);
            told.word(b" cards ()")
        }
        TakeText::Dummy => told.word(b" kind dummy sysclass  cards ()"),
        TakeText::Cards(count) => {
            told.word(b" kind cards sysclass  cards (");
            tell_cards(told, step, dd, count, text);
            told.word(b")")
        }
        TakeText::Set(_) => told.word(b" kind set sysclass  cards ()"),
    }
}

/// A set by its name, which may be that of a generation.
fn tell_named(told: &mut Told, name: &DsName) {
    if name.generation_of().is_some() {
        told.two(b"(abs ", name.as_slice());
    } else {
        told.two(b"(perm ", name.as_slice());
    }
    told.word(b")")
}

/// A generation by its number from the newest.
fn tell_relative(told: &mut Told, base: &DsName, sign: &Sign, amount: u8) {
    told.two(b"(rel ", base.as_slice());
    match sign {
        Sign::Plus => told.numbered(b" 0 ", u64::from(amount)),
        Sign::Minus => told.numbered(b" 1 ", u64::from(amount)),
    }
    told.word(b")")
}

/// A word and two numbers, in parentheses.
fn tell_place(told: &mut Told, word: &[u8], step: u16, dd: u16) {
    told.numbered(word, u64::from(step));
    told.numbered(b" ", u64::from(dd));
    told.word(b")")
}

fn tell_key(told: &mut Told, key: &Key) {
    match key {
        Key::Named(name) => tell_named(told, name),
        Key::Relative { base, sign, amount } => tell_relative(told, base, sign, *amount),
        Key::Temporary(name) => {
            told.two(b"(temp ", name.as_slice());
            told.word(b")")
        }
        Key::Unnamed { step, dd } => tell_place(told, b"(unnamed ", *step, *dd),
    }
}

fn tell_volume(told: &mut Told, volume: &VolumePlan) {
    match volume {
        VolumePlan::NotCoded => told.word(b"-"),
        VolumePlan::Serial(serial) => {
            told.two(b"(ser ", serial.as_slice());
            told.word(b")")
        }
        VolumePlan::OfName(name) => {
            told.two(b"(refname ", name.as_slice());
            told.word(b")")
        }
        VolumePlan::OfDd { step, dd } => tell_place(told, b"(refdd ", *step, *dd),
    }
}

/// The space of a set, where it is coded.
fn tell_space(told: &mut Told, primary: Option<u16>, secondary: u16, release: bool) {
    let Some(primary) = primary else {
        return told.word(b" space no primary 0 secondary 0 rlse no");
    };
    told.numbered(b" space yes primary ", u64::from(primary));
    told.numbered(b" secondary ", u64::from(secondary));
    told.word(if release { b" rlse yes" } else { b" rlse no" })
}

fn tell_expiry(told: &mut Told, expiry: &Expiry) {
    match expiry {
        Expiry::NotCoded => told.word(b"-"),
        Expiry::Day(day) => {
            told.numbered(b"(day ", u64::from(day.number()));
            told.word(b")")
        }
        Expiry::DaysFromToday(days) => {
            told.numbered(b"(ret ", u64::from(*days));
            told.word(b")")
        }
    }
}

/// The status and the words of a set, and its name.
fn tell_disposition(told: &mut Told, take: &TakeSet, disp: &DispSet, set: &SetPlan) {
    told.numbered(b" status ", status_number(&take.status));
    told.numbered(b" normal ", word_number(&disp.normal));
    told.numbered(b" cond ", conditional_number(&disp.conditional));
    told.word(b" setkey ");
    tell_key(told, &set.key)
}

/// Where a set lies or is to be made.
fn tell_room(told: &mut Told, take: &TakeSet, put: &PutSet, disp: &DispSet, set: &SetPlan) {
    told.word(b" volume ");
    tell_volume(told, &take.volume);
    tell_space(told, take.primary, put.secondary, disp.release);
    told.numbered(b" unit ", u64::from(set.units.unwrap_or(0)));
    told.word(b" expiry ");
    tell_expiry(told, &take.expiry)
}

/// What is said of a set, or that nothing is said.
fn tell_set<T: JobText>(told: &mut Told, step: usize, dd: usize, kind: &DdKind, text: &T)
    requires reads { T.reads text.now }
    requires step { step < length (T.plan text.now).steps }
    requires dd { dd < length (step_at (T.plan text.now).steps step).dds }
{
    let DdKind::Set(set) = kind else {
        told.word(b" status 0 normal 0 cond 0 setkey - volume -");
        return told.word(b" space no primary 0 secondary 0 rlse no unit 0 expiry -");
    };
    match (
        text.take_text(step, dd),
        text.put_text(step, dd),
        text.disp_text(step, dd),
    ) {
        (TakeText::Set(take), PutText::Set(put), DispText::Set(disp)) => {
            tell_disposition(told, &take, &disp, set);
            tell_room(told, &take, &put, &disp, set)
        }
        _ => told.word(b" OTHERWISE"),
    }
}

/// The line of a DD. Steps and DDs count from 0.
pub(crate) fn tell_dd<T: JobText>(told: &mut Told, step: usize, dd: usize, kind: &DdKind, text: &T)
    requires reads { T.reads text.now }
    requires step { step < length (T.plan text.now).steps }
    requires dd { dd < length (step_at (T.plan text.now).steps step).dds }
{
    told.word(b" dd ");
    told.numbered(b"", (dd as u64).saturating_add(1));
    told.word(b" name ");
    if text.continues(step, dd) {
        told.word(b"-");
    } else {
        tell_name(told, &text.dd_name(step, dd));
    }
    tell_kind(told, step, dd, text);
    tell_set(told, step, dd, kind, text);
    told.end_line()
}
