//! Texts of a record: names, serials, cards, zeros.
ghost use Rattle.std.specs.Prelude.{◌≡◌, ◌==◌, ◌||◌, ◌&&◌, not};
ghost use Rattle.std.specs.List.{list_all};
ghost use Rattle.jname_core.specs.Generations.{has_generation_form};
ghost use Rattle.jcl_plan.specs.Texts.{trimmed};
ghost use Rattle.cb_meaning.specs.Walks.{are_printable, is_blank, is_ds_name, is_name, is_name_or_blank, is_serial};

use jcl_plan::text::trimmed_len;
use jname_core::ds_name::{DsName, faults_are_exact, read_base, read_ds_name};
use jname_core::name8::Name8;
use jname_core::serial::Serial;

/// A text without the blanks at its end.
pub fn trimmed(text: &[u8]) -> &[u8]
    ensures { result.now ≡ trimmed text.now }
{
    &text[..trimmed_len(text)]
}

/// Whether there are blanks alone.
pub fn is_blank(text: &[u8]) -> bool
    ensures { result ≡ is_blank text.now }
{
    text.iter().all(|c| *c == b' ')
}

/// Whether there are zeros alone.
pub(crate) fn is_zero(bytes: &[u8]) -> bool
    ensures { result ≡ list_all (λ b. b == 0) bytes.now }
{
    bytes.iter().all(|b| *b == 0)
}

/// Whether each character can be printed.
pub(crate) fn are_printable(text: &[u8]) -> bool
    ensures { result ≡ are_printable text.now }
{
    text.iter().all(|c| b' ' <= *c && *c <= b'~')
}

/// Whether it is a name of 1 to 8 characters and blanks behind it.
pub(crate) fn is_name(text: &[u8]) -> bool
    ensures { result ≡ is_name text.now }
{
    faults_are_exact();
    Name8::read(trimmed(text)).is_ok()
}

/// Whether it is such a name, or blank.
pub(crate) fn is_name_or_blank(text: &[u8]) -> bool
    ensures { result ≡ is_name_or_blank text.now }
{
    is_blank(text) || is_name(text)
}

/// Whether it is a data set name, and blanks behind it.
pub(crate) fn is_ds_name(text: &[u8]) -> bool
    ensures { result ≡ is_ds_name 44 text.now }
{
    faults_are_exact();
    read_ds_name(trimmed(text)).is_ok()
}

/// Whether it is the base of a group, and blanks behind it.
pub(crate) fn is_base(text: &[u8]) -> bool
    ensures { result ≡ is_ds_name 35 text.now }
{
    faults_are_exact();
    read_base(trimmed(text)).is_ok()
}

fn has_generation(name: &DsName) -> bool
    ensures { result ≡ has_generation_form name.now }
{
    name.generation_of().is_some()
}

/// Whether it is no data set name, or one that has the form of a generation.
pub(crate) fn is_no_plain_name(text: &[u8]) -> bool
    ensures { result ≡ (not (is_ds_name 44 text.now) || has_generation_form (trimmed text.now)) }
{
    faults_are_exact();
    match read_ds_name(trimmed(text)) {
        Ok(name) => has_generation(&name),
        Err(_) => true,
    }
}

/// Whether it is no data set name, or one that has not the form of a generation.
pub(crate) fn is_no_generation(text: &[u8]) -> bool
    ensures { result ≡ not (is_ds_name 44 text.now && has_generation_form (trimmed text.now)) }
{
    faults_are_exact();
    match read_ds_name(trimmed(text)) {
        Ok(name) => !has_generation(&name),
        Err(_) => true,
    }
}

/// Whether it is a volume's serial, and blanks behind it.
#[tactic(auto, using(crate::proofs::Serials::kept_from_serial, crate::proofs::Serials::kept_from_none))]
pub(crate) fn is_serial(text: &[u8]) -> bool
    ensures { result ≡ is_serial text.now }
{
    match Serial::read(trimmed(text)) {
        Some(_) => true,
        None => false,
    }
}
