//! A DD with its override. (GC28-6704, "Overriding, adding, and nullifying parameters on DD statements")
ghost use Rattle.std.specs.Prelude.{◌≡◌, is_some};
ghost use Rattle.operand_core.specs.Faults.{told};
ghost use Rattle.value_core.specs.Reads.{IsRead};
ghost use Rattle.jcl_cards.specs.Keywords.{is_given};
ghost use Rattle.jcl_dds.specs.DdCards.{excludes, has_set_keyword, has_word};
ghost use Rattle.jcl_dds.specs.Dds.{given_on};
ghost use Rattle.jcl_dds.specs.Merging.{by_itself, keyword_by_keyword, merged, overridden, replaces, settled, without_dummy, without_sysout};

use crate::dd::{DdCard, Word, has_data};
use crate::given::{Given, is_excluded, is_given};
use jcl_cards::coded::Coded;
use jcl_plan::fault::{Cause, StatementFault};
use operand_core::fault::when;

/// What one keyword codes, as an override leaves it.
fn overridden<T: Drop>(there: Coded<T>, over: Coded<T>) -> Coded<T>
    ensures { result ≡ overridden there over }
{
    match over {
        Coded::NotGiven => there,
        Coded::Nullified => Coded::NotGiven,
        Coded::Value(value) => Coded::Value(value),
    }
}

/// What one keyword codes on a DD of its own, left where it is.
fn settle<T: Drop>(there: &mut Coded<T>)
    ensures { there.new ≡ settled there.old }
{
    match there {
        Coded::Nullified => *there = Coded::NotGiven,
        Coded::NotGiven | Coded::Value(_) => {}
    }
}

/// The word, as a data set's name that is given leaves it.
fn without_dummy(named: bool, word: Option<Word>) -> Option<Word>
    ensures { result ≡ without_dummy named word }
{
    match word {
        Some(Word::Dummy) if named => None,
        word => word,
    }
}

/// SYSOUT, as a data set's name that is given leaves it.
fn without_sysout(named: bool, class: Coded<u8>) -> Coded<u8>
    ensures { result ≡ without_sysout named class }
{
    if named { Coded::NotGiven } else { class }
}

/// Makes a DD one of its own: what is nullified is not given, and it has no step's name. What is given stays where it is.
pub fn settle_dd(dd: &mut DdCard)
    ensures { dd.new ≡ by_itself dd.old }
{
    dd.qualifier = None;
    settle(&mut dd.set_name);
    settle(&mut dd.disposition);
    settle(&mut dd.unit);
    settle(&mut dd.volume);
    settle(&mut dd.space);
    settle(&mut dd.sysout);
    settle(&mut dd.dd_name);
    settle(&mut dd.label);
    settle(&mut dd.control_blocks);
    settle(&mut dd.character_set);
    settle(&mut dd.forms_control);
    settle(&mut dd.output_limit);
}

/// A DD of its own: what is nullified is not given, and it has no step's name.
pub fn by_itself(dd: DdCard) -> DdCard
    ensures { result ≡ by_itself dd }
{
    let mut dd = dd;
    settle_dd(&mut dd);
    dd
}

fn has_word(dd: &DdCard) -> bool
    ensures { result ≡ has_word dd.now }
{
    dd.word.is_some()
}

/// Whether SYSOUT, a word or DDNAME is given, so that the whole DD is replaced.
fn replaces(over: &DdCard) -> bool
    ensures { result ≡ replaces over.now }
{
    has_word(over) || is_given(&over.sysout) || is_given(&over.dd_name)
}

/// The DD as its override leaves it, keyword by keyword.
fn keyword_by_keyword(dd: DdCard, over: DdCard) -> DdCard
    ensures { result ≡ keyword_by_keyword dd over }
{
    let named = is_given(&over.set_name);
    DdCard {
        qualifier: None,
        name: dd.name,
        word: without_dummy(named, dd.word),
        set_name: overridden(dd.set_name, over.set_name),
        disposition: overridden(dd.disposition, over.disposition),
        unit: overridden(dd.unit, over.unit),
        volume: overridden(dd.volume, over.volume),
        space: overridden(dd.space, over.space),
        sysout: without_sysout(named, overridden(dd.sysout, over.sysout)),
        dd_name: overridden(dd.dd_name, over.dd_name),
        label: overridden(dd.label, over.label),
        control_blocks: overridden(dd.control_blocks, over.control_blocks),
        character_set: overridden(dd.character_set, over.character_set),
        forms_control: overridden(dd.forms_control, over.forms_control),
        output_limit: overridden(dd.output_limit, over.output_limit),
    }
}

/// Whether a keyword other than SYSOUT, DDNAME and DCB is given.
fn has_set_keyword(dd: &DdCard) -> bool
    ensures { result ≡ has_set_keyword dd.now }
{
    is_given(&dd.set_name)
        || is_given(&dd.disposition)
        || is_given(&dd.unit)
        || is_given(&dd.volume)
        || is_given(&dd.space)
        || is_given(&dd.label)
        || is_given(&dd.character_set)
        || is_given(&dd.forms_control)
        || is_given(&dd.output_limit)
}

fn given_on(dd: &DdCard) -> Given
    ensures { result ≡ given_on dd.now }
{
    Given {
        word: has_word(dd),
        cards: has_data(dd),
        set: is_given(&dd.set_name) || is_given(&dd.disposition),
        any: has_set_keyword(dd),
        sysout: is_given(&dd.sysout),
        dd_name: is_given(&dd.dd_name),
    }
}

/// Whether keywords and words of a DD exclude one another.
fn excludes(dd: &DdCard) -> bool
    ensures { result ≡ excludes dd.now }
{
    is_excluded(given_on(dd))
}

/// The DD with its override. It keeps its name.
pub fn merged(dd: DdCard, overriding: DdCard) -> Result<DdCard, Cause>
    ensures { IsRead result (merged dd overriding) }
{
    let name = dd.name;
    if replaces(&overriding) {
        return Ok(DdCard {
            name,
            ..by_itself(overriding)
        });
    }
    let both = keyword_by_keyword(dd, overriding);
    if excludes(&both) {
        return Err(Cause::P(StatementFault::ExcludeOneAnother));
    }
    Ok(both)
}

/// Whether a keyword is given on a DD with its override.
fn is_left<T>(there: &Coded<T>, over: &Coded<T>) -> bool
    ensures { result ≡ is_given (overridden there.now over.now) }
{
    match over {
        Coded::NotGiven => is_given(there),
        Coded::Nullified => false,
        Coded::Value(_) => true,
    }
}

/// Whether a word is left, as a data set's name that is given leaves it.
fn is_word_left(named: bool, word: &Option<Word>) -> bool
    ensures { result ≡ is_some (without_dummy named word.now) }
{
    match word {
        Some(Word::Dummy) => !named,
        Some(Word::Cards(_)) => true,
        None => false,
    }
}

/// Whether a keyword other than SYSOUT, DDNAME and DCB is given on a DD with its override.
fn is_set_keyword_left(there: &DdCard, over: &DdCard) -> bool
    ensures { result ≡ has_set_keyword (keyword_by_keyword there.now over.now) }
{
    is_left(&there.set_name, &over.set_name)
        || is_left(&there.disposition, &over.disposition)
        || is_left(&there.unit, &over.unit)
        || is_left(&there.volume, &over.volume)
        || is_left(&there.space, &over.space)
        || is_left(&there.label, &over.label)
        || is_left(&there.character_set, &over.character_set)
        || is_left(&there.forms_control, &over.forms_control)
        || is_left(&there.output_limit, &over.output_limit)
}

/// What stands on a DD with its override, keyword by keyword.
fn given_on_both(there: &DdCard, over: &DdCard) -> Given
    ensures { result ≡ given_on (keyword_by_keyword there.now over.now) }
{
    let named = is_given(&over.set_name);
    Given {
        word: is_word_left(named, &there.word),
        cards: has_data(there),
        set: is_left(&there.set_name, &over.set_name)
            || is_left(&there.disposition, &over.disposition),
        any: is_set_keyword_left(there, over),
        sysout: !named && is_left(&there.sysout, &over.sysout),
        dd_name: is_left(&there.dd_name, &over.dd_name),
    }
}

/// The fault for which a DD is not merged with its override. Both stay as they are.
pub fn merging_fault(there: &DdCard, overriding: &DdCard) -> Option<Cause>
    ensures { result ≡ told (merged there.now overriding.now).faults }
{
    if replaces(overriding) {
        return None;
    }
    let excluded = is_excluded(given_on_both(there, overriding));
    when(excluded, Cause::P(StatementFault::ExcludeOneAnother))
}
