//! What becomes of a set at its disposition and at the job's end. (DISP parameter; LEFT and BACK are this profile's)
ghost use Rattle.std.specs.Prelude.{◌≡◌};
ghost use Rattle.jcl_meaning.specs.Dispositions.{as_taken, back_word, catalogs_name, deletes, does, fault_in, is_deleted_back, is_entered_on, left_word, left_word_after, uncatalogs};

use jcl_meaning::names::is_temporary;
use jcl_meaning::state::{Change, Disposed, Passed, TakenSet};
use jcl_meaning::words::omitted;
use jcl_plan::fault::Fault;
use jcl_plan::plan::Word;
use jcl_plan::words::{BackWord, DispWord};
use jname_core::serial::Serial;

/// A word that passes nothing, and what it changes.
pub fn does(word: DispWord, change: Change) -> Disposed
    ensures { result ≡ does word change }
{
    Disposed {
        word,
        change,
        passes: false,
    }
}

/// What CATLG does to a name that is no generation, by the volume that is entered for it.
pub fn catalogs_name(there: Option<Serial>, serial: Serial) -> Disposed
    ensures { result ≡ catalogs_name there serial }
{
    match there {
        None => does(DispWord::Cataloged, Change::Catalog),
        Some(there) => {
            if there.as_slice() == serial.as_slice() {
                does(DispWord::Cataloged, Change::Nothing)
            } else {
                does(DispWord::F3, Change::Nothing)
            }
        }
    }
}

/// What DELETE does, where the set stays or not, and where its entry goes with it or not.
pub fn deletes(stays: bool, ours: bool) -> Disposed
    ensures { result ≡ deletes stays ours }
{
    if stays {
        does(DispWord::Unexpired, Change::Nothing)
    } else if ours {
        does(DispWord::Deleted, Change::ScratchAndUncatalog)
    } else {
        does(DispWord::Deleted, Change::Scratch)
    }
}

/// What UNCATLG does, where the set is entered here or not.
pub fn uncatalogs(here: bool) -> Disposed
    ensures { result ≡ uncatalogs here }
{
    if here {
        does(DispWord::Uncataloged, Change::Uncatalog)
    } else {
        does(DispWord::F4, Change::Nothing)
    }
}

/// Whether this volume is the one that is entered.
pub fn is_entered_on(there: Option<Serial>, serial: Serial) -> bool
    ensures { result ≡ is_entered_on there serial }
{
    match there {
        None => false,
        Some(there) => there.as_slice() == serial.as_slice(),
    }
}

/// The fault that a word is, of a job that goes on.
pub fn fault_in(word: DispWord) -> Option<Fault>
    ensures { result ≡ fault_in word }
{
    match word {
        DispWord::F3 => Some(Fault::F3),
        DispWord::F4 => Some(Fault::F4),
        DispWord::F8 => Some(Fault::F8),
        DispWord::Kept => None,
        DispWord::Deleted => None,
        DispWord::Passed => None,
        DispWord::Cataloged => None,
        DispWord::Uncataloged => None,
        DispWord::Unexpired => None,
        DispWord::Spooled(_) => None,
        DispWord::Nothing => None,
    }
}

fn left_word_after(later: bool, conditional: Option<Word>, made: bool) -> Word
    ensures { result ≡ left_word_after later conditional made }
{
    match conditional {
        Some(word) if later => word,
        _ => omitted(made),
    }
}

/// What is done at the job's end with a passed set that was not received.
pub fn left_word(temporary: bool, later: bool, conditional: Option<Word>, made: bool) -> Word
    ensures { result ≡ left_word temporary later conditional made }
{
    if temporary {
        Word::Delete
    } else {
        left_word_after(later, conditional, made)
    }
}

/// A passed set as one that was taken, of which the DD at hand made none.
pub fn as_taken(p: &Passed) -> TakenSet
    ensures { result ≡ as_taken p.now }
{
    TakenSet {
        key: p.key,
        serial: p.serial,
        made: p.made,
        by_catalog: p.by_catalog,
        made_here: false,
    }
}

/// Whether a set is deleted when it is given back at a fault.
pub fn is_deleted_back(t: &TakenSet) -> bool
    ensures { result ≡ is_deleted_back t.now }
{
    t.made || is_temporary(&t.key)
}

/// The word of a set that is given back.
pub fn back_word(deleted: bool) -> BackWord
    ensures { result ≡ back_word deleted }
{
    if deleted {
        BackWord::Deleted
    } else {
        BackWord::Kept
    }
}
