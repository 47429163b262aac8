//! Copies of DD statements that were read.
ghost use Rattle.std.specs.Prelude.{◌≡◌, IfOk};

use jcl_cards::coded::Coded;
use jcl_dds::dd::{DdCard, Word};
use plain::listed::Listed;
use std::alloc::{AllocError, Global};
use value_core::reference::DdReference;

/// What one keyword codes.
fn copied<T: Copy>(there: &Coded<T>) -> Coded<T>
    ensures { result ≡ there.now }
{
    match there {
        Coded::NotGiven => Coded::NotGiven,
        Coded::Nullified => Coded::Nullified,
        Coded::Value(value) => Coded::Value(*value),
    }
}

/// The references that DCB codes.
fn copied_references(
    alloc: Global,
    there: &Coded<Listed<DdReference>>,
) -> Result<Coded<Listed<DdReference>>, AllocError>
    ensures { IfOk result (λ copy. copy ≡ there.now) }
{
    match there {
        Coded::NotGiven => Ok(Coded::NotGiven),
        Coded::Nullified => Ok(Coded::Nullified),
        Coded::Value(references) => {
            let copies = Listed::copy_of(alloc, references.as_slice())?;
            Ok(Coded::Value(copies))
        }
    }
}

/// The word. Its data cards are shared.
fn copied_word(there: &Option<Word>) -> Result<Option<Word>, AllocError>
    ensures { IfOk result (λ copy. copy ≡ there.now) }
{
    match there {
        None => Ok(None),
        Some(Word::Dummy) => Ok(Some(Word::Dummy)),
        Some(Word::Cards(cards)) => {
            let shared = cards.share()?;
            Ok(Some(Word::Cards(shared)))
        }
    }
}

/// A DD statement that was read, once more.
pub(crate) fn copied_dd(alloc: Global, there: &DdCard) -> Result<DdCard, AllocError>
    ensures { IfOk result (λ copy. copy ≡ there.now) }
{
    let word = copied_word(&there.word)?;
    let control_blocks = copied_references(alloc, &there.control_blocks)?;
    Ok(DdCard {
        qualifier: there.qualifier,
        name: there.name,
        word,
        set_name: copied(&there.set_name),
        disposition: copied(&there.disposition),
        unit: copied(&there.unit),
        volume: copied(&there.volume),
        space: copied(&there.space),
        sysout: copied(&there.sysout),
        dd_name: copied(&there.dd_name),
        label: copied(&there.label),
        control_blocks,
        character_set: copied(&there.character_set),
        forms_control: copied(&there.forms_control),
        output_limit: copied(&there.output_limit),
    })
}
