//! The keywords of a DD, read one after another from the last back.
ghost use Rattle.std.specs.Prelude.{◌≡◌, IfOk, OnOk};
ghost use Rattle.std.specs.Option.{option_copied};
ghost use Rattle.list_values.specs.ControlBlocks.{control_blocks};
ghost use Rattle.value_core.specs.Reads.{IsRead};
ghost use Rattle.jcl_cards.specs.Keywords.{coded_text};
ghost use Rattle.jcl_dds.specs.DdCards.{left_out_on_dd};
ghost use Rattle.jcl_dds.specs.DdKeys.{AreRead, CodesNothing, IsPut, IsReadFirst};

use crate::dd::DdCard;
use crate::dd_faults::DdFaults;
use crate::dd_key::{DdKey, dd_key};
use crate::dd_value::{
    OfDdName, OfDisposition, OfLabel, OfSetName, OfSpace, OfSysout, OfUnit, OfVolume, coding_of,
};
use jcl_cards::coded::Coded;
use jcl_cards::value_in::ValueReader;
use jcl_plan::fault::Cause;
use list_values::control_blocks::control_blocks;
use operand_core::fault::earlier;
use operand_core::keyword::unknown_fault;
use operand_core::operand::Keyword;
use plain::listed::Listed;
use std::alloc::{AllocError, Global};
use value_core::reference::DdReference;
use value_core::refusal::ReadError;

/// What DCB codes, or the fault that is told.
type Blocks = Result<Coded<Listed<DdReference>>, Cause>;

/// What a text codes.
fn coded_text<R: ValueReader>(text: Option<&[u8]>) -> Result<Coded<R::Value>, Cause>
    ensures { IsRead result (coded_text R.reads (option_copied text.entry)) }
{
    match text {
        None => Ok(Coded::NotGiven),
        Some([]) => Ok(Coded::Nullified),
        Some(text) => match R::read(text) {
            Ok(value) => Ok(Coded::Value(value)),
            Err(fault) => Err(fault),
        },
    }
}

/// Puts what a text codes before what the later ones of its keyword code.
fn put_value<R: ValueReader>(
    text: Option<&[u8]>,
    value: &mut Coded<R::Value>,
    fault: &mut Option<Cause>,
)
    ensures { IsPut (coded_text R.reads (option_copied text.entry)) value.old fault.old value.new fault.new }
{
    match coded_text::<R>(text) {
        Ok(coded) => *value = coded,
        Err(own) => *fault = earlier(Some(own), *fault),
    }
}

/// What a text codes of DCB, whose references take memory.
fn coded_blocks(alloc: Global, text: Option<&[u8]>) -> Result<Blocks, AllocError>
    ensures { IfOk result (λ blocks. IsRead blocks (coded_text control_blocks (option_copied text.entry))) }
{
    match text {
        None => Ok(Ok(Coded::NotGiven)),
        Some([]) => Ok(Ok(Coded::Nullified)),
        Some(text) => match control_blocks(alloc, text) {
            Ok(references) => Ok(Ok(Coded::Value(references))),
            Err(ReadError::Refused(fault)) => Ok(Err(fault)),
            Err(ReadError::Memory) => Err(AllocError),
        },
    }
}

/// Puts what a text codes of DCB before what the later ones code.
fn put_blocks(
    alloc: Global,
    text: Option<&[u8]>,
    value: &mut Coded<Listed<DdReference>>,
    fault: &mut Option<Cause>,
) -> Result<(), AllocError>
    ensures { OnOk result (IsPut (coded_text control_blocks (option_copied text.entry)) value.old fault.old value.new fault.new) }
{
    match coded_blocks(alloc, text)? {
        Ok(coded) => *value = coded,
        Err(own) => *fault = earlier(Some(own), *fault),
    }
    Ok(())
}

fn is_left_out(key: &[u8]) -> bool
    ensures { result ≡ left_out_on_dd key.now }
{
    key == b"AFF".as_slice()
        || key == b"SEP".as_slice()
        || key == b"SPLIT".as_slice()
        || key == b"SUBALLOC".as_slice()
        || key == b"QNAME".as_slice()
        || key == b"DYNAM".as_slice()
        || key == b"TERM".as_slice()
}

/// Puts what a keyword codes before what those behind it code.
fn put_keyword(
    alloc: Global,
    keyword: &Keyword<'_>,
    card: &mut DdCard,
    faults: &mut DdFaults,
) -> Result<(), AllocError>
    ensures { OnOk result (IsReadFirst keyword.now card.old faults.old card.new faults.new) }
{
    let text = keyword.value();
    match dd_key(keyword.key()) {
        DdKey::SetName => {
            put_value::<OfSetName>(text, &mut card.set_name, &mut faults.set_name);
            Ok(())
        }
        DdKey::Disposition => {
            put_value::<OfDisposition>(text, &mut card.disposition, &mut faults.disposition);
            Ok(())
        }
        DdKey::Unit => {
            put_value::<OfUnit>(text, &mut card.unit, &mut faults.unit);
            Ok(())
        }
        DdKey::Volume => {
            put_value::<OfVolume>(text, &mut card.volume, &mut faults.volume);
            Ok(())
        }
        DdKey::Space => {
            put_value::<OfSpace>(text, &mut card.space, &mut faults.space);
            Ok(())
        }
        DdKey::Sysout => {
            put_value::<OfSysout>(text, &mut card.sysout, &mut faults.sysout);
            Ok(())
        }
        DdKey::DdName => {
            put_value::<OfDdName>(text, &mut card.dd_name, &mut faults.dd_name);
            Ok(())
        }
        DdKey::Label => {
            put_value::<OfLabel>(text, &mut card.label, &mut faults.label);
            Ok(())
        }
        DdKey::ControlBlocks => put_blocks(
            alloc,
            text,
            &mut card.control_blocks,
            &mut faults.control_blocks,
        ),
        DdKey::CharacterSet => {
            card.character_set = coding_of(text);
            Ok(())
        }
        DdKey::FormsControl => {
            card.forms_control = coding_of(text);
            Ok(())
        }
        DdKey::OutputLimit => {
            card.output_limit = coding_of(text);
            Ok(())
        }
        DdKey::Other => {
            let unknown = unknown_fault(is_left_out(keyword.key()));
            faults.unknown = earlier(Some(unknown), faults.unknown);
            Ok(())
        }
    }
}

/// Reads these keywords into a card that codes nothing, and tells their faults.
pub(crate) fn read_keywords(
    alloc: Global,
    keywords: &[Keyword<'_>],
    card: &mut DdCard,
) -> Result<DdFaults, AllocError>
    requires { CodesNothing card.old }
    ensures { IfOk result (λ faults. AreRead card.new faults keywords.now) }
{
    let mut faults = DdFaults {
        set_name: None,
        disposition: None,
        unit: None,
        volume: None,
        space: None,
        sysout: None,
        dd_name: None,
        label: None,
        control_blocks: None,
        unknown: None,
    };
    let mut at = keywords.len();
    while at > 0 {
        at -= 1;
        put_keyword(alloc, &keywords[at], card, &mut faults)?;
    }
    Ok(faults)
}
