//! The DD statement. (GC28-6704, "DD statement")
ghost use Rattle.std.specs.Prelude.{◌≡◌, None, count_by, nat_lt, true, IfOk};
ghost use Rattle.std.specs.Option.{option_copied};
ghost use Rattle.operand_core.specs.Faults.{told};
ghost use Rattle.operand_core.specs.Operands.{Operand as Denoted};
ghost use Rattle.operand_core.specs.Reading.{IsOperand};
ghost use Rattle.value_core.specs.Reads.{Gives, IsRead, answer};
ghost use Rattle.jcl_dds.specs.Beside.{GivesInto};
ghost use Rattle.jcl_dds.specs.DdCards.{behind_period, dd_card, dd_name_faults, dd_name_of, dd_with, has_data, is_read_word, is_word};
ghost use Rattle.jcl_dds.specs.DdCards.{positional_faults, qualifier_of, word_of};
ghost use Rattle.jcl_dds.specs.DdKeys.{CodesNothing};
ghost use Rattle.jcl_dds.specs.Dds.{dd_names, excluded_faults, qualified_names};

use crate::dd_keywords::read_keywords;
use crate::given::{excludes_in, is_read_word, is_word};
use card_core::statement::DataCard;
use jcl_cards::coded::Coded;
use jcl_cards::rules::{Spelling, long_operand, twice_fault};
use jcl_plan::fault::{Cause, StatementFault};
use jcl_plan::plan::{Expiry, Space};
use jname_core::name8::{Name8, UnitName};
use operand_core::fault::{earlier, name_fault, when, written_name_fault};
use operand_core::keyword::is_long;
use operand_core::operand::{Keyword, Operand, Positional, first_of, operand_of};
use operand_core::qualified::{head_len, head_of, is_qualified};
use plain::listed::Listed;
use plain::shared::Shared;
use std::alloc::{AllocError, Global};
use value_core::reads::{both, name as read_name};
use value_core::reference::DdReference;
use value_core::refusal::ReadError;
use value_core::set::{Disposition, SetName, VolumeName};

/// The positional operand of a DD.
#[derive(Drop)]
pub enum Word {
    /// `*` or DATA, with the cards behind the statement.
    Cards(Shared<DataCard>),
    Dummy,
}

/// A DD statement that was read, or one with its override: each keyword by itself.
#[derive(Drop)]
pub struct DdCard {
    /// The step of a procedure whose DD it overrides, where one is named.
    pub qualifier: Option<Name8>,
    /// One without a name continues the concatenation of the one before.
    pub name: Option<Name8>,
    pub word: Option<Word>,
    /// DSNAME.
    pub set_name: Coded<SetName>,
    /// DISP.
    pub disposition: Coded<Disposition>,
    /// UNIT.
    pub unit: Coded<UnitName>,
    /// VOLUME.
    pub volume: Coded<VolumeName>,
    /// SPACE.
    pub space: Coded<Space>,
    /// SYSOUT: its class.
    pub sysout: Coded<u8>,
    /// DDNAME.
    pub dd_name: Coded<Name8>,
    /// LABEL: until when a set that is made is kept.
    pub label: Coded<Expiry>,
    /// DCB: its references.
    pub control_blocks: Coded<Listed<DdReference>>,
    /// UCS, which is not looked at.
    pub character_set: Coded<()>,
    /// FCB, which is not looked at.
    pub forms_control: Coded<()>,
    /// OUTLIM, which is not looked at.
    pub output_limit: Coded<()>,
}

/// What stands behind the first period.
fn behind_period(name: &[u8]) -> &[u8]
    ensures { result.now ≡ behind_period name.now }
{
    let (_, behind) = name.split_at(head_len(name));
    match behind.split_first() {
        Some((_, tail)) => tail,
        None => behind,
    }
}

/// The names of a qualified DD.
fn qualified_names(name: &[u8]) -> Result<(Name8, Name8), Cause>
    ensures { IsRead result (qualified_names name.now) }
{
    both(read_name(head_of(name)), read_name(behind_period(name)))
}

/// The name of the step that is overridden, and that of the DD.
fn dd_names(name: &[u8]) -> Result<(Option<Name8>, Option<Name8>), Cause>
    ensures { IsRead result (dd_names name.now) }
{
    if is_qualified(name) {
        let (step, dd) = qualified_names(name)?;
        return Ok((Some(step), Some(dd)));
    }
    if name.is_empty() {
        return Ok((None, None));
    }
    let dd = read_name(name)?;
    Ok((None, Some(dd)))
}

/// The fault of a DD's name, or of one of its two where it is qualified.
#[tactic(auto, using(operand_core::proofs::Told::told_append))]
pub fn dd_name_fault(name: &[u8]) -> Option<Cause>
    ensures { result ≡ told (dd_name_faults name.now) }
{
    if is_qualified(name) {
        earlier(name_fault(head_of(name)), name_fault(behind_period(name)))
    } else {
        written_name_fault(name)
    }
}

fn positional_fault(part: Option<&[u8]>) -> Option<Cause>
    ensures { result ≡ told (positional_faults (option_copied part.entry)) }
{
    match part {
        None => None,
        Some(text) => {
            if is_word(text) {
                None
            } else if text == b"DYNAM".as_slice() {
                Some(Cause::P(StatementFault::LeftOut))
            } else {
                Some(Cause::P(StatementFault::BadValue))
            }
        }
    }
}

/// The positional operand, with the cards behind the statement.
fn word_of(
    alloc: Global,
    part: Option<&[u8]>,
    cards: Option<Listed<DataCard>>,
) -> Result<Option<Word>, AllocError>
    ensures { IfOk result (λ word. word ≡ word_of (option_copied part.entry) cards) }
{
    let Some(text) = part else {
        return Ok(None);
    };
    match text {
        b"DUMMY" => Ok(Some(Word::Dummy)),
        b"*" | b"DATA" => {
            let cards = cards.unwrap_or(Listed::empty(alloc));
            Ok(Some(Word::Cards(Shared::new(alloc, cards)?)))
        }
        _ => Ok(None),
    }
}

fn has_two_words(positional: &[Positional<'_>]) -> bool
    ensures { result ≡ nat_lt 1 (count_by is_read_word positional.now) }
{
    let words = positional
        .iter()
        .filter(|part| is_read_word(part.text()))
        .count();
    words > 1
}

/// The fault of words and keywords that exclude one another.
fn excluded_fault(positional: &[Positional<'_>], keywords: &[Keyword<'_>]) -> Option<Cause>
    ensures { result ≡ told (excluded_faults positional.now keywords.now) }
{
    when(
        has_two_words(positional) || excludes_in(first_of(positional), keywords),
        Cause::P(StatementFault::ExcludeOneAnother),
    )
}

/// The names of a DD, which count where no fault is told of them.
#[derive(Drop)]
struct Names {
    qualifier: Option<Name8>,
    name: Option<Name8>,
    fault: Option<Cause>,
}

fn names_of(name: &[u8]) -> Names
    ensures told { result.fault ≡ told (dd_name_faults name.now) }
    ensures qualifier { result.fault ≡ None → result.qualifier ≡ qualifier_of name.now }
    ensures name { result.fault ≡ None → result.name ≡ dd_name_of name.now }
{
    match dd_names(name) {
        Ok((qualifier, name)) => Names {
            qualifier,
            name,
            fault: None,
        },
        Err(fault) => Names {
            qualifier: None,
            name: None,
            fault: Some(fault),
        },
    }
}

/// Reads the operand of a DD into a card that codes nothing.
fn read_operand(
    alloc: Global,
    name: &[u8],
    operand: &Operand<'_>,
    cards: Option<Listed<DataCard>>,
    card: &mut DdCard,
) -> Result<(), ReadError>
    requires { CodesNothing card.old }
    ensures { (denoted : Denoted) → IsOperand operand.now denoted → GivesInto result card.new (answer (dd_with name.now denoted cards)) }
{
    let keywords = operand.keywords.as_slice();
    let positional = operand.positional.as_slice();
    let first = first_of(positional);
    let faults = read_keywords(alloc, keywords, card)?;
    let names = names_of(name);
    let formed = earlier(names.fault, operand.fault);
    let placed = earlier(formed, positional_fault(first));
    let valued = earlier(placed, faults.told());
    let once = earlier(valued, twice_fault(Spelling::Two, keywords));
    let last = earlier(once, excluded_fault(positional, keywords));
    match last {
        Some(fault) => Err(ReadError::Refused(fault)),
        None => {
            let word = word_of(alloc, first, cards)?;
            card.qualifier = names.qualifier;
            card.name = names.name;
            card.word = word;
            Ok(())
        }
    }
}

/// Reads a DD that says `*`, DATA or DUMMY and nothing more: it has no keyword.
fn read_word(
    alloc: Global,
    name: &[u8],
    operand: &[u8],
    cards: Option<Listed<DataCard>>,
    card: &mut DdCard,
) -> Result<(), ReadError>
    requires word { is_word operand.now ≡ true }
    requires nothing { CodesNothing card.old }
    ensures { GivesInto result card.new (answer (dd_card name.now operand.now cards)) }
{
    match dd_names(name) {
        Ok((qualifier, name)) => {
            let word = word_of(alloc, Some(operand), cards)?;
            card.qualifier = qualifier;
            card.name = name;
            card.word = word;
            Ok(())
        }
        Err(fault) => Err(ReadError::Refused(fault)),
    }
}

/// A card that codes nothing, into which a DD is read.
pub fn bare_dd() -> DdCard
    ensures { CodesNothing result }
{
    DdCard {
        qualifier: None,
        name: None,
        word: None,
        set_name: Coded::NotGiven,
        disposition: Coded::NotGiven,
        unit: Coded::NotGiven,
        volume: Coded::NotGiven,
        space: Coded::NotGiven,
        sysout: Coded::NotGiven,
        dd_name: Coded::NotGiven,
        label: Coded::NotGiven,
        control_blocks: Coded::NotGiven,
        character_set: Coded::NotGiven,
        forms_control: Coded::NotGiven,
        output_limit: Coded::NotGiven,
    }
}

/// Reads a DD statement, with the data cards behind it, into a card that codes nothing. What the card holds counts where no fault is reported.
pub fn read_dd(
    alloc: Global,
    name: &[u8],
    operand: &[u8],
    cards: Option<Listed<DataCard>>,
    card: &mut DdCard,
) -> Result<(), ReadError>
    requires { CodesNothing card.old }
    ensures { GivesInto result card.new (answer (dd_card name.now operand.now cards)) }
{
    if is_word(operand) {
        return read_word(alloc, name, operand, cards, card);
    }
    if is_long(operand) {
        return Err(ReadError::Refused(long_operand(dd_name_fault(name))));
    }
    let parts = operand_of(alloc, 1, operand)?;
    read_operand(alloc, name, &parts, cards, card)
}

/// The card that a DD statement is, with the data cards behind it.
pub fn dd_card(
    alloc: Global,
    name: &[u8],
    operand: &[u8],
    cards: Option<Listed<DataCard>>,
) -> Result<DdCard, ReadError>
    ensures { Gives result (answer (dd_card name.now operand.now cards)) }
{
    let mut card = bare_dd();
    read_dd(alloc, name, operand, cards, &mut card)?;
    Ok(card)
}

/// Whether it has data cards behind it.
pub fn has_data(dd: &DdCard) -> bool
    ensures { result ≡ has_data dd.now }
{
    match &dd.word {
        Some(Word::Cards(_)) => true,
        Some(Word::Dummy) | None => false,
    }
}
