//! The PROC statement. (GC28-6704, "PROC statement")
ghost use Rattle.std.specs.Prelude.{◌≡◌, [], map, IfOk, None};
ghost use Rattle.std.specs.List.{flat_map};
ghost use Rattle.operand_core.specs.Faults.{told};
ghost use Rattle.operand_core.specs.Operands.{operand_of};
ghost use Rattle.operand_core.specs.Reading.{Tells};
ghost use Rattle.value_core.specs.Reads.{Gives, answer};
ghost use Rattle.jcl_cards.specs.Keywords.{symbol_faults, symbol_of};
ghost use Rattle.jcl_cards.specs.ProcedureCards.{procedure_card, procedure_name_faults, procedure_with};

use crate::rules::{
    KeywordRule, Spelling, each_fault, long_operand, symbol_fault, symbol_of, twice_fault,
};
use jcl_plan::fault::{Cause, StatementFault};
use jcl_symbols::symbol::Symbol;
use jname_core::name8::Name8;
use operand_core::fault::{earlier, name_fault, when, written_name, written_name_fault};
use operand_core::keyword::is_long;
use operand_core::operand::{Keyword, Operand, operand_of};
use plain::listed::Listed;
use std::alloc::{AllocError, Global};
use value_core::refusal::ReadError;

/// A PROC statement that was read.
#[derive(Drop)]
pub struct ProcedureCard {
    /// None only of a procedure of the library.
    pub name: Option<Name8>,
    /// Symbols and the values that they have where a call gives none.
    pub symbols: Listed<Symbol>,
}

fn procedure_name_fault(in_stream: bool, name: &[u8]) -> Option<Cause>
    ensures { result ≡ told (procedure_name_faults in_stream name.now) }
{
    if name.is_empty() {
        when(in_stream, Cause::P(StatementFault::MissingName))
    } else {
        name_fault(name)
    }
}

/// Each keyword is a symbol.
struct Symbols;

impl KeywordRule for Symbols {
    ghost use Rattle.jcl_cards.specs.Keywords.{symbol_faults};

    ghost faults = { λ rule k. symbol_faults k.key };

    fn fault(&self, keyword: &Keyword<'_>) -> Option<Cause> {
        symbol_fault(keyword.key())
    }
}

fn procedure_fault(in_stream: bool, name: &[u8], operand: &Operand<'_>) -> Option<Cause>
    ensures { Tells (λ denoted. (procedure_with in_stream name.now denoted).faults) operand.now result }
{
    let keywords = operand.keywords.as_slice();
    let own = earlier(procedure_name_fault(in_stream, name), operand.fault);
    let with_symbols = earlier(own, each_fault(&Symbols, keywords));
    earlier(with_symbols, twice_fault(Spelling::One, keywords))
}

fn symbols_of(alloc: Global, keywords: &[Keyword<'_>]) -> Result<Listed<Symbol>, AllocError>
    requires { flat_map (λ k. symbol_faults k.key) keywords.now ≡ [] }
    ensures { IfOk result (λ symbols. symbols ≡ map symbol_of keywords.now) }
{
    let mut symbols = Vec::new(alloc);
    for keyword in keywords {
        symbols.push(symbol_of(alloc, keyword)?)?;
    }
    Ok(Listed::new(symbols))
}

fn own_procedure_card(
    alloc: Global,
    in_stream: bool,
    name: &[u8],
    operand: &[u8],
) -> Result<ProcedureCard, ReadError>
    ensures { Gives result (answer (procedure_with in_stream name.now (operand_of 0 operand.now))) }
{
    let operand = operand_of(alloc, 0, operand)?;
    if let Some(fault) = procedure_fault(in_stream, name, &operand) {
        return Err(ReadError::Refused(fault));
    }
    Ok(ProcedureCard {
        name: written_name(name),
        symbols: symbols_of(alloc, operand.keywords.as_slice())?,
    })
}

/// The card that a PROC statement is, which stands in the stream or in a procedure of the library.
pub fn procedure_card(
    alloc: Global,
    in_stream: bool,
    name: &[u8],
    operand: &[u8],
) -> Result<ProcedureCard, ReadError>
    ensures { Gives result (answer (procedure_card in_stream name.now operand.now)) }
{
    if is_long(operand) {
        return Err(ReadError::Refused(long_operand(written_name_fault(name))));
    }
    own_procedure_card(alloc, in_stream, name, operand)
}
