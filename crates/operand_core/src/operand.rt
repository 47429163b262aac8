//! An operand by its parts.
ghost use Rattle.std.specs.Prelude.{◌≡◌, ◌||◌, IfOk, OnOk, nat_lt};
ghost use Rattle.std.specs.Option.{option_copied};
ghost use Rattle.operand_core.specs.Faults.{earlier, told, when};
ghost use Rattle.operand_core.specs.Operands.{first_of, keyword_of, operand_of, parts_of, read_of};
ghost use Rattle.operand_core.specs.Reading.{IsOperand, all_parts, no_parts, parts_in, put_behind, with_part};

use crate::fault::earlier;
use crate::parts::{Part, begun_part};
use jcl_plan::fault::{Cause, StatementFault};
use std::alloc::{AllocError, Global};
use std::marker::Model;

/// A keyword and its value, or none where that is not read.
#[derive(Drop)]
pub struct Keyword<'a> {
    key: &'a [u8],
    value: Option<&'a [u8]>,
}

impl<'a> Model for Keyword<'a> {
    ghost use Rattle.std.specs.Option.{option_copied};
    ghost use Rattle.operand_core.specs.Operands.{Keyword};

    ghost Value = { Keyword };

    ghost view = { λ k. record { key = k.key.now; value = option_copied k.value } };
}

impl<'a> Keyword<'a> {
    /// What stands before its `=`.
    pub fn key(&self) -> &'a [u8]
        ensures { result.now ≡ self.now.key }
    {
        self.key
    }

    /// What stands behind its `=`, or none where that is not read.
    pub fn value(&self) -> Option<&'a [u8]>
        ensures { option_copied result ≡ self.now.value }
    {
        self.value
    }
}

/// A positional part, or none where it is not read.
#[derive(Drop)]
pub struct Positional<'a> {
    text: Option<&'a [u8]>,
}

impl<'a> Model for Positional<'a> {
    ghost use Rattle.std.specs.Prelude.{ℕ, List, Option};
    ghost use Rattle.std.specs.Option.{option_copied};

    ghost Value = { Option (List ℕ) };

    ghost view = { λ p. option_copied p.text };
}

impl<'a> Positional<'a> {
    /// Its characters, or none where it is not read.
    pub fn text(&self) -> Option<&'a [u8]>
        ensures { option_copied result ≡ self.now }
    {
        self.text
    }
}

/// The operand of a statement.
#[derive(Drop)]
pub struct Operand<'a> {
    /// Those before the first keyword, in their places.
    pub positional: Vec<Positional<'a>>,
    pub keywords: Vec<Keyword<'a>>,
    /// The fault of its form that is told.
    pub fault: Option<Cause>,
}

/// The text, where the part that it stands in is read.
fn read_of<'a>(part: &Part<'_>, text: &'a [u8]) -> Option<&'a [u8]>
    ensures { option_copied result ≡ read_of part.now text.now }
{
    match part.fault() {
        None => Some(text),
        Some(_) => None,
    }
}

/// The parts of an operand so far.
#[derive(Drop)]
struct Collected<'a> {
    positional: Vec<Positional<'a>>,
    keywords: Vec<Keyword<'a>>,
    /// One without a keyword stands behind one with a keyword.
    crowded: bool,
    fault: Option<Cause>,
}

impl<'a> Collected<'a> {
    fn nothing(alloc: Global) -> Collected<'a>
        ensures { parts_in result ≡ no_parts }
    {
        Collected {
            positional: Vec::new(alloc),
            keywords: Vec::new(alloc),
            crowded: false,
            fault: None,
        }
    }

    /// Puts a part without its fault behind the others.
    fn put(&mut self, part: &Part<'a>) -> Result<(), AllocError>
        ensures { OnOk result (parts_in self.new ≡ put_behind part.now (keyword_of part.now) (parts_in self.old)) }
    {
        if let Some((key, value)) = part.keyword() {
            self.keywords.push(Keyword {
                key,
                value: read_of(part, value),
            })?;
        } else if self.keywords.is_empty() {
            self.positional.push(Positional {
                text: read_of(part, part.text()),
            })?;
        } else {
            self.crowded = true;
        }
        Ok(())
    }

    fn add(&mut self, part: &Part<'a>) -> Result<(), AllocError>
        ensures { OnOk result (parts_in self.new ≡ with_part part.now (parts_in self.old)) }
    {
        self.put(part)?;
        self.fault = earlier(self.fault, part.fault());
        Ok(())
    }
}

/// Collects the parts of an operand, of which an empty one has none.
fn collect<'a>(found: &mut Collected<'a>, operand: &'a [u8]) -> Result<(), AllocError>
    requires { parts_in found.old ≡ no_parts }
    ensures { OnOk result (parts_in found.new ≡ all_parts (parts_of operand.now)) }
{
    if operand.is_empty() {
        return Ok(());
    }
    let mut left = Some(operand);
    while let Some(text) = left {
        let (part, behind) = begun_part(text);
        found.add(&part)?;
        left = behind;
    }
    Ok(())
}

/// Whether there are more positional ones than the statement takes, or one behind a keyword.
fn is_crowded(most: usize, count: usize, behind_keyword: bool) -> bool
    ensures { result ≡ (nat_lt most count || behind_keyword) }
{
    count > most || behind_keyword
}

/// The fault of the parts, and that there are too many positional ones where that holds: the one that is told.
fn with_many(fault: Option<Cause>, many: bool) -> Option<Cause>
    ensures { result ≡ earlier fault (told (when many (Cause.P StatementFault.TooManyPositional))) }
{
    if many {
        earlier(fault, Some(Cause::P(StatementFault::TooManyPositional)))
    } else {
        fault
    }
}

/// The operand of a statement that takes so many positional ones at most.
pub fn operand_of<'a>(alloc: Global, most: usize, text: &'a [u8]) -> Result<Operand<'a>, AllocError>
    ensures { IfOk result (λ operand. IsOperand operand (operand_of most text.now)) }
{
    let mut found = Collected::nothing(alloc);
    collect(&mut found, text)?;
    let Collected {
        positional,
        keywords,
        crowded,
        fault,
    } = found;
    let many = is_crowded(most, positional.as_slice().len(), crowded);
    Ok(Operand {
        positional,
        keywords,
        fault: with_many(fault, many),
    })
}

/// The first positional part, where there is one that is read.
pub fn first_of<'a>(positional: &[Positional<'a>]) -> Option<&'a [u8]>
    ensures { option_copied result ≡ first_of positional.now }
{
    match positional.split_first() {
        Some((part, _)) => part.text(),
        None => None,
    }
}
