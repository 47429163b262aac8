//! A deck whose refused statements are replaced, so that the rest of it can be looked at.
ghost use Rattle.std.specs.Prelude.{◌≡◌, ◌≤◌, IfOk, false};
ghost use Rattle.deck_places.specs.Cards.{walk_of};
ghost use Rattle.check_core.specs.Spots.{IsSpanAt, IsSpanOf};

use crate::guess::nearest_operation;
use card_core::card::{Kind, card_of, kind_of};
use card_core::field::fields_of;
use card_core::statement::{Card, DataCard};
use deck_places::judge::At;
use deck_places::walk::walk_lines;
use jcl_plan::fault::{Cause, StatementFault};
use plain::lent::Lent;
use plain::text::Text;
use std::alloc::{AllocError, Global};

/// The columns of a card.
const COLUMNS: usize = 80;

/// How often a card was replaced.
#[derive(Clone, Copy, PartialEq, Eq)]
pub(crate) enum Touched {
    Never,
    /// By a good statement of its name.
    Once,
    /// By a comment.
    Twice,
    /// By a good statement, for its operand goes on and nothing continues it.
    Open,
}

/// The cards that a statement takes: from the first, to before the last.
#[derive(Clone, Copy)]
pub(crate) struct Span {
    pub(crate) from: usize,
    pub(crate) to: usize,
}

/// What a replaced statement no longer gives the deck: the steps of a call, or a DD that was for a step of one, by their names.
#[derive(Drop)]
pub(crate) struct Replaced {
    pub(crate) step: Text,
    pub(crate) dd: Option<Text>,
}

/// A deck that is mended.
#[derive(Drop)]
pub(crate) struct Mended {
    pub(crate) lines: Vec<Text>,
    pub(crate) touched: Vec<Touched>,
    /// What is no longer there, for a reference to it is refused then.
    pub(crate) replaced: Vec<Replaced>,
    /// A JOB statement was put in front.
    pub(crate) has_job_in_front: bool,
}

/// The card of a line, if it is one.
pub(crate) fn card_at(lines: &[Text], n: usize) -> Option<DataCard> {
    match lines.get(n) {
        None => None,
        Some(line) => match card_of(line.as_slice()) {
            Ok(card) => Some(card),
            Err(_) => None,
        },
    }
}

/// A good statement in the place of one with this name and this operation; nothing in the place of another.
fn good_statement(
    alloc: Global,
    name: &[u8],
    operation: &[u8],
) -> Result<Option<Vec<u8>>, AllocError> {
    let (other, rest): (&[u8], &[u8]) = if operation == b"JOB".as_slice() {
        (b"MENDED".as_slice(), b" JOB 1".as_slice())
    } else if operation == b"EXEC".as_slice() {
        (b"".as_slice(), b" EXEC PGM=IEFBR14".as_slice())
    } else if operation == b"DD".as_slice() {
        (b"MENDED".as_slice(), b" DD DUMMY".as_slice())
    } else {
        return Ok(None);
    };
    let name = if is_good(name) || is_qualified(name) {
        name
    } else {
        other
    };
    let mut text = Vec::from_slice(alloc, b"//")?;
    text.extend_from_slice(name)?;
    text.extend_from_slice(rest)?;
    Ok(Some(text))
}

/// The same for the statements of a procedure: its head, its steps, their DDs, its end.
fn good_of_procedure(
    alloc: Global,
    name: &[u8],
    operation: &[u8],
) -> Result<Option<Vec<u8>>, AllocError> {
    if operation == b"EXEC".as_slice() || (operation == b"DD".as_slice() && is_good(name)) {
        return good_statement(alloc, name, operation);
    }
    if operation != b"PROC".as_slice() && operation != b"PEND".as_slice() {
        return Ok(None);
    }
    let mut text = Vec::from_slice(alloc, b"//")?;
    if is_good(name) {
        text.extend_from_slice(name)?;
    }
    text.push(b' ')?;
    text.extend_from_slice(operation)?;
    Ok(Some(text))
}

/// Whether a name can stay: it has the characters of names alone, and not too many.
fn is_good(name: &[u8]) -> bool {
    let begins = match name.first() {
        Some(c) => jname_core::name8::is_first(*c),
        None => false,
    };
    begins
        && name.len() <= 8
        && name
            .iter()
            .all(|c| jname_core::name8::is_name_character(*c))
}

/// The card of a line as a statement: where it has one slash and a name, as if it had two.
fn statement_at(alloc: Global, lines: &[Text], n: usize) -> Result<Option<DataCard>, AllocError> {
    let Some(card) = card_at(lines, n) else {
        return Ok(None);
    };
    if kind_of(&card) == Kind::Jcl || card[0] != b'/' || !jname_core::name8::is_first(card[1]) {
        return Ok(Some(card));
    }
    let mut text = Vec::from_slice(alloc, b"/")?;
    text.extend_from_slice(card.as_slice())?;
    text.truncate(COLUMNS);
    Ok(match card_of(text.as_slice()) {
        Ok(card) => Some(card),
        Err(_) => None,
    })
}

/// The operation that a word of a statement may have been meant as.
fn meant_operation(alloc: Global, word: &[u8]) -> Result<Text, AllocError> {
    match nearest_operation(alloc, word)? {
        Some(operation) => Ok(operation),
        None => Text::copy_of(alloc, word),
    }
}

/// Whether a name is that of a DD for a step of a call, and can stay.
fn is_qualified(name: &[u8]) -> bool {
    name.contains(&b'.') && name.split(|c| *c == b'.').all(is_good)
}

/// The last of the parts of a name.
fn last_part(name: &[u8]) -> &[u8] {
    match name.split(|c| *c == b'.').last() {
        Some(part) => part,
        None => name,
    }
}

/// Whether an EXEC statement calls a procedure, by what stands behind its operation.
fn is_call(behind: &[u8]) -> bool {
    !behind.windows(4).any(|piece| piece == b"PGM=".as_slice())
}

/// Whether a refusal is for the step that a DD's name has.
fn is_of_step(cause: Cause) -> bool {
    match cause {
        Cause::P(StatementFault::NoSuchProcedureStep | StatementFault::OverrideOutOfOrder) => true,
        _ => false,
    }
}

/// A line as far as it can be a card.
fn cut_line(alloc: Global, line: &[u8]) -> Result<Text, AllocError> {
    let mut text = Vec::new(alloc);
    for c in line.iter().take(COLUMNS) {
        let c = if 0x20 <= *c && *c <= 0x7e { *c } else { b' ' };
        text.push(c)?;
    }
    Ok(Text::new(text))
}

impl Mended {
    /// The deck as it is.
    pub(crate) fn of(alloc: Global, lines: &[Card<'_>]) -> Result<Mended, AllocError>
        ensures lines { IfOk result (λ m. m.lines.items ≡ lines.now) }
        ensures unmended { IfOk result (λ m. m.has_job_in_front ≡ false) }
    {
        let mut copies = Vec::new(alloc);
        let mut touched = Vec::new(alloc);
        for line in lines {
            copies.push(Text::copy_of(alloc, line.as_slice())?)?;
            touched.push(Touched::Never)?;
        }
        Ok(Mended {
            lines: copies,
            touched,
            replaced: Vec::new(alloc),
            has_job_in_front: false,
        })
    }

    /// Its lines.
    pub(crate) fn lent<'a>(&'a self, alloc: Global) -> Result<Vec<Lent<'a>>, AllocError>
        ensures { IfOk result (λ lent. lent.items ≡ self.now.lines.items) }
    {
        let mut lent = Vec::new(alloc);
        for line in &self.lines {
            lent.push(Lent::new(line.as_slice()))?;
        }
        Ok(lent)
    }

    /// The first card behind one that ends the deck, or all of them.
    fn end_behind(&self, from: usize, to: usize) -> usize
        ensures { result ≤ to }
    {
        for n in from..to {
            if let Some(card) = card_at(self.lines.as_slice(), n) {
                if kind_of(&card) == Kind::Null {
                    return n;
                }
            }
        }
        to
    }

    /// The cards of the statement of a number.
    fn span_of(&self, begun: &[usize], k: usize) -> Option<Span>
        ensures { IsSpanOf begun.now k result }
    {
        let from = *begun.get(k)?;
        let to = match begun.get(k + 1) {
            Some(next) => *next,
            None => self.lines.len(),
        };
        let to = self.end_behind(from, to);
        Some(Span { from, to })
    }

    /// The cards of the place where the deck is refused.
    pub(crate) fn span_at(&self, alloc: Global, at: At) -> Result<Option<Span>, AllocError>
        ensures { IfOk result (IsSpanAt (walk_of self.now.lines.items).begun at) }
    {
        let lent = self.lent(alloc)?;
        let begun = walk_lines(alloc, lent.as_slice())?.begun;
        let begun = begun.as_slice();
        match at {
            At::Card(n) => {
                let from = match begun.last() {
                    Some(first) if *first <= n => *first,
                    _ => n,
                };
                Ok(Some(Span {
                    from,
                    to: n.saturating_add(1),
                }))
            }
            At::Statement(k) | At::Call(k) | At::Planned(_, k) => Ok(self.span_of(begun, k)),
            At::End => Ok(None),
        }
    }

    /// The cards of a statement; of a PROC statement those of the procedure, to its PEND statement.
    fn whole_span(&self, span: Span) -> Span {
        match card_at(self.lines.as_slice(), span.from) {
            Some(card) if fields_of(&card).operation == b"PROC".as_slice() => {}
            _ => return span,
        }
        for n in span.to..self.lines.len() {
            if let Some(card) = card_at(self.lines.as_slice(), n) {
                if kind_of(&card) == Kind::Jcl && fields_of(&card).operation == b"PEND".as_slice() {
                    return Span {
                        from: span.from,
                        to: n + 1,
                    };
                }
            }
        }
        span
    }

    /// Whether a card of these was replaced.
    pub(crate) fn is_touched(&self, span: Span) -> bool {
        for n in span.from..span.to {
            match self.touched.get(n) {
                Some(Touched::Once | Touched::Twice | Touched::Open) => return true,
                _ => {}
            }
        }
        false
    }

    /// Puts a text in the place of a card.
    fn put(&mut self, n: usize, text: Text, touched: Touched) {
        if n < self.lines.len() && n < self.touched.len() {
            self.lines[n] = text;
            self.touched[n] = touched;
        }
    }

    /// Puts comments in the place of cards.
    fn comment(&mut self, alloc: Global, span: Span, touched: Touched) -> Result<(), AllocError> {
        for n in span.from..span.to {
            self.put(n, Text::copy_of(alloc, b"//*")?, touched);
        }
        Ok(())
    }

    /// The name of the last EXEC statement before a card.
    pub(crate) fn step_before(&self, alloc: Global, card: usize) -> Result<Text, AllocError> {
        for n in (0..card.min(self.lines.len())).rev() {
            if let Some(card) = card_at(self.lines.as_slice(), n) {
                if kind_of(&card) == Kind::Jcl && fields_of(&card).operation == b"EXEC".as_slice() {
                    return Text::copy_of(alloc, fields_of(&card).name);
                }
            }
        }
        Text::copy_of(alloc, b"")
    }

    /// Notes what the statement that begins on this card no longer gives: the steps of a call, or the DD of a step that is not found.
    fn note(
        &mut self,
        alloc: Global,
        from: usize,
        card: &DataCard,
        of_step: bool,
    ) -> Result<(), AllocError> {
        let fields = fields_of(card);
        let replaced = if fields.operation == b"EXEC".as_slice() && is_call(fields.behind) {
            Replaced {
                step: Text::copy_of(alloc, fields.name)?,
                dd: None,
            }
        } else if of_step {
            Replaced {
                step: self.step_before(alloc, from)?,
                dd: Some(Text::copy_of(alloc, last_part(fields.name))?),
            }
        } else {
            return Ok(());
        };
        self.replaced.push(replaced)?;
        Ok(())
    }

    /// Puts a good procedure in the place of one of the deck, so that its calls are not refused: its steps and their DDs keep their names.
    fn replace_procedure(&mut self, alloc: Global, span: Span) -> Result<(), AllocError> {
        for n in span.from..span.to {
            let good = match card_at(self.lines.as_slice(), n) {
                Some(card) if kind_of(&card) == Kind::Jcl => {
                    let fields = fields_of(&card);
                    good_of_procedure(alloc, fields.name, fields.operation)?
                }
                _ => None,
            };
            let text = match good {
                Some(text) => Text::new(text),
                None => Text::copy_of(alloc, b"//*")?,
            };
            self.put(n, text, Touched::Once);
        }
        Ok(())
    }

    /// Whether cards are those of a procedure of the deck with its end.
    fn is_procedure(&self, span: Span) -> bool {
        match card_at(self.lines.as_slice(), span.from) {
            Some(card) => {
                fields_of(&card).operation == b"PROC".as_slice()
                    && self.is_end_of_procedure(span.to.saturating_sub(1))
            }
            None => false,
        }
    }

    fn is_end_of_procedure(&self, n: usize) -> bool {
        match card_at(self.lines.as_slice(), n) {
            Some(card) => {
                kind_of(&card) == Kind::Jcl && fields_of(&card).operation == b"PEND".as_slice()
            }
            None => false,
        }
    }

    /// Puts a good statement in the place of a statement; a DD whose step is not found gets another name.
    fn replace(&mut self, alloc: Global, span: Span, of_step: bool) -> Result<(), AllocError> {
        if self.is_touched(span) {
            return self.comment(alloc, span, Touched::Twice);
        }
        if self.is_procedure(span) {
            return self.replace_procedure(alloc, span);
        }
        let card = statement_at(alloc, self.lines.as_slice(), span.from)?;
        self.comment(alloc, span, Touched::Once)?;
        let Some(card) = card else { return Ok(()) };
        if kind_of(&card) != Kind::Jcl {
            return Ok(());
        }
        let fields = fields_of(&card);
        self.note(alloc, span.from, &card, of_step)?;
        let name = if of_step { b"".as_slice() } else { fields.name };
        let operation = meant_operation(alloc, fields.operation)?;
        if let Some(text) = good_statement(alloc, name, operation.as_slice())? {
            self.put(span.from, Text::new(text), Touched::Once);
        }
        Ok(())
    }

    /// Notes that nothing continues the operand of a statement that was replaced.
    fn leave_open(&mut self, span: Span) {
        for n in span.from..span.to {
            if n < self.touched.len() {
                self.touched[n] = Touched::Open;
            }
        }
    }

    /// Whether the statement before a card was replaced since its operand goes on; comments may stand between them.
    pub(crate) fn is_behind_open(&self, card: usize) -> bool {
        for n in (0..card.min(self.touched.len())).rev() {
            match self.touched.get(n) {
                Some(Touched::Open) => return true,
                _ => {}
            }
            match card_at(self.lines.as_slice(), n) {
                Some(before) if kind_of(&before) == Kind::Comment => {}
                _ => return false,
            }
        }
        false
    }

    /// Whether a card begins or ends a procedure of the deck: `None` where it does neither.
    fn begins_procedure(&self, n: usize) -> Option<bool> {
        match card_at(self.lines.as_slice(), n) {
            Some(card) if kind_of(&card) == Kind::Jcl => {
                let operation = fields_of(&card).operation;
                if operation == b"PROC".as_slice() {
                    Some(true)
                } else if operation == b"PEND".as_slice() {
                    Some(false)
                } else {
                    None
                }
            }
            _ => None,
        }
    }

    /// Puts comments in the place of the steps from a card on. The procedures among them stay, for a step before them may call one.
    fn drop_steps(&mut self, alloc: Global, from: usize) -> Result<(), AllocError> {
        let mut is_inside = false;
        for n in from..self.end_behind(from, self.lines.len()) {
            match self.begins_procedure(n) {
                Some(begins) => is_inside = begins,
                None if is_inside => {}
                None => self.put(n, Text::copy_of(alloc, b"//*")?, Touched::Once),
            }
        }
        Ok(())
    }

    /// Puts a JOB statement in front.
    fn put_job(&mut self, alloc: Global) -> Result<(), AllocError> {
        self.lines
            .insert(0, Text::copy_of(alloc, b"//MENDED JOB 1")?)?;
        self.touched.insert(0, Touched::Once)?;
        self.has_job_in_front = true;
        Ok(())
    }

    /// The card of the deck as it was.
    pub(crate) fn own_card(&self, n: usize) -> usize
        ensures { self.now.has_job_in_front ≡ false → result ≡ n }
    {
        if self.has_job_in_front {
            n.saturating_sub(1)
        } else {
            n
        }
    }

    /// Mends what is refused. `false` where nothing can be mended.
    pub(crate) fn mend(&mut self, alloc: Global, cause: Cause, at: At) -> Result<bool, AllocError> {
        if at == At::Statement(0)
            && cause == Cause::P(StatementFault::NotOneJob)
            && !self.has_job_in_front
        {
            self.put_job(alloc)?;
            return Ok(true);
        }
        if let (At::Card(n), Cause::C(1) | Cause::C(2)) = (at, cause) {
            let cut = match self.lines.get(n) {
                Some(line) => cut_line(alloc, line.as_slice())?,
                None => return Ok(false),
            };
            self.put(n, cut, Touched::Once);
            return Ok(true);
        }
        match self.span_at(alloc, at)? {
            Some(span) if cause == Cause::P(StatementFault::TooManySteps) => {
                self.drop_steps(alloc, span.from)?;
                Ok(true)
            }
            Some(span) => {
                self.replace(alloc, self.whole_span(span), is_of_step(cause))?;
                if cause == Cause::C(3) {
                    self.leave_open(span);
                }
                Ok(true)
            }
            None => Ok(false),
        }
    }
}
