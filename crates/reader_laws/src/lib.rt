//! Laws of the readers of texts: what is spelled reads back. They have no code: a law is a function that does nothing, and its contract is
//! the law.
#![tactic(auto)]

ghost use Rattle.reader_laws.specs.CardLaws.{DeckReadsBack, NullStatementEnds, ShortLinesAreFilled, StatementReadsBack};
ghost use Rattle.reader_laws.specs.OperandLaws.{OperandReadsBack, ValuesReadBack};
ghost use Rattle.reader_laws.specs.SessionLaws.{SessionReadsBack};
ghost use Rattle.reader_laws.specs.StatementLaws.{CallReadsBack, DdsReadBack, JobReadsBack, ProgramReadsBack, SetsReadBack};
ghost use Rattle.reader_laws.specs.TextLaws.{NamesReadBack, NumberReadsBack, QuotedReadsBack};

/// A statement that is written as cards reads back: its operand over as many cards as it takes, comments behind it and on a card of their
/// own, and its data.
pub fn statement_reads_back()
    ensures { StatementReadsBack }
{}

/// A deck of statements that are written as cards reads back, where data stand behind an EXEC statement.
pub fn deck_reads_back()
    ensures { DeckReadsBack }
{}

/// What stands behind a null statement is not read.
pub fn null_statement_ends()
    ensures { NullStatementEnds }
{}

/// A line of less than 80 columns reads as one that is filled with blanks.
pub fn short_lines_are_filled()
    ensures { ShortLinesAreFilled }
{}

/// A text in apostrophes, each of its own written twice, is that text; it is one place of an operand, is read, and may stand on a card.
pub fn quoted_reads_back()
    ensures { QuotedReadsBack }
{}

/// A value of characters, texts in apostrophes and values in parentheses is one place and is read; values with commas between them, alone
/// or in parentheses, are their places.
pub fn values_read_back()
    ensures { ValuesReadBack }
{}

/// An operand of positional values and keywords reads back, without a fault.
pub fn operand_reads_back()
    ensures { OperandReadsBack }
{}

/// A number in decimal reads back where it lies within limits, whatever zeros stand before it; one outside them does not.
pub fn number_reads_back()
    ensures { NumberReadsBack }
{}

/// A name has no fault, and a data set name that was joined of components is those.
pub fn names_read_back()
    ensures { NamesReadBack }
{}

/// A session that is spelled from statements reads back as these, each with the number of its first line.
pub fn session_reads_back()
    ensures { SessionReadsBack }
{}

/// A JOB statement with its accounting, its programmer, a class, a priority and the class of its listing reads back as that card.
pub fn job_reads_back()
    ensures { JobReadsBack }
{}

/// An EXEC statement that names a program reads back.
pub fn program_reads_back()
    ensures { ProgramReadsBack }
{}

/// An EXEC statement that names a procedure, with no symbols, reads back.
pub fn call_reads_back()
    ensures { CallReadsBack }
{}

/// DD statements of DUMMY, of data in the stream, of SYSOUT and of an unnamed set read back, with a name or without.
pub fn dds_read_back()
    ensures { DdsReadBack }
{}

/// A DD statement of a set by its name and DISP, a status alone or up to three words in parentheses, reads back.
pub fn sets_read_back()
    ensures { SetsReadBack }
{}
