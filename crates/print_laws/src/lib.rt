//! Laws of printable characters in what a job reads and writes. They have no code: a law is a function that does nothing, and its contract is the law.
#![tactic(auto)]

ghost use Rattle.print_laws.specs.PrintLaws.{ActIsPrintable, AgendasArePrintable, WritableIsPrintable};
ghost use Rattle.print_laws.specs.Texts.{ArePrintableTexts};

/// A plan that records can spell is printable.
pub fn writable_is_printable()
    ensures { WritableIsPrintable }
{}

/// So are the actions of its agenda.
pub fn agendas_are_printable()
    ensures { AgendasArePrintable }
{}

/// An action writes printable lines, and leaves a printable store and own part.
pub fn act_is_printable()
    ensures { ActIsPrintable }
{}
