//! Operands and their values: laws that are computed.
ghost use Rattle.text_rows.specs.Operands.{DropsApostrophes, ReadsOperands};

/// Parts, keywords, and the least fault.
pub fn reads_operands()
    ensures { ReadsOperands }
{}

/// Apostrophes that enclose a value.
pub fn drops_apostrophes()
    ensures { DropsApostrophes }
{}
