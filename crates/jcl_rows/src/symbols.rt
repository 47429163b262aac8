//! Operands, and what they are with the values of symbols: laws that are computed.
ghost use Rattle.jcl_rows.specs.Symbols.{Substitutes};

/// Operands with and without symbols.
pub fn substitutes()
    ensures { Substitutes }
{}
