//! Worked examples: operands, and what they are with the values of symbols.
ghost use Rattle.jcl_symbols.specs.Examples.{Substitutes};

/// Each is computed.
pub fn substitutes()
    ensures { Substitutes }
{}
