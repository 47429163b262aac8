//! Worked examples: DD statements, and the cards that they are: laws that are computed.
ghost use Rattle.jcl_dds.specs.Examples.{Merges, ReadsDds};

/// DD statements.
pub fn reads_dds()
    ensures { ReadsDds }
{}

/// DDs with their overrides.
pub fn merges()
    ensures { Merges }
{}
