//! DD statements, and a DD with its override: laws that are computed.
ghost use Rattle.jcl_rows.specs.Cards.{MergesDds, ReadsDds};

/// DD statements: `dd_card` answers this; `has_data` and `by_itself` are code of their own.
pub fn reads_dds()
    ensures { ReadsDds }
{}

/// A DD with its override: `merged` answers this.
pub fn merges_dds()
    ensures { MergesDds }
{}
