//! Names, and the faults of what is none: laws that are computed.
ghost use Rattle.text_rows.specs.Names.{NamesGenerations, NumbersFaults, ReadsBases, ReadsDsNames, ReadsNames, ReadsSerials, ReadsUnitNames, TellsBases, TellsFirstCharacters, TellsNameCharacters, TellsNumbers};

/// Which characters a name begins with.
pub fn tells_first_characters()
    ensures { TellsFirstCharacters }
{}

/// Which characters a name holds.
pub fn tells_name_characters()
    ensures { TellsNameCharacters }
{}

/// Names of up to eight characters.
pub fn reads_names()
    ensures { ReadsNames }
{}

/// Names of units.
pub fn reads_unit_names()
    ensures { ReadsUnitNames }
{}

/// Serials of volumes.
pub fn reads_serials()
    ensures { ReadsSerials }
{}

/// Names of data sets.
pub fn reads_ds_names()
    ensures { ReadsDsNames }
{}

/// Bases of generation data groups.
pub fn reads_bases()
    ensures { ReadsBases }
{}

/// The base of a name.
pub fn tells_bases()
    ensures { TellsBases }
{}

/// The number of a generation.
pub fn tells_numbers()
    ensures { TellsNumbers }
{}

/// The generations of a base.
pub fn names_generations()
    ensures { NamesGenerations }
{}

/// The numbers of refusals.
pub fn numbers_faults()
    ensures { NumbersFaults }
{}
