//! Laws of what a job sees of a store. They have no code: a law is a function that does nothing, and its contract is the law.
#![tactic(auto)]

ghost use Rattle.part_laws.specs.PartLaws.{ActAlike, ActFits, ActKeeps, ActSound, ActStays, EqualReads, EqualWrites, RunAlike, RunFits, RunKeeps, SameLines, SameMeanings, SameSolo, SameSoloPath, SoundGroups, StartFits};

/// What a job reads is the same in two stores with equal parts.
pub fn equal_reads()
    ensures { EqualReads }
{}

/// What a job writes in two stores with equal parts leaves equal parts.
pub fn equal_writes()
    ensures { EqualWrites }
{}

/// The own state of a job that has done nothing fits its whole agenda, where the plan is well-formed and the store's groups are sound.
pub fn start_fits()
    ensures { StartFits }
{}

/// The own state of a job goes on to fit what is left of its agenda.
pub fn act_fits()
    ensures { ActFits }
{}

/// It does so along any actions.
pub fn run_fits()
    ensures { RunFits }
{}

/// In states that a job cannot tell apart, an action writes the same lines, meets the same fault and makes the same set, and leaves
/// states that it cannot tell apart.
pub fn act_alike()
    ensures { ActAlike }
{}

/// So do all actions that are left, one after the other.
pub fn run_alike()
    ensures { RunAlike }
{}

/// The keys of a job mean the same in two stores with equal parts.
pub fn same_meanings()
    ensures { SameMeanings }
{}

/// From any place of its agenda, in states that it cannot tell apart, a job writes the same lines, meets the same faults at the same
/// places and makes the same sets.
pub fn same_lines()
    ensures { SameLines }
{}

/// The solo meaning of a job is the same in two stores with the same volumes and equal parts.
pub fn same_solo()
    ensures { SameSolo }
{}

/// So is its solo meaning along given outcomes.
pub fn same_solo_path()
    ensures { SameSoloPath }
{}

/// What an action does stays within the names of its job: others' sets and entries stay as they are, and shared sets but for their tracks.
pub fn act_stays()
    ensures { ActStays }
{}

/// An action of a job changes nothing that a compatible job sees of named sets and of the catalog.
pub fn act_keeps()
    ensures { ActKeeps }
{}

/// Nor do any of its actions in a row.
pub fn run_keeps()
    ensures { RunKeeps }
{}

/// The groups of a well-formed store have the numbers 1 to 9999, falling.
pub fn sound_groups()
    ensures { SoundGroups }
{}

/// They have them still after an action.
pub fn act_sound()
    ensures { ActSound }
{}
