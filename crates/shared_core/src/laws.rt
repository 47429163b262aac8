//! What follows from the definitions alone.
ghost use Rattle.std.specs.Prelude.{◌≡◌};
ghost use Rattle.std.specs.FinMap as map;
ghost use Rattle.std.specs.List.{All};
ghost use Rattle.shared_core.specs.Laws.{JobWritesWhatItSees, KeptIsSpent, NothingIsShown, SetsOfOthersStay, TakingFollows, TracksAreConserved};
ghost use Rattle.shared_core.specs.Tracks.{NothingKept};
ghost use Rattle.shared_core.specs.declared.store.SharedStore.{SharedStore};

/// Where nothing changed that a job does not see, the store of all jobs is as before but for what the job sees now.
pub fn a_job_writes_what_it_sees()
    ensures { JobWritesWhatItSees }
{}

/// The same where the sets that others alone see are as before, whatever is kept.
pub fn sets_of_others_stay()
    ensures { SetsOfOthersStay }
{}

/// On volumes that are new no tracks are kept.
pub fn new_volumes_keep_nothing()
    ensures { (s : SharedStore) → All (λ m. m.kept ≡ map.empty) s.volumes → NothingKept s }
{}

/// Where a job takes tracks, a set that it makes has the extents that were kept for it, or those that its tracks take of the free ones; one that grows
/// takes such behind its own; and each other set keeps its extents, or the first tracks of them.
pub fn taking_follows()
    ensures { TakingFollows }
{}

/// Where no tracks are kept none are shown.
pub fn nothing_is_shown()
    ensures { NothingIsShown }
{}

/// A job that makes sets uses up the tracks that were kept for them, and no others.
pub fn kept_is_spent()
    ensures { KeptIsSpent }
{}

/// What free tracks lose sets gain, and the other way round.
pub fn tracks_are_conserved()
    ensures { TracksAreConserved }
{}
