//! What follows from the definitions of changes to a set alone.
ghost use Rattle.std.specs.Prelude.{◌≡◌, ℕ, List, false};
ghost use Rattle.jname_core.specs.declared.key.Key.{Key};
ghost use Rattle.jcl_meaning.specs.Programs.{emptied};
ghost use Rattle.jcl_meaning.specs.Stores.{Store};
ghost use Rattle.store_core.specs.Actions.{changed_at, GrowsInEitherOrder};

/// A set that is not emptied stays as it is.
pub fn not_emptied_stays()
    ensures { (s : Store) (key : Key) (serial : List ℕ) → changed_at (emptied false) s key serial ≡ s }
{}

/// A set that grows and is emptied after it, or not, is as one that is emptied first.
pub fn grown_and_emptied_in_either_order()
    ensures { GrowsInEitherOrder }
{}
