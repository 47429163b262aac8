//! What follows from the definitions alone.
ghost use Rattle.std.specs.Prelude.{◌≡◌, ◌↔◌, true};
ghost use Rattle.std.specs.declared.cmp.Ordering.TheVariants.{Equal};
ghost use Rattle.vtoc_core.specs.Entries.{key_cmp, same_key};
ghost use Rattle.vtoc_core.specs.Volumes.{OtherKindsLieApart, OthersStayAside};
ghost use Rattle.vtoc_core.specs.declared.entry.SetKey.{SetKey};

/// Two keys are of one set exactly where the order of keys does not tell them apart.
pub fn order_tells_keys_apart()
    ensures { (a b : SetKey) → (same_key a b ≡ true) ↔ (key_cmp a b ≡ Equal) }
{}

/// A list that is aside stays so through each call that is not given it: what the call takes lies apart, since it was of another kind
/// or of another list.
pub fn other_lists_stay_aside()
    ensures stay { OthersStayAside }
    ensures apart { OtherKindsLieApart }
{}
