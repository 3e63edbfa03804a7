//! How many accesses a plan has.
ghost use Rattle.std.specs.Prelude.{◌≡◌, [], ◌∷◌};
ghost use Rattle.fsb_access.specs.declared.access.Access.{Access};
ghost use Rattle.fsb_access.specs.declared.item.Item.TheVariants.{One, Locked, Idle};
ghost use Rattle.fsb_plan_size.specs.AccessCount.{access_count};

/// The accesses of a locked item count singly, idle items do not count, and those of all scripts count together.
fn counted_by_hand()
    ensures none { access_count [] ≡ 0 }
    ensures of_two_scripts { (x : Access) →
        access_count ((One x ∷ Locked (x ∷ x ∷ x ∷ []) ∷ Idle 5 ∷ []) ∷ [] ∷ (Idle 7 ∷ One x ∷ [])
        ∷ []) ≡ 5 }
{}

#[test]
fn accesses_of_plans(_rt: HostRuntime) {
    counted_by_hand();
}
