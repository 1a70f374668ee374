ghost use Rattle.std.specs.Prelude.{◌≡◌, List};
ghost use Rattle.std.specs.FinMap.{IsAntisymmetric};
ghost use Rattle.std.specs.List.Sorted.{IsStrictlySortedBy};
ghost use Rattle.lk_val.specs.Sets.{set_of, has};

/// The set of a list ascends, so no item stands in it twice, where only equal items tie. A law: it computes
/// nothing.
pub fn set_ascends<T: Ord>()
    ensures { IsAntisymmetric T.cmp → (xs : List T) → IsStrictlySortedBy T.cmp (set_of T.cmp xs) }
{}

/// The set of a list has the items of the list and no others, where only equal items tie. A law: it computes
/// nothing.
pub fn set_has_its_list<T: Ord>()
    ensures { IsAntisymmetric T.cmp → (xs : List T) (x : T) → has T.cmp x (set_of T.cmp xs) ≡ has T.cmp x xs }
{}

/// No other ascending list has the items of the list, where only equal items tie. A law: it computes nothing.
pub fn set_is_unique<T: Ord>()
    ensures { IsAntisymmetric T.cmp → (xs ys : List T) → IsStrictlySortedBy T.cmp ys
        → ((x : T) → has T.cmp x ys ≡ has T.cmp x xs) → ys ≡ set_of T.cmp xs }
{}
