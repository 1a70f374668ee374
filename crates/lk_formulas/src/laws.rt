ghost use Rattle.std.specs.Prelude.{◌≡◌};
ghost use Rattle.lk_types.specs.Formula.{Formula};
ghost use Rattle.lk_types.specs.Kinds.{kind_at, kinds_of, kinds_of_column};
ghost use Rattle.lk_types.specs.declared.kind_set.Leaves.{Leaves};
ghost use Rattle.lk_dated.specs.FormulaKinds.{kinds_by};

/// Over columns that all have known kinds, an expression may have the kinds that are told of a resolved one. A law: it
/// computes nothing.
pub fn kinds_are_those_of_resolved_expressions()
    ensures { (leaves : Leaves) (e : Formula) → kinds_by (λ part column. kinds_of_column (kind_at leaves part column)) e ≡ kinds_of leaves e }
{}
