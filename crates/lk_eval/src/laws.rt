// Laws of expressions. Each is a function that computes nothing: its clauses are the law.

ghost use Rattle.std.specs.Prelude.{◌≡◌, true, false};
ghost use Rattle.lk_val.specs.declared.value.Value.TheVariants as value;
ghost use Rattle.lk_types.specs.Formula.{Formula};
ghost use Rattle.lk_types.specs.Expressions.{value_of};
ghost use Rattle.lk_types.specs.Tables.{is_of_kind};
ghost use Rattle.lk_types.specs.declared.rows.Joined.{Joined};
ghost use Rattle.lk_types.specs.declared.schema.Kind.{Kind};
ghost use Rattle.lk_types.specs.Kinds.{HasKinds, is_empty, kinds_of, single};
ghost use Rattle.lk_types.specs.declared.kind_set.Leaves.{Leaves};

/// On a row whose cells are null or of their columns' kinds, the value of an expression is null or of the
/// expression's kind, and null where several kinds are left. A law: it computes nothing.
pub fn values_have_their_kinds()
    ensures known { (leaves : Leaves) (e : Formula) (row : Joined) (k : Kind) → HasKinds leaves row
        → single (kinds_of leaves e) ≡ Some k → is_of_kind k (value_of e row) ≡ true }
    ensures open { (leaves : Leaves) (e : Formula) (row : Joined) → HasKinds leaves row
        → is_empty (kinds_of leaves e) ≡ false → single (kinds_of leaves e) ≡ None → value_of e row ≡ value.Null }
{}
