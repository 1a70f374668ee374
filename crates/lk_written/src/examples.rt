ghost use Rattle.std.specs.Prelude.{◌≡◌, ◌∷◌, [], Some, None, pos, true, false, codes};
ghost use Rattle.lk_val.specs.declared.value.Value.TheVariants as value;
ghost use Rattle.lk_types.specs.Calculation as calculation;
ghost use Rattle.lk_types.specs.Formula as formula;
ghost use Rattle.lk_types.specs.declared.expr.Arithmetic.TheVariants as arithmetic;
ghost use Rattle.lk_types.specs.declared.expr.Comparison.TheVariants as comparison;
ghost use Rattle.lk_types.specs.declared.expr.Piece.TheVariants.{Any, Byte};
ghost use Rattle.lk_expr_tree.specs.declared.raw.Joint.TheVariants as joint;
ghost use Rattle.lk_expr_tree.specs.Grammar as tree;
ghost use Rattle.lk_objects.specs.declared.code.Reference.TheVariants.{Column, Of, Own};
ghost use Rattle.lk_written.specs.Skeletons.{skeleton, written_of};
ghost use Rattle.lk_written.specs.Calculations.{written_number_of};

/// Expressions with their names by numbers, from the left. A law: it computes nothing.
#[tactic(auto, unfolding(lk_expr_token::specs::Functions::function_of))]
pub fn names_are_numbered()
    // a - ${b} + ${v.c}
    ensures chain { written_of (tree.Chain joint.Plus (tree.Chain joint.Minus (tree.Name (codes "a") 0) (tree.Field (codes "b"))) (tree.FieldOf (codes "v") (codes "c")))
        ≡ record {
          references = Column (codes "a") ∷ Own (codes "b") ∷ Of (codes "v") (codes "c") ∷ [];
          expr = formula.Number arithmetic.Plus (formula.Number arithmetic.Minus (formula.Column 0 0) (formula.Column 0 1)) (formula.Column 0 2);
          unknown_call = None;
        } }
    // a NOT IN (${b}, a), in which one name stands twice
    ensures not_in { written_of (tree.In true (tree.Name (codes "a") 0) (tree.more (tree.one (tree.Field (codes "b"))) (tree.Name (codes "a") 16)))
        ≡ record {
          references = Column (codes "a") ∷ Own (codes "b") ∷ Column (codes "a") ∷ [];
          expr = formula.Not (formula.In (formula.Column 0 0) (formula.more (formula.Column 0 1) (formula.more (formula.Column 0 2) formula.no_more)));
          unknown_call = None;
        } }
    // ${TABLE}.a IS NOT NULL
    ensures not_null { skeleton 0 (tree.IsNull true (tree.Column (codes "a"))) ≡ formula.Not (formula.IsNull (formula.Column 0 0)) }
    // ${a} * (${b} + ${c})
    ensures bracket { skeleton 0 (tree.Chain joint.Times (tree.Field (codes "a")) (tree.Group (tree.Chain joint.Plus (tree.Field (codes "b")) (tree.Field (codes "c")))))
        ≡ formula.Number arithmetic.Times (formula.Column 0 0) (formula.Number arithmetic.Plus (formula.Column 0 1) (formula.Column 0 2)) }
    // CASE WHEN ${a} THEN ${b} WHEN ${c} THEN 'x' ELSE ${d} END
    ensures case { written_of (tree.CaseElse (tree.then_when (tree.when (tree.Field (codes "a")) (tree.Field (codes "b"))) (tree.Field (codes "c")) (tree.Text (codes "x"))) (tree.Field (codes "d")))
        ≡ record {
          references = Own (codes "a") ∷ Own (codes "b") ∷ Own (codes "c") ∷ Own (codes "d") ∷ [];
          expr = formula.Case (formula.when (formula.Column 0 0) (formula.Column 0 1)
              (formula.when (formula.Column 0 2) (formula.Literal (value.Text (codes "x"))) (formula.otherwise (formula.Column 0 3))));
          unknown_call = None;
        } }
    // CASE WHEN ${a} THEN TRUE END
    ensures case_alone { skeleton 0 (tree.Case (tree.when (tree.Field (codes "a")) (tree.Truth true)))
        ≡ formula.Case (formula.when (formula.Column 0 0) (formula.Literal (value.Truth true)) formula.without_else) }
    // NullIf(${a}, ${b}) = ${c}
    ensures call { skeleton 0 (tree.Compare comparison.Equal (tree.Call (codes "NullIf") 0 (tree.more (tree.one (tree.Field (codes "a"))) (tree.Field (codes "b")))) (tree.Field (codes "c")))
        ≡ formula.Compare comparison.Equal (formula.NullIf (formula.Column 0 0) (formula.Column 0 1)) (formula.Column 0 2) }
    // ${a} LIKE 'x%^%'
    ensures pattern { skeleton 0 (tree.Like false (tree.Field (codes "a")) (codes "x%^%")) ≡ formula.Like (formula.Column 0 0) (Byte 120 ∷ Any ∷ Byte 37 ∷ []) }
    // ${a} NOT BETWEEN ${b} AND ${c}
    ensures not_between { skeleton 0 (tree.Between true (tree.Field (codes "a")) (tree.Field (codes "b")) (tree.Field (codes "c")))
        ≡ formula.Not (formula.Between (formula.Column 0 0) (formula.Column 0 1) (formula.Column 0 2)) }
    // FOO(${a}, TRUE) + LOWER(b, ${c}): each call is unknown, and stands as COALESCE of its arguments
    ensures unknown { written_of (tree.Chain joint.Plus (tree.Call (codes "FOO") 0 (tree.more (tree.one (tree.Field (codes "a"))) (tree.Truth true))) (tree.Call (codes "LOWER") 18 (tree.more (tree.one (tree.Name (codes "b") 24)) (tree.Field (codes "c")))))
        ≡ record {
          references = Own (codes "a") ∷ Column (codes "b") ∷ Own (codes "c") ∷ [];
          expr = formula.Number arithmetic.Plus
              (formula.Coalesce (formula.more (formula.Column 0 0) (formula.more (formula.Literal (value.Truth true)) formula.no_more)))
              (formula.Coalesce (formula.more (formula.Column 0 1) (formula.more (formula.Column 0 2) formula.no_more)));
          unknown_call = Some 0;
        } }
{}

/// Expressions over measures, with their names by numbers, from the left. A law: it computes nothing.
#[tactic(auto, unfolding(lk_expr_token::specs::Functions::function_of))]
pub fn measures_are_numbered()
    // (${a} - ${v.b}) / NULLIF(${a}, 0)
    ensures quotient { written_number_of (tree.Chain joint.Over (tree.Group (tree.Chain joint.Minus (tree.Field (codes "a")) (tree.FieldOf (codes "v") (codes "b")))) (tree.Call (codes "NULLIF") 18 (tree.more (tree.one (tree.Field (codes "a"))) (tree.Number (codes "0")))))
        ≡ record {
          references = Own (codes "a") ∷ Of (codes "v") (codes "b") ∷ Own (codes "a") ∷ [];
          expr = calculation.Apply arithmetic.Over (calculation.Apply arithmetic.Minus (calculation.OfMeasure 0) (calculation.OfMeasure 1))
              (calculation.NullIf (calculation.OfMeasure 2) (calculation.Number (record { 0 = pos 0 })));
          unknown_call = None;
        } }
    // - COALESCE(${a}, ${b}, 1)
    ensures known { written_number_of (tree.Negate (tree.Call (codes "COALESCE") 2 (tree.more (tree.more (tree.one (tree.Field (codes "a"))) (tree.Field (codes "b"))) (tree.Number (codes "1")))))
        ≡ record {
          references = Own (codes "a") ∷ Own (codes "b") ∷ [];
          expr = calculation.Negate (calculation.Coalesce (calculation.more (calculation.OfMeasure 0) (calculation.more (calculation.OfMeasure 1)
              (calculation.more (calculation.Number (record { 0 = pos 10000 })) calculation.no_more))));
          unknown_call = None;
        } }
    // ${b} + NULLIF(${a}): a call with a wrong number of arguments
    ensures unknown { written_number_of (tree.Chain joint.Plus (tree.Field (codes "b")) (tree.Call (codes "NULLIF") 7 (tree.one (tree.Field (codes "a")))))
        ≡ record {
          references = Own (codes "b") ∷ Own (codes "a") ∷ [];
          expr = calculation.Apply arithmetic.Plus (calculation.OfMeasure 0) (calculation.Coalesce (calculation.more (calculation.OfMeasure 1) calculation.no_more));
          unknown_call = Some 7;
        } }
{}
