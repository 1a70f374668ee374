// Laws of the model that `resolve` gives. Each is a function that computes nothing: its clauses are the law.

ghost use Rattle.std.specs.Prelude.{◌≡◌, ℕ, ◌||◌, List, Ok, length, nat_le, not, true};
ghost use Rattle.std.specs.List.{AllByRecursion, list_all};
ghost use Rattle.lk_types.specs.declared.model.Model.{Model};
ghost use Rattle.lk_types.specs.declared.schema.Kind.TheVariants as kind;
ghost use Rattle.lk_types.specs.declared.schema.Schema.{Schema};
ghost use Rattle.lk_merge.specs.declared.project.Merged.{Merged};
ghost use Rattle.lk_schema.specs.Schemas.{schema_of};
ghost use Rattle.lk_semantics.specs.Joins.{numbers_below};
ghost use Rattle.lk_semantics.specs.Reading.{explore_datagroups, leaves_of, reads_itself};
ghost use Rattle.lk_semantics.specs.Resolved.{HasGroupsOfOnePart, IsResolved, are_one, has_exact_keys, has_grounded_measures, has_part_for_each_join, has_tiers, has_typed_filters, has_typed_key, has_typed_sources, has_whole_forms, is_fixed_derived, is_fixed_rollup, is_none_or_typed, is_numbered, is_typed_field, is_typed_join, is_typed_measure, may_be_derived, names_numbers};
ghost use Rattle.lk_semantics.specs.Rollups.{may_be_rolled_up};
ghost use Rattle.lk_resolve.specs.Resolving.{HasModel};
ghost use Rattle.lk_model_laws.specs.Conditions.{has_condition, is_free};
ghost use Rattle.lk_model_laws.specs.Named.{has_own_names};
ghost use Rattle.lk_model_laws.specs.Spelled.{are_spelled};
ghost use Rattle.lk_model_laws.specs.Tables.{HavePlainTables};
ghost use Rattle.lk_model_laws.specs.Typed.{has_code, has_raw_times, is_open, is_raw};

/// The explores of a model that effective objects give without a fault have at most 31 joins, and one view more than joins.
/// A law: it computes nothing. (lookd)
pub fn joins_are_counted()
    ensures few { (schema : Schema) (merged : Merged) (model : Model) → HasModel schema merged (Ok model)
        → list_all (λ x. nat_le (length x.joins) 31) model.explores ≡ true }
    ensures parts { (schema : Schema) (merged : Merged) (model : Model) → HasModel schema merged (Ok model)
        → list_all has_part_for_each_join model.explores ≡ true }
{}

/// All expressions of such a model have all parts that their grammar wants. A law: it computes nothing.
pub fn expressions_are_whole()
    ensures { (schema : Schema) (merged : Merged) (model : Model) → HasModel schema merged (Ok model)
        → list_all has_whole_forms model.explores ≡ true }
{}

/// Two dimensions of such a model that are timeframes of one group are of one view and one expression. A law: it computes
/// nothing. (Looker, LookML reference: dimension_group)
pub fn timeframes_are_of_one_group()
    ensures { (schema : Schema) (merged : Merged) (model : Model) → HasModel schema merged (Ok model)
        → AllByRecursion HasGroupsOfOnePart model.explores }
{}

/// The enforced key of each view of such a model is the key column of its stored table, where the view's primary key is that
/// column, and there is no other. A law: it computes nothing. (Looker, LookML reference: primary_key; lookd)
pub fn keys_are_exact()
    ensures { (schema : Schema) (merged : Merged) (model : Model) → HasModel schema merged (Ok model)
        → list_all (has_exact_keys model) model.explores ≡ true }
{}

/// No measure of type number of such a model stands on itself. A law: it computes nothing. (Looker, LookML reference: measure
/// types, number)
pub fn measures_are_grounded()
    ensures { (schema : Schema) (merged : Merged) (model : Model) → HasModel schema merged (Ok model)
        → list_all has_grounded_measures model.explores ≡ true }
{}

/// Over a schema that is read from a text, each number in such a model is that of something. A law: it computes nothing.
pub fn numbers_are_of_something()
    ensures { (text : List ℕ) (schema : Schema) (merged : Merged) (model : Model) → schema_of text ≡ Ok schema
        → HasModel schema merged (Ok model) → is_numbered model ≡ true }
{}

/// The bounds of each tier of such a model are some, they ascend, and each is a number of a column as a whole number. A law: it
/// computes nothing. (Looker, LookML reference: tier; lookd)
pub fn tiers_ascend()
    ensures { (schema : Schema) (merged : Merged) (model : Model) → HasModel schema merged (Ok model)
        → list_all (λ x. list_all (λ f. has_tiers f.shape) x.fields) model.explores ≡ true }
{}

/// In such a model each key has some kind, each dimension has the kind that its shape makes of its expression, each measure has what
/// its type computes with, each measure of type number is over numbers, and each default condition is yes or no. Of raw times and of
/// the types min, max and number the second and the third are not claimed. Where it has derived tables, the views of each explore
/// have names of their own, and each field that is declared has the code that its type takes. A law: it computes nothing. (Looker,
/// LookML reference: dimension, dimension_group, measure types, sql_always_where)
pub fn expressions_have_their_kinds()
    ensures keys { (schema : Schema) (merged : Merged) (model : Model) (h : HasModel schema merged (Ok model)) → HavePlainTables model h.declared
        → list_all (λ x. list_all (has_typed_key (leaves_of model x)) x.parts) model.explores ≡ true }
    ensures dimensions { (schema : Schema) (merged : Merged) (model : Model) (h : HasModel schema merged (Ok model)) → HavePlainTables model h.declared
        → list_all (λ x. list_all (λ f. is_raw f.shape || is_typed_field (leaves_of model x) f) x.fields) model.explores ≡ true }
    ensures measures { (schema : Schema) (merged : Merged) (model : Model) (h : HasModel schema merged (Ok model)) → HavePlainTables model h.declared
        → list_all (λ x. list_all (λ n. is_open n.op || is_typed_measure (leaves_of model x) n) x.measures) model.explores ≡ true }
    ensures calculations { (schema : Schema) (merged : Merged) (model : Model) (h : HasModel schema merged (Ok model)) → HavePlainTables model h.declared
        → list_all (λ x. list_all (names_numbers x) x.measures) model.explores ≡ true }
    ensures conditions { (schema : Schema) (merged : Merged) (model : Model) (h : HasModel schema merged (Ok model)) → HavePlainTables model h.declared
        → list_all (λ x. is_none_or_typed (leaves_of model x) kind.Truth x.always_where) model.explores ≡ true }
{}

/// In such a model each dimension has the kind that its shape makes of its expression, and each measure has what its type computes
/// with, where each field that is declared has the code that its type takes, and, if there are derived tables, the views of each
/// explore have names of their own. A law: it computes nothing. (Looker, LookML reference: dimension, dimension_group, measure types)
pub fn fields_have_their_kinds()
    ensures dimensions { (schema : Schema) (merged : Merged) (model : Model) (h : HasModel schema merged (Ok model)) → HavePlainTables model h.declared
        → AllByRecursion (λ v. AllByRecursion (λ f. has_code f.sort f.sql ≡ true) v.fields) h.declared.views
        → list_all (λ x. list_all (is_typed_field (leaves_of model x)) x.fields) model.explores ≡ true }
    ensures measures { (schema : Schema) (merged : Merged) (model : Model) (h : HasModel schema merged (Ok model)) → HavePlainTables model h.declared
        → AllByRecursion (λ v. AllByRecursion (λ f. has_code f.sort f.sql ≡ true) v.fields) h.declared.views
        → list_all (λ x. list_all (is_typed_measure (leaves_of model x)) x.measures) model.explores ≡ true }
{}

/// The measures of the aggregate and derived tables of such a model may be stored, each of its explores reaches at most one
/// datagroup, and no derived table reads itself. A law: it computes nothing. (Looker, LookML reference: aggregate_table,
/// derived_table, datagroup_trigger; lookd)
pub fn measures_may_be_stored()
    ensures rollups { (schema : Schema) (merged : Merged) (model : Model) → HasModel schema merged (Ok model)
        → list_all (λ x. list_all (may_be_rolled_up x) x.rollups) model.explores ≡ true }
    ensures derived { (schema : Schema) (merged : Merged) (model : Model) → HasModel schema merged (Ok model)
        → list_all (may_be_derived model) model.derived ≡ true }
    ensures one_datagroup { (schema : Schema) (merged : Merged) (model : Model) → HasModel schema merged (Ok model)
        → list_all (λ x. are_one (explore_datagroups model x)) model.explores ≡ true }
    ensures acyclic { (schema : Schema) (merged : Merged) (model : Model) → HasModel schema merged (Ok model)
        → list_all (λ d. not (reads_itself model d)) (numbers_below (length model.derived)) ≡ true }
{}

/// The aggregate and derived tables of such a model depend on no moment: neither a filter of theirs nor one of a measure of
/// which they are made is a relative date. A law: it computes nothing. (Looker, filter expressions: date; lookd)
pub fn stored_queries_are_fixed()
    ensures rollups { (schema : Schema) (merged : Merged) (model : Model) → HasModel schema merged (Ok model)
        → list_all (λ x. list_all (is_fixed_rollup x) x.rollups) model.explores ≡ true }
    ensures derived { (schema : Schema) (merged : Merged) (model : Model) → HasModel schema merged (Ok model)
        → list_all (is_fixed_derived model) model.derived ≡ true }
{}

/// Each filter of such a model is a filter of the kind of the dimension that it is on, where the views of each explore have names
/// of their own without a dot, and each raw time is a day or a moment. The latter is so where each field that is declared has the
/// code that its type takes, and, if there are derived tables, the former holds. A law: it computes nothing. (Looker, LookML
/// reference: filters, always_filter, aggregate_table, derived_table)
pub fn filters_are_of_their_fields()
    ensures explores { (schema : Schema) (merged : Merged) (model : Model) → HasModel schema merged (Ok model)
        → list_all has_own_names model.explores ≡ true → list_all has_raw_times model.explores ≡ true
        → list_all has_typed_filters model.explores ≡ true }
    ensures derived { (schema : Schema) (merged : Merged) (model : Model) → HasModel schema merged (Ok model)
        → list_all has_own_names model.explores ≡ true → list_all has_raw_times model.explores ≡ true
        → list_all (has_typed_sources model) model.derived ≡ true }
    ensures times { (schema : Schema) (merged : Merged) (model : Model) (h : HasModel schema merged (Ok model)) → HavePlainTables model h.declared
        → AllByRecursion (λ v. AllByRecursion (λ f. has_code f.sort f.sql ≡ true) v.fields) h.declared.views
        → list_all has_raw_times model.explores ≡ true }
{}

/// In such a model a cross join has no condition, and that of each other join is yes or no, if it has one. Each has one where each
/// join that is declared has an expression or a key as its condition. Where it has derived tables, the views of each explore have
/// names of their own, and each field that is declared has the code that its type takes. A law: it computes nothing. (Looker, LookML
/// reference: sql_on, foreign_key)
pub fn joins_have_their_conditions()
    ensures joins { (schema : Schema) (merged : Merged) (model : Model) (h : HasModel schema merged (Ok model)) → HavePlainTables model h.declared
        → list_all (λ x. list_all (λ j. is_free j || is_typed_join (leaves_of model x) j) x.joins) model.explores ≡ true }
    ensures conditions { (schema : Schema) (merged : Merged) (model : Model) (h : HasModel schema merged (Ok model)) → HavePlainTables model h.declared
        → AllByRecursion (λ x. AllByRecursion (λ j. has_condition j ≡ true) x.joins) h.declared.explores
        → list_all (λ x. list_all (is_typed_join (leaves_of model x)) x.joins) model.explores ≡ true }
{}

/// Over effective objects that texts spell, the fields of such a model have the codes that their types take, its joins have their
/// conditions, and the views of each of its explores have names of their own. A law: it computes nothing. (lookd)
pub fn spelled_objects_suffice()
    ensures codes { (schema : Schema) (merged : Merged) (model : Model) (h : HasModel schema merged (Ok model)) → are_spelled merged ≡ true
        → AllByRecursion (λ v. AllByRecursion (λ f. has_code f.sort f.sql ≡ true) v.fields) h.declared.views }
    ensures conditions { (schema : Schema) (merged : Merged) (model : Model) (h : HasModel schema merged (Ok model)) → are_spelled merged ≡ true
        → AllByRecursion (λ x. AllByRecursion (λ j. has_condition j ≡ true) x.joins) h.declared.explores }
    ensures names { (schema : Schema) (merged : Merged) (model : Model) → HasModel schema merged (Ok model) → are_spelled merged ≡ true
        → list_all has_own_names model.explores ≡ true }
{}

/// Over effective objects that texts spell and a schema that is read from a text, such a model is resolved. A law: it computes
/// nothing. (lookd)
pub fn models_are_resolved()
    ensures { (text : List ℕ) (schema : Schema) (merged : Merged) (model : Model) → schema_of text ≡ Ok schema
        → HasModel schema merged (Ok model) → are_spelled merged ≡ true → IsResolved model }
{}
