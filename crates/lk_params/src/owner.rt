ghost use Rattle.std.specs.Prelude.{◌≡◌};
ghost use Rattle.std.specs.List.{list_any};
ghost use Rattle.lk_val.specs.Texts.{is_same_text};
ghost use Rattle.lk_params.specs.Owners.{has_effect, is_display};

/// What a block of parameters belongs to.
#[derive(Clone, Copy, PartialEq, Eq)]
pub enum Owner {
    File,
    View,
    Dimension,
    DimensionGroup,
    Measure,
    Explore,
    Join,
    AlwaysFilter,
    AccessFilter,
    AggregateTable,
    Query,
    Materialization,
    DerivedTable,
    ExploreSource,
    Column,
    Filters,
    Datagroup,
}

const FILE: [&str; 4] = ["include", "view", "explore", "datagroup"];

const VIEW: [&str; 8] = [
    "sql_table_name",
    "derived_table",
    "dimension",
    "dimension_group",
    "measure",
    "extends",
    "extension",
    "final",
];

const DIMENSION: [&str; 5] = ["type", "sql", "primary_key", "tiers", "style"];

const GROUP: [&str; 3] = ["type", "sql", "timeframes"];

const MEASURE: [&str; 4] = ["type", "sql", "sql_distinct_key", "filters"];

const EXPLORE: [&str; 10] = [
    "from",
    "join",
    "always_join",
    "always_filter",
    "sql_always_where",
    "access_filter",
    "aggregate_table",
    "extends",
    "extension",
    "final",
];

const JOIN: [&str; 6] = [
    "from",
    "type",
    "relationship",
    "sql_on",
    "foreign_key",
    "required_joins",
];

const DATAGROUP: [&str; 2] = ["sql_trigger", "interval_trigger"];

const QUERY: [&str; 4] = ["dimensions", "measures", "filters", "timezone"];

/// Whether a parameter has an effect in a block of this owner. (Looker, LookML reference; lookd)
pub fn has_effect(owner: Owner, name: &str) -> bool
    ensures { result ≡ has_effect owner name.now }
{
    match owner {
        Owner::File => is_one_of(&FILE, name),
        Owner::View => is_one_of(&VIEW, name),
        Owner::Dimension => is_one_of(&DIMENSION, name),
        Owner::DimensionGroup => is_one_of(&GROUP, name),
        Owner::Measure => is_one_of(&MEASURE, name),
        Owner::Explore => is_one_of(&EXPLORE, name),
        Owner::Join => is_one_of(&JOIN, name),
        Owner::AlwaysFilter => is_one_of(&["filters"], name),
        Owner::AccessFilter => is_one_of(&["field", "user_attribute"], name),
        Owner::AggregateTable => is_one_of(&["query", "materialization"], name),
        Owner::Query => is_one_of(&QUERY, name),
        Owner::Materialization => is_one_of(&["datagroup_trigger"], name),
        Owner::DerivedTable => is_one_of(&["explore_source", "datagroup_trigger"], name),
        Owner::ExploreSource => is_one_of(&["column", "filters"], name),
        Owner::Column => is_one_of(&["field"], name),
        Owner::Filters => is_one_of(&["field", "value"], name),
        Owner::Datagroup => is_one_of(&DATAGROUP, name),
    }
}

const DISPLAY: [&str; 27] = [
    "label",
    "description",
    "group_label",
    "group_item_label",
    "view_label",
    "value_format",
    "value_format_name",
    "drill_fields",
    "set",
    "tags",
    "link",
    "html",
    "hidden",
    "action",
    "persist_with",
    "connection",
    "week_start_day",
    "max_cache_age",
    "map_layer_name",
    "convert_tz",
    "datatype",
    "suggestions",
    "suggestable",
    "suggest_dimension",
    "suggest_explore",
    "can_filter",
    "order_by_field",
];

/// Whether a parameter is read in a block of this owner and has no effect. (Looker, LookML reference; lookd)
pub fn is_display(owner: Owner, name: &str) -> bool
    ensures { result ≡ is_display owner name.now }
{
    is_one_of(&DISPLAY, name) || (owner == Owner::Query && name == "sorts")
}

fn is_one_of(names: &[&str], name: &str) -> bool
    ensures { result ≡ list_any (λ n. is_same_text n.now name.now) names.now }
{
    names.iter().any(|n| *n == name)
}
