//! The types of a resolved model, a query and an answer, and what a query answers.
#![tactic(auto)]

mod answer;
mod bound;
mod calendar;
mod copying;
mod examples;
mod explore;
mod expr;
mod filter;
mod kind_set;
mod laws;
mod model;
mod number;
mod pattern;
mod printing;
mod rows;
mod schema;

pub use answer::{Answer, GivenRow, GroupRow, KeyValue, Pair, Partial, Reply, Route, RouteFrom};
pub use bound::{Bound, Plan, Query, Sort};
pub use calendar::{day_of_moment, from_year_one, month_of, month_start, year_of, year_start};
pub use examples::{
    cells_and_shapes_are_told_apart, expressions_are_computed, filters_pass_values,
    timeframes_are_computed,
};
pub use explore::{
    Explore, Field, Join, JoinKind, Measure, Op, Origin, Part, Relation, Rollup, Shape,
};
pub use expr::{Arithmetic, Comparison, Expr, Node, Piece};
pub use filter::{Days, Edge, End, Filter, Period, Test};
pub use kind_set::{KindSet, Leaves};
pub use laws::{
    comparisons_stand_for_lists_and_ranges, expressions_read_what_they_mention,
    shaped_values_have_their_kinds,
};
pub use model::{Datagroup, Derived, Model, Pick, Trigger};
pub use number::{NumExpr, NumNode};
pub use pattern::matches;
pub use printing::{print_cell, print_json};
pub use rows::{Joined, Sources, Tables};
pub use schema::{ColumnDef, Frame, Kind, Schema, TableDef};
