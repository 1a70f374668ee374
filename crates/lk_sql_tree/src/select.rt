use crate::expr::SqlExpr;
use lk_types::JoinKind;
use lk_val::{Items, Text};

/// A SELECT of SQL. `rows` is the condition of WHERE, `groups` has the places of GROUP BY among the items, from 1, and
/// `limit` is the number of LIMIT; a clause that is empty or none is not printed. (SQL)
#[derive(Drop)]
pub struct Select {
    pub items: Items<SqlItem>,
    pub from: SqlTable,
    pub joins: Items<SqlJoin>,
    pub rows: Option<SqlExpr>,
    pub groups: Items<u32>,
    pub having: Option<SqlExpr>,
    pub sorts: Items<SqlSort>,
    pub limit: Option<u32>,
}

/// A value of each line of the answer, under the name of its column.
#[derive(Drop)]
pub struct SqlItem {
    pub value: SqlExpr,
    pub name: Text,
}

/// A table by its name, under the name of the part that it is in the joined rows.
#[derive(Drop)]
pub struct SqlTable {
    pub table: Text,
    pub part: Text,
}

/// A table that is joined to those before it. Only a cross join has no condition.
#[derive(Drop)]
pub struct SqlJoin {
    pub kind: JoinKind,
    pub right: SqlTable,
    pub on: Option<SqlExpr>,
}

/// A sort by an item, named by its place from 1. Null stands before all values, and behind them where the sort is
/// descending.
#[derive(Clone, Copy, PartialEq, Eq)]
pub struct SqlSort {
    pub place: u32,
    pub down: bool,
}
