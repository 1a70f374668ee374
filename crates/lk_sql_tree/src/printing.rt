ghost use Rattle.std.specs.Prelude.{◌≡◌, ◌++◌, codes, decimal, IfOk, OnOk};
ghost use Rattle.lk_sql_tree.specs.SelectTexts.{direction_text, join_front, select_text};
ghost use Rattle.lk_sql_tree.specs.ClauseTexts.{back_text, clause_text, condition_text, from_text, front_text, further_text, item_text, join_text, joins_text, limit_text, on_text, sort_text, table_text};

use crate::expr::SqlExpr;
use crate::quoting::append_name;
use crate::select::{Select, SqlItem, SqlJoin, SqlSort, SqlTable};
use lk_types::JoinKind;
use lk_val::{Bytes, NoMemory, Text};
use std::alloc::Global;

/// The text of a SELECT: each clause that has content is one line, ended by a line feed. It is that of any tree; an
/// expression of n nodes costs the sum of the lengths of the texts of all its nodes. (SQL; lookd)
pub fn print_sql(alloc: Global, s: &Select) -> Result<Bytes, NoMemory>
    ensures { IfOk result (λ text. text ≡ select_text s.now) }
{
    let mut text = Bytes::new(alloc);
    append_front(&mut text, alloc, s)?;
    append_back(&mut text, alloc, s)?;
    Ok(text)
}

// The clauses that say which rows are joined: SELECT, FROM, the joins and WHERE.
fn append_front(text: &mut Bytes, alloc: Global, s: &Select) -> Result<(), NoMemory>
    ensures { OnOk result (text.new ≡ text.old ++ front_text s.now) }
{
    append_items(text, alloc, s.items.as_slice())?;
    append_from(text, &s.from)?;
    append_joins(text, alloc, s.joins.as_slice())?;
    append_condition(text, alloc, b"WHERE ", &s.rows)
}

// The clauses that say what becomes of these rows: GROUP BY, HAVING, ORDER BY and LIMIT.
fn append_back(text: &mut Bytes, alloc: Global, s: &Select) -> Result<(), NoMemory>
    ensures { OnOk result (text.new ≡ text.old ++ back_text s.now) }
{
    append_groups(text, alloc, s.groups.as_slice())?;
    append_condition(text, alloc, b"HAVING ", &s.having)?;
    append_sorts(text, alloc, s.sorts.as_slice())?;
    append_limit(text, alloc, s.limit)
}

fn append_items(text: &mut Bytes, alloc: Global, items: &[SqlItem]) -> Result<(), NoMemory>
    ensures { OnOk result (text.new ≡ text.old ++ clause_text (codes "SELECT ") item_text items.now) }
{
    let Some((first, others)) = items.split_first() else {
        return Ok(());
    };
    text.append(b"SELECT ")?;
    append_item(text, alloc, first)?;
    append_further_items(text, alloc, others)?;
    text.append(b"\n")
}

fn append_further_items(text: &mut Bytes, alloc: Global, items: &[SqlItem]) -> Result<(), NoMemory>
    ensures { OnOk result (text.new ≡ text.old ++ further_text item_text items.now) }
{
    for item in items {
        text.append(b", ")?;
        append_item(text, alloc, item)?;
    }
    Ok(())
}

fn append_item(text: &mut Bytes, alloc: Global, item: &SqlItem) -> Result<(), NoMemory>
    ensures { OnOk result (text.new ≡ text.old ++ item_text item.now) }
{
    item.value.append_to(text, alloc)?;
    text.append(b" AS ")?;
    append_name(text, &item.name)
}

fn append_from(text: &mut Bytes, table: &SqlTable) -> Result<(), NoMemory>
    ensures { OnOk result (text.new ≡ text.old ++ from_text table.now) }
{
    text.append(b"FROM ")?;
    append_table(text, table)?;
    text.append(b"\n")
}

fn append_table(text: &mut Bytes, table: &SqlTable) -> Result<(), NoMemory>
    ensures { OnOk result (text.new ≡ text.old ++ table_text table.now) }
{
    append_name(text, &table.table)?;
    text.append(b" AS ")?;
    append_name(text, &table.part)
}

fn append_joins(text: &mut Bytes, alloc: Global, joins: &[SqlJoin]) -> Result<(), NoMemory>
    ensures { OnOk result (text.new ≡ text.old ++ joins_text joins.now) }
{
    for join in joins {
        append_join(text, alloc, join)?;
    }
    Ok(())
}

fn append_join(text: &mut Bytes, alloc: Global, join: &SqlJoin) -> Result<(), NoMemory>
    ensures { OnOk result (text.new ≡ text.old ++ join_text join.now) }
{
    text.append(join_front(join.kind))?;
    append_table(text, &join.right)?;
    append_on(text, alloc, &join.on)?;
    text.append(b"\n")
}

fn join_front(kind: JoinKind) -> &'static [u8]
    ensures { result.now ≡ join_front kind }
{
    match kind {
        JoinKind::Left => b"LEFT JOIN ",
        JoinKind::Full => b"FULL JOIN ",
        JoinKind::Inner => b"INNER JOIN ",
        JoinKind::Cross => b"CROSS JOIN ",
    }
}

fn append_on(text: &mut Bytes, alloc: Global, on: &Option<SqlExpr>) -> Result<(), NoMemory>
    ensures { OnOk result (text.new ≡ text.old ++ on_text on.now) }
{
    match on {
        Some(condition) => {
            text.append(b" ON ")?;
            condition.append_to(text, alloc)
        }
        None => Ok(()),
    }
}

// A condition behind its word, where there is one.
fn append_condition(
    text: &mut Bytes,
    alloc: Global,
    front: &[u8],
    condition: &Option<SqlExpr>,
) -> Result<(), NoMemory>
    ensures { OnOk result (text.new ≡ text.old ++ condition_text front.now condition.now) }
{
    match condition {
        Some(condition) => {
            text.append(front)?;
            condition.append_to(text, alloc)?;
            text.append(b"\n")
        }
        None => Ok(()),
    }
}

fn append_groups(text: &mut Bytes, alloc: Global, places: &[u32]) -> Result<(), NoMemory>
    ensures { OnOk result (text.new ≡ text.old ++ clause_text (codes "GROUP BY ") decimal places.now) }
{
    let Some((first, others)) = places.split_first() else {
        return Ok(());
    };
    text.append(b"GROUP BY ")?;
    append_number(text, alloc, *first)?;
    append_further_places(text, alloc, others)?;
    text.append(b"\n")
}

fn append_further_places(text: &mut Bytes, alloc: Global, places: &[u32]) -> Result<(), NoMemory>
    ensures { OnOk result (text.new ≡ text.old ++ further_text decimal places.now) }
{
    for place in places {
        text.append(b", ")?;
        append_number(text, alloc, *place)?;
    }
    Ok(())
}

fn append_sorts(text: &mut Bytes, alloc: Global, sorts: &[SqlSort]) -> Result<(), NoMemory>
    ensures { OnOk result (text.new ≡ text.old ++ clause_text (codes "ORDER BY ") sort_text sorts.now) }
{
    let Some((first, others)) = sorts.split_first() else {
        return Ok(());
    };
    text.append(b"ORDER BY ")?;
    append_sort(text, alloc, *first)?;
    append_further_sorts(text, alloc, others)?;
    text.append(b"\n")
}

fn append_further_sorts(text: &mut Bytes, alloc: Global, sorts: &[SqlSort]) -> Result<(), NoMemory>
    ensures { OnOk result (text.new ≡ text.old ++ further_text sort_text sorts.now) }
{
    for sort in sorts {
        text.append(b", ")?;
        append_sort(text, alloc, *sort)?;
    }
    Ok(())
}

fn append_sort(text: &mut Bytes, alloc: Global, sort: SqlSort) -> Result<(), NoMemory>
    ensures { OnOk result (text.new ≡ text.old ++ sort_text sort) }
{
    append_number(text, alloc, sort.place)?;
    text.append(direction_text(sort.down))
}

fn direction_text(down: bool) -> &'static [u8]
    ensures { result.now ≡ direction_text down }
{
    if down {
        b" DESC NULLS LAST"
    } else {
        b" ASC NULLS FIRST"
    }
}

fn append_limit(text: &mut Bytes, alloc: Global, limit: Option<u32>) -> Result<(), NoMemory>
    ensures { OnOk result (text.new ≡ text.old ++ limit_text limit) }
{
    let Some(limit) = limit else {
        return Ok(());
    };
    text.append(b"LIMIT ")?;
    append_number(text, alloc, limit)?;
    text.append(b"\n")
}

fn append_number(text: &mut Bytes, alloc: Global, number: u32) -> Result<(), NoMemory>
    ensures { OnOk result (text.new ≡ text.old ++ decimal number) }
{
    let printed = Text::from_string(format!(in alloc; "{number}")?);
    text.append(printed.as_bytes())
}
