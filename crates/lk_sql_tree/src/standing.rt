ghost use Rattle.std.specs.Prelude.{◌≡◌, ◌&&◌, [], drop, IfOk};
ghost use Rattle.lk_postfix.specs.Postfix.{after_nodes};
ghost use Rattle.lk_sql_tree.specs.SqlNodes.{arity, sql_of};
ghost use Rattle.lk_sql_tree.specs.Texts.{pattern_text};
ghost use Rattle.lk_sql_tree.specs.Forms.{is_literal};
ghost use Rattle.lk_sql_tree.specs.Standings.{all_behind, all_groups, all_rows, at, both, either_if, groups_if, rows_if, standing_made, standing_of};
ghost use Rattle.std.specs.Str.{is_utf8};
ghost use Rattle.lk_val.specs.declared.value.Value.TheVariants as value;

use crate::node::SqlNode;
use crate::quoting::pattern_text;
use lk_postfix::{Stack, TakesOperands};
use lk_types::Piece;
use lk_val::{NoMemory, Num, Text, Value, is_text};
use std::alloc::Global;

// The days and the seconds of the years 1 to 9999, from 1970-01-01 00:00:00 UTC.
const FIRST_DAY: i32 = -719162;

const LAST_DAY: i32 = 2932896;

const FIRST_SECOND: i64 = -62135596800;

const LAST_SECOND: i64 = 253402300799;

// The counts of 1/10,000 that 64 bits hold.
const LEAST_COUNT: i128 = -9223372036854775808;

const PAST_COUNT: i128 = 9223372036854775808;

/// What an expression stands over: the columns of rows, the aggregates of groups, both where it has neither columns nor
/// aggregates, and nothing where it mixes them.
#[derive(Clone, Copy)]
pub(crate) struct Standing {
    pub rows: bool,
    pub groups: bool,
}

impl Standing {
    fn rows_if(rows: bool) -> Standing
        ensures { result ≡ rows_if rows }
    {
        Standing {
            rows,
            groups: false,
        }
    }

    fn groups_if(groups: bool) -> Standing
        ensures { result ≡ groups_if groups }
    {
        Standing {
            rows: false,
            groups,
        }
    }

    fn either_if(either: bool) -> Standing
        ensures { result ≡ either_if either }
    {
        Standing {
            rows: either,
            groups: either,
        }
    }

    // Over what both stand.
    fn both(self, other: Standing) -> Standing
        ensures { result ≡ both self other }
    {
        Standing {
            rows: self.rows && other.rows,
            groups: self.groups && other.groups,
        }
    }
}

/// What the expression of some nodes stands over.
pub(crate) fn standing_of_nodes(alloc: Global, nodes: &[SqlNode]) -> Result<Standing, NoMemory>
    ensures { IfOk result (λ standing. standing ≡ standing_of (sql_of nodes.now)) }
{
    let stack = standings_left(alloc, nodes)?;
    Ok(at(stack.as_slice(), 0))
}

// What the nodes leave on the stack.
fn standings_left(alloc: Global, nodes: &[SqlNode]) -> Result<Stack<Standing>, NoMemory>
    ensures { IfOk result (λ stack. stack ≡ after_nodes arity standing_made [] nodes.now) }
{
    let mut stack = Stack::new(alloc);
    for node in nodes {
        let count = node.arity();
        let made = standing_made(alloc, node, stack.operands(count))?;
        stack.replace(count, made)?;
    }
    Ok(stack)
}

/// What a node stands over, given what its operands do. Only a pattern's text takes memory.
pub(crate) fn standing_made(
    alloc: Global,
    node: &SqlNode,
    operands: &[Standing],
) -> Result<Standing, NoMemory>
    ensures { IfOk result (λ standing. standing ≡ standing_made node.now operands.now) }
{
    let (a, b) = (at(operands, 0), at(operands, 1));
    Ok(match node {
        SqlNode::Column { part, name } => Standing::rows_if(are_texts(part, name)),
        SqlNode::Literal(value) => Standing::either_if(is_literal(value)),
        SqlNode::Framed(_) | SqlNode::Lower | SqlNode::Upper => Standing::rows_if(a.rows),
        SqlNode::Not | SqlNode::IsNull | SqlNode::Negate => a,
        SqlNode::And | SqlNode::Or | SqlNode::Compare(_) => a.both(b),
        SqlNode::Number(_) | SqlNode::NullIf => a.both(b),
        SqlNode::Like(pieces) => {
            a.both(Standing::either_if(is_pattern(alloc, pieces.as_slice())?))
        }
        SqlNode::Concat => Standing::rows_if(a.rows && b.rows),
        SqlNode::In(_) | SqlNode::Case(_) => {
            Standing::rows_if(a.rows && b.rows && all_behind(operands, 2).rows)
        }
        SqlNode::Coalesce(_) => a.both(all_behind(operands, 1)),
        SqlNode::CountRows => Standing::groups_if(true),
        SqlNode::Folded(_) => Standing::groups_if(a.rows),
        SqlNode::ByKey(_) => Standing::groups_if(a.rows && b.rows),
    })
}

// What an operand stands over, by its place; both where there is none.
fn at(operands: &[Standing], place: usize) -> Standing
    ensures { result ≡ at operands.now place }
{
    match operands.get(place) {
        Some(standing) => *standing,
        None => Standing::either_if(true),
    }
}

// Over what all operands stand but the first so many.
fn all_behind(operands: &[Standing], count: usize) -> Standing
    ensures { result ≡ all_behind count operands.now }
{
    let further = behind(operands, count);
    Standing {
        rows: all_rows(further),
        groups: all_groups(further),
    }
}

fn behind(operands: &[Standing], count: usize) -> &[Standing]
    ensures { result.now ≡ drop count operands.now }
{
    operands.split_at(operands.len().min(count)).1
}

fn all_rows(operands: &[Standing]) -> bool
    ensures { result ≡ all_rows operands.now }
{
    operands.iter().all(|standing| standing.rows)
}

fn all_groups(operands: &[Standing]) -> bool
    ensures { result ≡ all_groups operands.now }
{
    operands.iter().all(|standing| standing.groups)
}

// A `Text` is always UTF-8; the test says so to the clause.
fn are_texts(part: &Text, name: &Text) -> bool
    ensures { result ≡ (is_utf8 part.now && is_utf8 name.now) }
{
    is_text(part.as_bytes()) && is_text(name.as_bytes())
}

// Whether the text of a pattern is UTF-8.
fn is_pattern(alloc: Global, pieces: &[Piece]) -> Result<bool, NoMemory>
    ensures { IfOk result (λ is. is ≡ is_utf8 (pattern_text pieces.now)) }
{
    let text = pattern_text(alloc, pieces)?;
    Ok(is_text(text.as_slice()))
}

// Whether a literal may have the value.
fn is_literal(value: &Value) -> bool
    ensures { result ≡ is_literal value.now }
{
    match value {
        Value::Null | Value::Truth(_) => true,
        Value::Num(num) => is_count(*num),
        Value::Text(text) => is_text(text.as_bytes()),
        Value::Day(day) => (FIRST_DAY..=LAST_DAY).contains(day),
        Value::Moment(moment) => (FIRST_SECOND..=LAST_SECOND).contains(moment),
    }
}

// A `Num` is always of 64 bits; the test says so to the clause.
fn is_count(num: Num) -> bool
    ensures { result ≡ is_literal (value.Num num) }
{
    let count = i128::from(num.0);
    (LEAST_COUNT..PAST_COUNT).contains(&count)
}
