ghost use Rattle.std.specs.Prelude.{◌≡◌, ◌++◌, ◌≤◌, [], codes, drop, length, IfOk, OnOk};
ghost use Rattle.lk_postfix.specs.Postfix.{after_nodes};
ghost use Rattle.lk_sql_tree.specs.SqlNodes.{arity, sql_of};
ghost use Rattle.lk_sql_tree.specs.Texts.{arithmetic_text, comparison_text, fold_back, fold_front, frame_name, key_front, name_text, pattern_text, quoted_text};
ghost use Rattle.lk_sql_tree.specs.NodeTexts.{around, between, branched, case_text, coalesce_text, in_text, listed, operand_text, text_made, text_of};

use crate::node::{Fold, KeyFold, SqlNode};
use crate::quoting::{append_literal, append_name, append_pattern};
use lk_postfix::{Stack, TakesOperands};
use lk_types::{Arithmetic, Comparison, Frame, Piece};
use lk_val::{Bytes, NoMemory, Text};
use std::alloc::Global;

/// Adds the text of the expression of some nodes.
pub(crate) fn append_nodes(
    text: &mut Bytes,
    alloc: Global,
    nodes: &[SqlNode],
) -> Result<(), NoMemory>
    ensures { OnOk result (text.new ≡ text.old ++ text_of (sql_of nodes.now)) }
{
    let stack = texts_left(alloc, nodes)?;
    append_operand(text, stack.as_slice(), 0)
}

// The texts that the nodes leave on the stack.
fn texts_left(alloc: Global, nodes: &[SqlNode]) -> Result<Stack<Bytes>, NoMemory>
    ensures { IfOk result (λ stack. stack ≡ after_nodes arity text_made [] nodes.now) }
{
    let mut stack = Stack::new(alloc);
    for node in nodes {
        let count = node.arity();
        let made = text_made(alloc, node, stack.operands(count))?;
        stack.replace(count, made)?;
    }
    Ok(stack)
}

fn text_made(alloc: Global, node: &SqlNode, operands: &[Bytes]) -> Result<Bytes, NoMemory>
    ensures { IfOk result (λ text. text ≡ text_made node.now operands.now) }
{
    let mut text = Bytes::new(alloc);
    append_node(&mut text, alloc, node, operands)?;
    Ok(text)
}

// Adds the text of a node, given those of its operands.
fn append_node(
    text: &mut Bytes,
    alloc: Global,
    node: &SqlNode,
    operands: &[Bytes],
) -> Result<(), NoMemory>
    ensures { OnOk result (text.new ≡ text.old ++ text_made node.now operands.now) }
{
    match node {
        SqlNode::Column { part, name } => append_column(text, part, name),
        SqlNode::Literal(value) => append_literal(text, alloc, value),
        SqlNode::Framed(frame) => append_around(text, frame_front(*frame), operands, b")"),
        SqlNode::Not => append_around(text, b"(NOT ", operands, b")"),
        SqlNode::And => append_between(text, b"(", b" AND ", operands),
        SqlNode::Or => append_between(text, b"(", b" OR ", operands),
        SqlNode::Compare(comparison) => {
            append_between(text, b"(", comparison_text(*comparison), operands)
        }
        SqlNode::IsNull => append_around(text, b"(", operands, b" IS NULL)"),
        SqlNode::In(_) => append_in(text, operands),
        SqlNode::Like(pieces) => append_like(text, alloc, operands, pieces.as_slice()),
        SqlNode::Number(op) => append_between(text, b"(", arithmetic_text(*op), operands),
        SqlNode::Negate => append_around(text, b"(- ", operands, b")"),
        SqlNode::Concat => append_between(text, b"(", b" || ", operands),
        SqlNode::Lower => append_around(text, b"LOWER(", operands, b")"),
        SqlNode::Upper => append_around(text, b"UPPER(", operands, b")"),
        SqlNode::Case(_) => append_case(text, operands),
        SqlNode::Coalesce(_) => append_coalesce(text, operands),
        SqlNode::NullIf => append_between(text, b"NULLIF(", b", ", operands),
        SqlNode::CountRows => text.append(b"COUNT(*)"),
        SqlNode::Folded(fold) => append_around(text, fold_front(*fold), operands, fold_back(*fold)),
        SqlNode::ByKey(fold) => append_between(text, key_front(*fold), b", ", operands),
    }
}

fn append_column(text: &mut Bytes, part: &Text, name: &Text) -> Result<(), NoMemory>
    ensures { OnOk result (text.new ≡ text.old ++ (name_text part.now ++ (codes "." ++ name_text name.now))) }
{
    append_name(text, part)?;
    text.append(b".")?;
    append_name(text, name)
}

fn append_like(
    text: &mut Bytes,
    alloc: Global,
    operands: &[Bytes],
    pieces: &[Piece],
) -> Result<(), NoMemory>
    ensures { OnOk result (text.new
        ≡ text.old ++ around (codes "(") operands.now (codes " LIKE " ++ (quoted_text (pattern_text pieces.now) ++ codes ")"))) }
{
    append_around(text, b"(", operands, b" LIKE ")?;
    append_pattern(text, alloc, pieces)?;
    text.append(b")")
}

fn append_in(text: &mut Bytes, operands: &[Bytes]) -> Result<(), NoMemory>
    ensures { OnOk result (text.new ≡ text.old ++ in_text operands.now) }
{
    append_around(text, b"(", operands, b" IN (")?;
    append_operand(text, operands, 1)?;
    append_listed(text, behind(operands, 2))?;
    text.append(b"))")
}

fn append_case(text: &mut Bytes, operands: &[Bytes]) -> Result<(), NoMemory>
    ensures { OnOk result (text.new ≡ text.old ++ case_text operands.now) }
{
    append_around(text, b"CASE WHEN ", operands, b" THEN ")?;
    append_operand(text, operands, 1)?;
    append_branched(text, behind(operands, 2))
}

fn append_coalesce(text: &mut Bytes, operands: &[Bytes]) -> Result<(), NoMemory>
    ensures { OnOk result (text.new ≡ text.old ++ coalesce_text operands.now) }
{
    append_around(text, b"COALESCE(", operands, b"")?;
    append_listed(text, behind(operands, 1))?;
    text.append(b")")
}

// One operand between two texts.
fn append_around(
    text: &mut Bytes,
    front: &[u8],
    operands: &[Bytes],
    back: &[u8],
) -> Result<(), NoMemory>
    ensures { OnOk result (text.new ≡ text.old ++ around front.now operands.now back.now) }
{
    text.append(front)?;
    append_operand(text, operands, 0)?;
    text.append(back)
}

// Two operands with a sign between them, and a bracket at the end.
fn append_between(
    text: &mut Bytes,
    front: &[u8],
    sign: &[u8],
    operands: &[Bytes],
) -> Result<(), NoMemory>
    ensures { OnOk result (text.new ≡ text.old ++ between front.now sign.now operands.now) }
{
    append_around(text, front, operands, sign)?;
    append_operand(text, operands, 1)?;
    text.append(b")")
}

// An operand by its place; null where there is none.
fn append_operand(text: &mut Bytes, operands: &[Bytes], place: usize) -> Result<(), NoMemory>
    ensures { OnOk result (text.new ≡ text.old ++ operand_text operands.now place) }
{
    match operands.get(place) {
        Some(operand) => text.append(operand.as_slice()),
        None => text.append(b"NULL"),
    }
}

// All operands but the first so many.
fn behind(operands: &[Bytes], count: usize) -> &[Bytes]
    ensures { result.now ≡ drop count operands.now }
{
    operands.split_at(operands.len().min(count)).1
}

// Further items of a list, each behind a comma.
fn append_listed(text: &mut Bytes, items: &[Bytes]) -> Result<(), NoMemory>
    ensures { OnOk result (text.new ≡ text.old ++ listed items.now) }
{
    for item in items {
        text.append(b", ")?;
        text.append(item.as_slice())?;
    }
    Ok(())
}

// What follows the first branch of a CASE.
fn append_branched(text: &mut Bytes, operands: &[Bytes]) -> Result<(), NoMemory>
    ensures { OnOk result (text.new ≡ text.old ++ branched operands.now) }
{
    let mut rest = operands;
    while let [condition, value, further @ ..] = rest {
        append_branch(text, condition.as_slice(), value.as_slice())?;
        rest = further;
    }
    append_else(text, rest)
}

fn append_branch(text: &mut Bytes, condition: &[u8], value: &[u8]) -> Result<(), NoMemory>
    ensures { OnOk result (text.new ≡ text.old ++ (codes " WHEN " ++ (condition.now ++ (codes " THEN " ++ value.now)))) }
{
    text.append(b" WHEN ")?;
    text.append(condition)?;
    text.append(b" THEN ")?;
    text.append(value)
}

// The end of a CASE, whose ELSE is there or not.
fn append_else(text: &mut Bytes, value: &[Bytes]) -> Result<(), NoMemory>
    requires { length value.now ≤ 1 }
    ensures { OnOk result (text.new ≡ text.old ++ branched value.now) }
{
    if let Some(value) = value.first() {
        text.append(b" ELSE ")?;
        text.append(value.as_slice())?;
    }
    text.append(b" END")
}

/// A comparison between its operands. (SQL)
pub fn comparison_text(comparison: Comparison) -> &'static [u8]
    ensures { result.now ≡ comparison_text comparison }
{
    match comparison {
        Comparison::Equal => b" = ",
        Comparison::NotEqual => b" <> ",
        Comparison::Less => b" < ",
        Comparison::AtMost => b" <= ",
        Comparison::Greater => b" > ",
        Comparison::AtLeast => b" >= ",
    }
}

/// An operation on two numbers between its operands. (SQL)
pub fn arithmetic_text(op: Arithmetic) -> &'static [u8]
    ensures { result.now ≡ arithmetic_text op }
{
    match op {
        Arithmetic::Plus => b" + ",
        Arithmetic::Minus => b" - ",
        Arithmetic::Times => b" * ",
        Arithmetic::Over => b" / ",
    }
}

/// What stands before the expression of a timeframe: its name. (Looker, LookML reference: timeframes)
pub fn frame_front(frame: Frame) -> &'static [u8]
    ensures { result.now ≡ codes "DATE_FRAME('" ++ (frame_name frame ++ codes "', ") }
{
    match frame {
        Frame::Raw => b"DATE_FRAME('raw', ",
        Frame::Time => b"DATE_FRAME('time', ",
        Frame::Date => b"DATE_FRAME('date', ",
        Frame::Week => b"DATE_FRAME('week', ",
        Frame::Month => b"DATE_FRAME('month', ",
        Frame::Quarter => b"DATE_FRAME('quarter', ",
        Frame::Year => b"DATE_FRAME('year', ",
        Frame::HourOfDay => b"DATE_FRAME('hour_of_day', ",
        Frame::DayOfWeek => b"DATE_FRAME('day_of_week', ",
        Frame::DayOfMonth => b"DATE_FRAME('day_of_month', ",
        Frame::MonthNum => b"DATE_FRAME('month_num', ",
    }
}

/// What stands before the expression of an aggregate. (SQL)
pub fn fold_front(fold: Fold) -> &'static [u8]
    ensures { result.now ≡ fold_front fold }
{
    match fold {
        Fold::Count => b"COUNT(",
        Fold::Distinct => b"COUNT(DISTINCT ",
        Fold::Sum => b"COALESCE(SUM(",
        Fold::Average => b"AVG(",
        Fold::Least => b"MIN(",
        Fold::Greatest => b"MAX(",
    }
}

fn fold_back(fold: Fold) -> &'static [u8]
    ensures { result.now ≡ fold_back fold }
{
    match fold {
        Fold::Sum => b"), 0)",
        _ => b")",
    }
}

/// What stands before the key of an aggregate by key. (lookd)
pub fn key_front(fold: KeyFold) -> &'static [u8]
    ensures { result.now ≡ key_front fold }
{
    match fold {
        KeyFold::SumByKey => b"SUM_BY_KEY(",
        KeyFold::AverageByKey => b"AVG_BY_KEY(",
    }
}
