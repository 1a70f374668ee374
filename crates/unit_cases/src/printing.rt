use crate::fault::CaseFault;
use crate::literal::{literal, pattern};
use lk_postfix::{Stack, TakesOperands};
use lk_types::{Comparison, Expr, Frame, Node};
use lk_val::Items;
use std::alloc::Global;

/// A condition as SQL, each operator in parentheses. A column of the first view is x, and of any other y.
pub fn printed(alloc: Global, e: &Expr) -> Result<String, CaseFault> {
    let mut stack: Stack<String> = Stack::new(alloc);
    for node in e.nodes() {
        let count = node.arity();
        let text = printed_node(alloc, node, stack.operands(count))?;
        stack.replace(count, text)?;
    }
    match stack.as_slice() {
        [text] => Ok(text.clone()?),
        _ => Err(CaseFault::NoSuchCase),
    }
}

fn printed_node(alloc: Global, node: &Node, operands: &[String]) -> Result<String, CaseFault> {
    match (node, operands) {
        (Node::Column(0, _), []) => Ok(String::from_str(alloc, "x")?),
        (Node::Column(_, _), []) => Ok(String::from_str(alloc, "y")?),
        (Node::Literal(value), []) => literal(alloc, value),
        (Node::Case(_), operands) => printed_case(alloc, operands),
        (node, [a]) => printed_unary(alloc, node, a.as_str()),
        (node, [a, b]) => printed_binary(alloc, node, a.as_str(), b.as_str()),
        _ => Err(CaseFault::NoSuchCase),
    }
}

fn printed_unary(alloc: Global, node: &Node, a: &str) -> Result<String, CaseFault> {
    match node {
        Node::Not => Ok(format!(in alloc; "(NOT {a})")?),
        Node::IsNull => Ok(format!(in alloc; "({a} IS NULL)")?),
        Node::Like(pieces) => {
            let text = pattern(alloc, pieces.as_slice())?;
            let text = text.as_str();
            Ok(format!(in alloc; "({a} LIKE {text})")?)
        }
        Node::Framed(frame) => {
            let frame = frame_name(*frame);
            Ok(format!(in alloc; "DATE_FRAME('{frame}', {a})")?)
        }
        _ => Err(CaseFault::NoSuchCase),
    }
}

fn printed_binary(alloc: Global, node: &Node, a: &str, b: &str) -> Result<String, CaseFault> {
    match node {
        Node::And => Ok(format!(in alloc; "({a} AND {b})")?),
        Node::Or => Ok(format!(in alloc; "({a} OR {b})")?),
        Node::Coalesce(_) => Ok(format!(in alloc; "COALESCE({a}, {b})")?),
        Node::Compare(comparison) => {
            let sign = sign_of(*comparison);
            Ok(format!(in alloc; "({a} {sign} {b})")?)
        }
        _ => Err(CaseFault::NoSuchCase),
    }
}

// CASE over conditions and values in turn.
fn printed_case(alloc: Global, operands: &[String]) -> Result<String, CaseFault> {
    let mut text = String::from_str(alloc, "CASE")?;
    for pair in operands.chunks(2) {
        let [condition, value] = pair else {
            return Err(CaseFault::NoSuchCase);
        };
        text.push_str(" WHEN ")?;
        text.push_str(condition.as_str())?;
        text.push_str(" THEN ")?;
        text.push_str(value.as_str())?;
    }
    text.push_str(" END")?;
    Ok(text)
}

fn sign_of(comparison: Comparison) -> &'static str {
    match comparison {
        Comparison::Equal => "=",
        Comparison::NotEqual => "<>",
        Comparison::Less => "<",
        Comparison::AtMost => "<=",
        Comparison::Greater => ">",
        Comparison::AtLeast => ">=",
    }
}

fn frame_name(frame: Frame) -> &'static str {
    match frame {
        Frame::Raw => "raw",
        Frame::Month => "month",
        Frame::HourOfDay => "hour_of_day",
        Frame::DayOfWeek => "day_of_week",
        _ => "other",
    }
}
