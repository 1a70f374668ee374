// Copies of expressions.

use crate::expr::{Expr, Node};
use lk_val::{Copied, NoMemory};
use std::alloc::Global;

impl Copied for Expr {
    fn copied(&self, alloc: Global) -> Result<Expr, NoMemory> {
        self.copy(alloc)
    }
}

impl Copied for Node {
    fn copied(&self, alloc: Global) -> Result<Node, NoMemory> {
        Ok(match self {
            Node::Column(part, column) => Node::Column(*part, *column),
            Node::Literal(value) => Node::Literal(value.copy(alloc)?),
            Node::Framed(frame) => Node::Framed(*frame),
            Node::Not => Node::Not,
            Node::And => Node::And,
            Node::Or => Node::Or,
            Node::Compare(comparison) => Node::Compare(*comparison),
            Node::IsNull => Node::IsNull,
            Node::In(count) => Node::In(*count),
            Node::Between => Node::Between,
            Node::Like(pieces) => Node::Like(pieces.copy_plain(alloc)?),
            Node::Number(op) => Node::Number(*op),
            Node::Negate => Node::Negate,
            Node::Concat => Node::Concat,
            Node::Case(count) => Node::Case(*count),
            Node::Coalesce(count) => Node::Coalesce(*count),
            Node::NullIf => Node::NullIf,
            Node::Lower => Node::Lower,
            Node::Upper => Node::Upper,
        })
    }
}
