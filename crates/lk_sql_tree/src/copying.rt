// Copies of expressions, with memory of their own.

use crate::expr::SqlExpr;
use crate::node::SqlNode;
use lk_val::{Copied, NoMemory};
use std::alloc::Global;

impl Copied for SqlExpr {
    fn copied(&self, alloc: Global) -> Result<SqlExpr, NoMemory> {
        self.copy(alloc)
    }
}

impl Copied for SqlNode {
    fn copied(&self, alloc: Global) -> Result<SqlNode, NoMemory> {
        Ok(match self {
            SqlNode::Column { part, name } => SqlNode::Column {
                part: part.copy(alloc)?,
                name: name.copy(alloc)?,
            },
            SqlNode::Literal(value) => SqlNode::Literal(value.copy(alloc)?),
            SqlNode::Framed(frame) => SqlNode::Framed(*frame),
            SqlNode::Not => SqlNode::Not,
            SqlNode::And => SqlNode::And,
            SqlNode::Or => SqlNode::Or,
            SqlNode::Compare(comparison) => SqlNode::Compare(*comparison),
            SqlNode::IsNull => SqlNode::IsNull,
            SqlNode::In(count) => SqlNode::In(*count),
            SqlNode::Like(pieces) => SqlNode::Like(pieces.copy_plain(alloc)?),
            SqlNode::Number(op) => SqlNode::Number(*op),
            SqlNode::Negate => SqlNode::Negate,
            SqlNode::Concat => SqlNode::Concat,
            SqlNode::Lower => SqlNode::Lower,
            SqlNode::Upper => SqlNode::Upper,
            SqlNode::Case(count) => SqlNode::Case(*count),
            SqlNode::Coalesce(count) => SqlNode::Coalesce(*count),
            SqlNode::NullIf => SqlNode::NullIf,
            SqlNode::CountRows => SqlNode::CountRows,
            SqlNode::Folded(fold) => SqlNode::Folded(*fold),
            SqlNode::ByKey(fold) => SqlNode::ByKey(*fold),
        })
    }
}
