use lk_postfix::TakesOperands;
use lk_types::{Arithmetic, Comparison, Frame, Piece};
use lk_val::{Items, Text, Value};

/// An aggregate of the values that an expression has over a group's rows: how many are there, how many different ones,
/// their sum, their average, the least and the greatest. (SQL)
#[derive(Clone, Copy, PartialEq, Eq)]
pub enum Fold {
    Count,
    Distinct,
    Sum,
    Average,
    Least,
    Greatest,
}

/// An aggregate of the values that an expression has over a group's rows, where each key is taken once. (lookd)
#[derive(Clone, Copy, PartialEq, Eq)]
pub enum KeyFold {
    SumByKey,
    AverageByKey,
}

/// A node of an expression of SQL. Its operands stand before it in the list of nodes, each as the list of its own
/// nodes.
#[derive(Drop)]
pub enum SqlNode {
    /// A column of a part, both by name.
    Column { part: Text, name: Text },
    Literal(Value),
    Framed(Frame),
    Not,
    And,
    Or,
    Compare(Comparison),
    IsNull,
    /// So many operands: what is looked for, and then the list, of one item or more.
    In(usize),
    Like(Items<Piece>),
    Number(Arithmetic),
    Negate,
    Concat,
    Lower,
    Upper,
    /// So many operands: a condition and a value for each branch, of which there is one or more, and then the value of
    /// ELSE, if there is one.
    Case(usize),
    /// So many operands, one or more.
    Coalesce(usize),
    NullIf,
    /// The number of rows.
    CountRows,
    Folded(Fold),
    /// The key, and then the value.
    ByKey(KeyFold),
}

impl TakesOperands for SqlNode {
    ghost use Rattle.lk_sql_tree.specs.SqlNodes.{arity};

    ghost takes = { arity };

    fn arity(&self) -> usize {
        match self {
            SqlNode::Column { .. } | SqlNode::Literal(_) | SqlNode::CountRows => 0,
            SqlNode::Framed(_) | SqlNode::Not | SqlNode::IsNull | SqlNode::Like(_) => 1,
            SqlNode::Negate | SqlNode::Lower | SqlNode::Upper | SqlNode::Folded(_) => 1,
            SqlNode::And | SqlNode::Or | SqlNode::Compare(_) | SqlNode::Number(_) => 2,
            SqlNode::Concat | SqlNode::NullIf | SqlNode::ByKey(_) => 2,
            SqlNode::In(count) | SqlNode::Case(count) | SqlNode::Coalesce(count) => *count,
        }
    }
}

impl SqlNode {
    ghost use Rattle.std.specs.Prelude.{◌≡◌};
    ghost use Rattle.lk_sql_tree.specs.SqlNodes.{has_list};

    /// Whether a list has an item, a call an argument, and a CASE a branch.
    pub fn has_list(&self) -> bool
        ensures { result ≡ has_list self.now }
    {
        match self {
            SqlNode::In(count) | SqlNode::Case(count) => *count >= 2,
            SqlNode::Coalesce(count) => *count >= 1,
            _ => true,
        }
    }
}
