use lk_postfix::TakesOperands;
use lk_types::Comparison;
use lk_val::{Bytes, Text};

/// What joins two expressions.
#[derive(Clone, Copy, PartialEq, Eq)]
pub enum Joint {
    Or,
    And,
    Plus,
    Minus,
    Concat,
    Times,
    Over,
}

/// A node of an expression as it is written. Its operands stand before it in the list of nodes, each as the list of
/// its own nodes.
#[derive(Drop)]
pub enum RawNode {
    /// A number as it is written.
    Number(Bytes),
    Text(Text),
    Truth(bool),
    Null,
    /// A bare name, a column of the view's own table, and the byte of the text that it begins at.
    Name(Bytes, usize),
    /// A column of the view's own table, `${TABLE}.name`.
    Column(Bytes),
    /// A field of the same view, `${name}`.
    Field(Bytes),
    /// A field of a view, `${view.name}`.
    FieldOf(Bytes, Bytes),
    /// An expression in brackets.
    Group,
    /// A function's name, the byte of the text that it begins at, and the number of arguments.
    Call(Bytes, usize, usize),
    /// So many operands: a condition and a value for each branch.
    Case(usize),
    /// So many operands: a condition and a value for each branch, and then the value of ELSE.
    CaseElse(usize),
    Negate,
    /// Two expressions that are joined; a longer chain is joined from the left.
    Chain(Joint),
    Compare(Comparison),
    /// IS NULL; the truth value of this test and the next three is whether NOT stands in it.
    IsNull(bool),
    /// So many operands: what is looked for, and then the list.
    In(bool, usize),
    /// Three operands: what is tested, the lower bound and the upper one.
    Between(bool),
    /// A text is the operand; its pattern stands here.
    Like(bool, Text),
    Not,
}

impl TakesOperands for RawNode {
    ghost use Rattle.lk_expr_tree.specs.RawNodes.{arity};

    ghost takes = { arity };

    fn arity(&self) -> usize {
        match self {
            RawNode::Number(_) | RawNode::Text(_) | RawNode::Truth(_) | RawNode::Null => 0,
            RawNode::Name(_, _) | RawNode::Column(_) => 0,
            RawNode::Field(_) | RawNode::FieldOf(_, _) => 0,
            RawNode::Group | RawNode::Negate | RawNode::Not => 1,
            RawNode::IsNull(_) | RawNode::Like(_, _) => 1,
            RawNode::Chain(_) | RawNode::Compare(_) => 2,
            RawNode::Between(_) => 3,
            RawNode::Call(_, _, count) | RawNode::In(_, count) => *count,
            RawNode::Case(count) | RawNode::CaseElse(count) => *count,
        }
    }
}
