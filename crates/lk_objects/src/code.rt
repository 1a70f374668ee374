use lk_types::{Expr, NumExpr};
use lk_val::{Items, Text};

/// A name in an expression, as it is written. (Looker, LookML reference: sql)
#[derive(Drop)]
pub enum Reference {
    /// A field of the same view, `${name}`.
    Own(Text),
    /// A field of a view, `${view.name}`: the view's name in the explore, and the field's.
    Of(Text, Text),
    /// A column of the view's own table, `${TABLE}.name` or a bare name.
    Column(Text),
}

/// An expression as it is written: each reference, counted from the left, is a column in `expr`, the i-th, from 0, the
/// column of part 0 and place i.
#[derive(Drop)]
pub struct Written {
    pub references: Items<Reference>,
    pub expr: Expr,
    /// The place, in the code's bytes, of the name of the first function that is unknown or has a wrong number of
    /// arguments; none where each call is known. In `expr` such a call is COALESCE of all its arguments.
    pub unknown_call: Option<u32>,
}

/// The expression of a measure of type number as it is written: each reference, counted from the left, is a measure in
/// `expr`, the i-th, from 0, the measure i. (Looker, LookML reference: measure types, number)
#[derive(Drop)]
pub struct WrittenNumber {
    pub references: Items<Reference>,
    pub expr: NumExpr,
    /// The same as of any expression.
    pub unknown_call: Option<u32>,
}

/// What the code of a parameter says. Places count bytes in the code from 0.
#[derive(Drop)]
pub enum Code {
    /// The parameter is missing.
    Absent,
    /// It holds Liquid, `{%` or `{{`, and is not read.
    Liquid,
    /// It is an expression over columns and fields, of which a call may be unknown.
    Expr(Written),
    /// It is the expression of a measure of type number, over measures, of which a call may be unknown.
    Number(WrittenNumber),
    /// The text is no expression, and the place of the fault in it.
    Syntax(u32),
}
