use crate::word::Word;

/// What stands open in an expression that is being read, by what was read of it.
#[derive(Clone, Copy, PartialEq, Eq)]
pub enum Open {
    /// Nothing.
    Outer,
    /// A bracket.
    Opened,
    /// What closes behind one operand more, and is the node of the word.
    Closing(Word),
    /// A call of two operands, at the first of them.
    First(Word),
    /// The list of IN, with so many operands before the next.
    Among(usize),
    /// IN behind its list, with so many operands.
    Listed(usize),
    /// COALESCE, with so many operands before the next.
    Listing(usize),
    /// The expression of a sum.
    Summing,
    /// A sum behind its expression.
    Summed,
    /// The 0 that a sum over no values is.
    Zero,
    /// A sum behind its 0.
    Zeroed,
    /// The condition of a branch of CASE, with so many operands before it.
    When(usize),
    /// The value of a branch.
    Then(usize),
    /// The value of ELSE.
    Else(usize),
}
