use lk_types::{Expr, KindSet};

/// The formula of a field or of a code: its expression over columns, with all references put in and with each text literal
/// that is compared with days or moments read as one.
#[derive(Drop)]
pub struct ResolvedCode {
    /// How many nodes it has as it is written; the greatest number stands for so many and more.
    pub size: usize,
    /// The kinds that it may have; none where kinds clash in it.
    pub kinds: KindSet,
    /// Whether all that stands in it is known: no name means nothing, and each column has a known kind.
    pub is_certain: bool,
    /// The formula itself; none where as it is written it has over 10,000 nodes.
    pub expr: Option<Expr>,
}

// What is kept of a field: its formula, and as a measure of type number how many nodes its expression has.
#[derive(Drop)]
pub(crate) struct ResolvedField {
    pub(crate) code: ResolvedCode,
    pub(crate) number_size: usize,
}
