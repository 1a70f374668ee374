use lk_types::Filter;
use lk_val::Text;

/// A filter's text as one grammar reads it. (Looker, filter expressions)
#[derive(Drop)]
pub enum ReadFilter {
    /// The filter that it is.
    Read(Filter),
    /// It is none, and the place of the fault in it, in bytes from 0.
    Syntax(u32),
}

/// A filter on a field, as it is written. Which of the four readings counts is decided by the kind of the field that it
/// names, which is known only where the name is resolved. (Looker, LookML reference: filters)
#[derive(Drop)]
pub struct FilterText {
    pub name: Text,
    pub text: Text,
    pub as_text: ReadFilter,
    pub as_number: ReadFilter,
    pub as_date: ReadFilter,
    pub as_truth: ReadFilter,
}
