/// How much a table holds: its cells, and the bytes of its text cells. A text that stands in several cells counts in
/// each of them.
#[derive(Clone, Copy, PartialEq, Eq)]
pub struct Size {
    pub cells: u64,
    pub text: u64,
}
