/// What a file can declare.
#[derive(Clone, Copy, PartialEq, Eq)]
pub enum Kind {
    View,
    Explore,
    Datagroup,
}
