use lk_read::Tree;
use lk_val::{FaultLine, Items, Text};

/// An effective object: all that it has after merging, and the file of its declaration.
#[derive(Drop)]
pub struct Object {
    pub name: Text,
    pub tree: Tree,
    pub path: Text,
}

/// The effective objects, by name, the number of files, and the first fault of a file's own parameters: what comes after
/// merging in the order of faults.
#[derive(Drop)]
pub struct Merged {
    pub views: Items<Object>,
    pub explores: Items<Object>,
    pub datagroups: Items<Object>,
    pub files: u64,
    pub stray: Option<FaultLine>,
}
