use crate::tree::Entries;
use lk_utf8::Utf8;
use lk_val::{Bytes, Text};

/// A parameter whose value is read: its name, and the place of its name.
#[derive(Drop)]
pub(crate) struct Param {
    pub(crate) name: Text,
    pub(crate) place: u32,
}

/// A list that is open: the place of its `[`, and the entries so far.
#[derive(Drop)]
pub(crate) struct OpenList {
    pub(crate) bracket: u32,
    pub(crate) entries: Entries,
}

/// Where a word or a string stands: as a parameter's value, as an entry of a list, or behind a pair's colon.
#[derive(Drop)]
pub(crate) enum Slot {
    Value,
    Entry(OpenList),
    Pair(OpenList, Text),
}

/// What the reader is in.
#[derive(Drop)]
pub(crate) enum Phase {
    /// Where a parameter may begin or a block may end.
    Between,
    /// In a parameter's name, which began at this place.
    Name(Bytes, u32),
    /// Behind a parameter's name.
    Colon(Param),
    /// Where a value or an entry may begin.
    Start(Param, Slot),
    /// In a word.
    Word(Param, Slot, Bytes),
    /// Behind a word.
    Behind(Param, Slot, Text),
    /// Behind an entry of a list that ended.
    Comma(Param, OpenList),
    /// In a string, which began at this place.
    Quoted(Param, Slot, u32, Bytes, Utf8),
    /// Behind a backslash in a string.
    Escape(Param, Slot, u32, Bytes),
    /// In code.
    Code(Param, Bytes, Utf8),
    /// Behind a semicolon in code.
    Semicolon(Param, Bytes),
}

/// Lets go of a phase. That goes many ways, so it stands here once, and not in each function that ends a phase.
pub(crate) fn let_go(_phase: Phase) {}
