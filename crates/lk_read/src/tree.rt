ghost use Rattle.std.specs.Prelude.{◌≡◌};
ghost use Rattle.lk_read.specs.TreeOutline.{outline_of};

use lk_val::{NoMemory, Text};
use std::alloc::Global;
use std::marker::Model;

/// The parameters of a file or of a block, in order. Clauses see its outline.
#[cycle(tree)]
#[derive(Drop)]
pub struct Tree {
    items: Vec<Item>,
}

/// A parameter: its name, its value, and the byte of its name in the text.
#[cycle(tree)]
#[derive(Drop)]
pub struct Item {
    pub name: Text,
    pub value: Node,
    pub place: u32,
}

/// A parameter's value.
#[cycle(tree)]
#[derive(Drop)]
pub enum Node {
    Word(Text),
    Quoted(Text),
    List(Entries),
    Block(Option<Text>, Tree),
    Code(Text),
}

/// One entry of a list. A text has words, strings and pairs there; a list that is made by hand may hold any value.
#[cycle(tree)]
#[derive(Drop)]
pub enum Entry {
    /// A value.
    One(Node),
    /// A name with a text, as in `filters: [f: "e"]`.
    Pair(Text, Text),
}

/// The entries of a list, in order. Clauses see the list of them: a word, a string or a pair as it is, and any other
/// value as its canonical text.
#[cycle(tree)]
#[derive(Drop)]
pub struct Entries {
    items: Vec<Entry>,
}

impl Model for Tree {
    ghost use Rattle.lk_read.specs.Outline.{Outline};

    ghost Value = { Outline };

    ghost use Rattle.lk_read.specs.OutlineCode.{coded_outline, size_of};

    ghost coded = { coded_outline };

    ghost use Rattle.lk_read.specs.TreeOutline.{outline_of};

    ghost view = { λ tree. outline_of tree.items.items };

    ghost size = { size_of };

    ghost use Rattle.std.proofs.Common.{arith};
    ghost use Rattle.lk_read.specs.TreeFalls.{most_below};

    ghost size_decreases = { λ tree h. omega (arith, most_below tree.items.items) };
}

impl Tree {
    ghost use Rattle.std.specs.Prelude.{◌≡◌};
    ghost use Rattle.lk_read.specs.Outline.{is_no_more};
    ghost use Rattle.lk_read.specs.TreeOutline.{outline_of};

    /// The tree of these parameters; it takes no memory.
    pub fn from_vec(items: Vec<Item>) -> Tree
        ensures { result ≡ outline_of items.items }
    {
        Tree { items }
    }

    /// The parameters, in order; it takes no memory.
    pub fn into_vec(self) -> Vec<Item>
        ensures { outline_of result.items ≡ self }
    {
        let Tree { items } = self;
        items
    }

    /// The parameters, in order.
    pub fn items(&self) -> &[Item]
        ensures { outline_of result.now ≡ self.now }
    {
        self.items.as_slice()
    }

    /// Whether there is no parameter.
    #[tactic(auto, using(crate::proofs::OutlineLaws::outline_is_empty))]
    pub fn is_empty(&self) -> bool
        ensures { result ≡ is_no_more self.now }
    {
        self.items.is_empty()
    }
}

impl Model for Entries {
    ghost use Rattle.std.specs.Prelude.{List};
    ghost use Rattle.lk_read.specs.Entry.{Entry};

    ghost Value = { List Entry };

    ghost use Rattle.lk_read.specs.OutlineCode.{coded_entries};

    ghost coded = { coded_entries };

    ghost use Rattle.lk_read.specs.EntryOutline.{entries_of};

    ghost view = { λ entries. entries_of entries.items.items };

    ghost use Rattle.lk_read.specs.Entry.{entries_size};

    ghost size = { entries_size };

    ghost use Rattle.std.proofs.Common.{arith};
    ghost use Rattle.lk_read.specs.TreeFalls.{most_in_entries};

    ghost size_decreases = { λ entries h. omega (arith, most_in_entries entries.items.items) };
}

impl Entries {
    ghost use Rattle.std.specs.Prelude.{◌≡◌, ◌++◌, ◌∷◌, [], IfOk};
    ghost use Rattle.lk_read.specs.EntryOutline.{entry_of, entries_of};

    /// No entry; it takes no memory.
    pub fn new(alloc: Global) -> Entries
        ensures { result ≡ [] }
    {
        Entries {
            items: Vec::new(alloc),
        }
    }

    /// These entries; it takes no memory.
    pub fn from_vec(items: Vec<Entry>) -> Entries
        ensures { result ≡ entries_of items.items }
    {
        Entries { items }
    }

    /// The entries, in order; it takes no memory.
    pub fn into_vec(self) -> Vec<Entry>
        ensures { entries_of result.items ≡ self }
    {
        let Entries { items } = self;
        items
    }

    /// The entries, in order.
    pub fn as_slice(&self) -> &[Entry]
        ensures { entries_of result.now ≡ self.now }
    {
        self.items.as_slice()
    }

    /// With one more entry at the end.
    pub(crate) fn with(self, entry: Entry) -> Result<Entries, NoMemory>
        ensures { IfOk result (λ made. made ≡ self ++ entry_of entry ∷ []) }
    {
        let Entries { mut items } = self;
        items.push(entry)?;
        Ok(Entries { items })
    }
}
