ghost use Rattle.std.specs.Prelude.{◌≡◌, ◌∷◌, IfOk, IfSome, IfNone, [], length};
ghost use Rattle.lk_read.specs.Built.{nothing_built, first_of, closed_of, with_lines, with_block};
ghost use Rattle.lk_read.specs.TreeOutline.{item_lines, lines_of};
ghost use Rattle.lk_read.specs.Lines.{lines};

use crate::tree::{Item, Node, Tree};
use lk_val::{NoMemory, Text};
use std::alloc::Global;
use std::marker::Model;

/// A block that is open: the items before it, its name, its place, its title and the place of its brace.
#[derive(Drop)]
pub(crate) struct Frame {
    items: Vec<Item>,
    name: Text,
    place: u32,
    title: Option<Text>,
    brace: u32,
}

/// A tree under construction. Clauses see its lines so far, and the places of the braces that are open.
#[derive(Drop)]
pub(crate) struct Builder {
    items: Vec<Item>,
    frames: Vec<Frame>,
}

impl Model for Builder {
    ghost use Rattle.lk_read.specs.Built.{Built};

    ghost Value = { Built };

    ghost use Rattle.lk_read.specs.FrameLines.{built_of};

    ghost view = { built_of };
}

impl Builder {
    /// No item, and no open block; it takes no memory.
    pub(crate) fn new(alloc: Global) -> Builder
        ensures { result ≡ nothing_built }
    {
        Builder {
            items: Vec::new(alloc),
            frames: Vec::new(alloc),
        }
    }

    /// How many blocks are open.
    pub(crate) fn depth(&self) -> usize
        ensures { result ≡ length self.now.open_braces }
    {
        self.frames.len()
    }

    /// The place of the innermost open brace, if one is open.
    pub(crate) fn innermost(&self) -> Option<u32>
        ensures { result ≡ first_of self.now.open_braces }
    {
        match self.frames.last() {
            Some(frame) => Some(frame.brace),
            None => None,
        }
    }

    /// With one more item.
    pub(crate) fn with_item(self, item: Item) -> Result<Builder, NoMemory>
        ensures { IfOk result (λ made.
            made ≡ with_lines self (item_lines item.name item.place item.value)) }
    {
        let Builder { mut items, frames } = self;
        items.push(item)?;
        Ok(Builder { items, frames })
    }

    /// With a block of this name, place and title that opens with the brace.
    pub(crate) fn with_block(
        self,
        alloc: Global,
        name: Text,
        place: u32,
        title: Option<Text>,
        brace: u32,
    ) -> Result<Builder, NoMemory>
        ensures { IfOk result (λ made. made ≡ with_block self name place title brace) }
    {
        let Builder { items, mut frames } = self;
        frames.push(Frame {
            items,
            name,
            place,
            title,
            brace,
        })?;
        Ok(Builder {
            items: Vec::new(alloc),
            frames,
        })
    }

    /// With the innermost block closed, if one is open.
    pub(crate) fn with_closing(self) -> Result<Option<Builder>, NoMemory>
        ensures { IfOk result (λ made. made ≡ closed_of self self.open_braces) }
    {
        let Builder { items, mut frames } = self;
        let Some(frame) = frames.pop() else {
            return Ok(None);
        };
        let Frame {
            items: mut outer,
            name,
            place,
            title,
            brace: _,
        } = frame;
        let value = Node::Block(title, tree_of(items));
        outer.push(Item { name, value, place })?;
        Ok(Some(Builder {
            items: outer,
            frames,
        }))
    }

    /// The tree, where no block is open.
    pub(crate) fn into_tree(self) -> Tree
        requires { self.open_braces ≡ [] }
        ensures { lines result ≡ self.lines }
    {
        let Builder { items, frames: _ } = self;
        tree_of(items)
    }
}

#[tactic(auto, using(crate::proofs::LinesLaws::outline_lines))]
fn tree_of(items: Vec<Item>) -> Tree
    ensures { lines result ≡ lines_of items.items }
{
    Tree::from_vec(items)
}
