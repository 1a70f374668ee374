ghost use Rattle.std.specs.Prelude.{◌≡◌, [], OnOk};
ghost use Rattle.lk_postfix.specs.Postfix.{operands, replaced};

use lk_val::NoMemory;
use std::alloc::Global;
use std::marker::Model;

/// What the nodes of a list have made so far and no node has taken yet, the last on top. Clauses see it as a list.
#[derive(Drop)]
pub struct Stack<T> {
    items: Vec<T>,
}

impl<T> Model for Stack<T> {
    ghost use Rattle.std.specs.Prelude.{List};

    ghost Value = { List T };

    ghost view = { λ stack. stack.items.items };
}

impl<T> Stack<T> {
    /// The empty stack, which takes no memory.
    pub fn new(alloc: Global) -> Stack<T>
        ensures { result ≡ [] }
    {
        Stack {
            items: Vec::new(alloc),
        }
    }

    /// All that stands on it, the last on top.
    pub fn as_slice(&self) -> &[T]
        ensures { result.now ≡ self.now }
    {
        self.items.as_slice()
    }

    /// The operands of a node that takes so many: the last on the stack, in order; all where there are fewer.
    pub fn operands(&self, count: usize) -> &[T]
        ensures { result.now ≡ operands count self.now }
    {
        let stack = self.items.as_slice();
        let (_, operands) = stack.split_at(stack.len().saturating_sub(count));
        operands
    }

    /// Puts what a node made of its operands in their place.
    pub fn replace(&mut self, count: usize, made: T) -> Result<(), NoMemory>
    where
        T: Drop,
        ensures ok { OnOk result (self.new ≡ replaced count made self.old) }
    {
        let below = self.items.len().saturating_sub(count);
        self.items.truncate(below);
        match self.items.push(made) {
            Ok(()) => Ok(()),
            Err(_) => Err(NoMemory),
        }
    }
}
