ghost use Rattle.std.specs.Prelude.{◌≡◌, IfOk};

use crate::items::Items;
use crate::memory::NoMemory;
use crate::text::Text;
use crate::value::Value;
use std::alloc::Global;

/// What is copied with memory of its own.
pub trait Copied {
    /// Another value that is equal.
    fn copied(&self, alloc: Global) -> Result<Self, NoMemory>
        ensures { IfOk result (λ made. made ≡ self.now) };
}

impl<T: Copied + Drop> Items<T> {
    /// Another list that is equal, of copied items.
    pub fn copy(&self, alloc: Global) -> Result<Items<T>, NoMemory>
        ensures { IfOk result (λ made. made ≡ self.now) }
    {
        let mut made = Items::new(alloc);
        for item in self.as_slice() {
            made.push(item.copied(alloc)?)?;
        }
        Ok(made)
    }
}

impl<T: Copy> Items<T> {
    /// Another list that is equal, of items that take no memory of their own.
    pub fn copy_plain(&self, alloc: Global) -> Result<Items<T>, NoMemory>
        ensures { IfOk result (λ made. made ≡ self.now) }
    {
        Ok(Items::from_vec(Vec::from_slice(alloc, self.as_slice())?))
    }
}

impl Copied for Text {
    fn copied(&self, alloc: Global) -> Result<Text, NoMemory> {
        self.copy(alloc)
    }
}

impl Copied for Value {
    fn copied(&self, alloc: Global) -> Result<Value, NoMemory> {
        self.copy(alloc)
    }
}

impl Copied for u32 {
    fn copied(&self, _alloc: Global) -> Result<u32, NoMemory> {
        Ok(*self)
    }
}

impl<A: Copied + Drop, B: Copied + Drop> Copied for (A, B) {
    fn copied(&self, alloc: Global) -> Result<(A, B), NoMemory> {
        Ok((self.0.copied(alloc)?, self.1.copied(alloc)?))
    }
}

impl<T: Copied + Drop> Copied for Option<T> {
    fn copied(&self, alloc: Global) -> Result<Option<T>, NoMemory> {
        Ok(match self {
            None => None,
            Some(item) => Some(item.copied(alloc)?),
        })
    }
}
