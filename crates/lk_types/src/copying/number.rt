// Copies of expressions over measures.

use crate::number::NumExpr;
use lk_val::{Copied, NoMemory};
use std::alloc::Global;

impl Copied for NumExpr {
    fn copied(&self, alloc: Global) -> Result<NumExpr, NoMemory> {
        self.copy(alloc)
    }
}
