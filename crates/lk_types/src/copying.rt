// Copies of the parts of a model, with memory of their own.

mod expr;
mod filter;
mod number;

use crate::explore::{Field, Join, Part, Shape};
use crate::model::{Datagroup, Pick};
use crate::schema::{ColumnDef, Schema, TableDef};
use lk_val::{Copied, NoMemory};
use std::alloc::Global;

impl Copied for Schema {
    fn copied(&self, alloc: Global) -> Result<Schema, NoMemory> {
        Ok(Schema {
            tables: self.tables.copy(alloc)?,
        })
    }
}

impl Copied for TableDef {
    fn copied(&self, alloc: Global) -> Result<TableDef, NoMemory> {
        Ok(TableDef {
            name: self.name.copy(alloc)?,
            columns: self.columns.copy(alloc)?,
            key: self.key,
        })
    }
}

impl Copied for ColumnDef {
    fn copied(&self, alloc: Global) -> Result<ColumnDef, NoMemory> {
        Ok(ColumnDef {
            name: self.name.copy(alloc)?,
            kind: self.kind,
        })
    }
}

impl Copied for Part {
    fn copied(&self, alloc: Global) -> Result<Part, NoMemory> {
        Ok(Part {
            name: self.name.copy(alloc)?,
            origin: self.origin,
            key: Copied::copied(&self.key, alloc)?,
            enforced: self.enforced,
        })
    }
}

impl Copied for Join {
    fn copied(&self, alloc: Global) -> Result<Join, NoMemory> {
        Ok(Join {
            kind: self.kind,
            relation: self.relation,
            on: Copied::copied(&self.on, alloc)?,
            required: self.required.copy_plain(alloc)?,
        })
    }
}

impl Copied for Field {
    fn copied(&self, alloc: Global) -> Result<Field, NoMemory> {
        Ok(Field {
            name: self.name.copy(alloc)?,
            part: self.part,
            kind: self.kind,
            expr: self.expr.copied(alloc)?,
            shape: self.shape.copied(alloc)?,
        })
    }
}

impl Copied for Shape {
    fn copied(&self, alloc: Global) -> Result<Shape, NoMemory> {
        Ok(match self {
            Shape::Plain => Shape::Plain,
            Shape::Tier(bounds) => Shape::Tier(bounds.copy_plain(alloc)?),
            Shape::Frame(group, frame) => Shape::Frame(*group, *frame),
        })
    }
}

impl Copied for Datagroup {
    fn copied(&self, alloc: Global) -> Result<Datagroup, NoMemory> {
        Ok(Datagroup {
            name: self.name.copy(alloc)?,
            trigger: self.trigger,
            interval: self.interval,
        })
    }
}

impl Copied for Pick {
    fn copied(&self, _alloc: Global) -> Result<Pick, NoMemory> {
        Ok(*self)
    }
}
