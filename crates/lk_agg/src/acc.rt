ghost use Rattle.std.specs.Prelude.{◌≡◌, ℕ, IfErr, IfOk, List, None, map};
ghost use Rattle.lk_val.specs.ValueRefs.{value_of_ref};
ghost use Rattle.lk_semantics.specs.Measures.{first_conflict};
ghost use Rattle.lk_semantics.specs.Rollups.{rollup_rows};
ghost use Rattle.lk_types.specs.declared.answer.GivenRow.{GivenRow};
ghost use Rattle.lk_types.specs.declared.explore.Op.{Op};
ghost use Rattle.lk_agg.specs.Gathering.{HasTaken};
ghost use Rattle.lk_agg.specs.Regular.{AreRegular};
ghost use Rattle.lk_agg.specs.Finishing.{IsFaultOf};

use crate::columns::Column;
use crate::fault::AggFault;
use crate::given::{Given, KeyRef};
use crate::groups::{add_row, finish_groups, first_groups, keep_groups};
use lk_types::{GroupRow, KeyValue, Op, Partial};
use lk_val::{Items, NoMemory, Tuple, Value, ValueRef};
use std::alloc::Global;
use std::collections::BTreeMap;

/// What an accumulator groups by and measures: the number of dimensions, and the type of each measure. A `number` is
/// null, since it is computed from other measures.
#[derive(Drop)]
pub struct AccShape {
    pub dims: u32,
    pub ops: Items<Op>,
}

/// The groups of the rows that were given so far, with what each keeps for its measures. It keeps no row.
#[derive(Drop)]
pub struct Acc {
    alloc: Global,
    dims: u32,
    ops: Items<Op>,
    groups: BTreeMap<Tuple, Items<Column>>,
}

impl Acc {
    ghost use Rattle.std.specs.Prelude.{◌≡◌, ◌++◌, ◌∷◌, [], ℕ, List, IfOk, IfErr, OnOk, None, length, map};
    ghost use Rattle.lk_val.specs.ValueRefs.{value_of_ref};
    ghost use Rattle.lk_semantics.specs.Measures.{first_conflict, group_rows};
    ghost use Rattle.lk_types.specs.declared.answer.GivenRow.{GivenRow};
    ghost use Rattle.lk_types.specs.declared.explore.Op.{Op};
    ghost use Rattle.lk_agg.specs.Given.{given_cells, key_value_of};
    ghost use Rattle.lk_agg.specs.Gathering.{HasTaken};
    ghost use Rattle.lk_agg.specs.Regular.{AreRegular};
    ghost use Rattle.lk_agg.specs.Finishing.{IsFaultOf};

    /// An accumulator that was given no row. Without dimensions it has the one empty group.
    pub fn new(alloc: Global, shape: AccShape) -> Result<Acc, NoMemory>
        ensures { IfOk result (λ acc. HasTaken acc shape.dims shape.ops []) }
    {
        let AccShape { dims, ops } = shape;
        let groups = first_groups(alloc, dims, ops.as_slice())?;
        Ok(Acc {
            alloc,
            dims,
            ops,
            groups,
        })
    }

    /// Takes one more row: its group with a value for each dimension, what it gives to each measure, and its place
    /// among the rows, from 0. A measure past the last of `cells` gets nothing. After want of memory no clause speaks
    /// of the accumulator.
    pub fn add(&mut self, group: &[Value], cells: &[KeyValue], place: u64) -> Result<(), NoMemory>
        ensures { (dims : ℕ) (ops : List Op) (rows : List GivenRow)
            → HasTaken self.old dims ops rows → length group.now ≡ dims
            → OnOk result (HasTaken self.new dims ops
            (rows ++ record { place = place; group = group.now; cells = cells.now } ∷ [])) }
    {
        let group = copy_values(self.alloc, group)?;
        self.add_given(Tuple::new(group), Given::Owned(cells), place)?;
        Ok(())
    }

    /// Takes one more row, as `add` does, of which all values are lent.
    pub fn add_refs(
        &mut self,
        group: &[ValueRef<'_>],
        cells: &[KeyRef<'_>],
        place: u64,
    ) -> Result<(), NoMemory>
        ensures { (dims : ℕ) (ops : List Op) (rows : List GivenRow)
            → HasTaken self.old dims ops rows → length group.now ≡ dims
            → OnOk result (HasTaken self.new dims ops (rows ++ record {
              place = place;
              group = map value_of_ref group.now;
              cells = map key_value_of cells.now;
            } ∷ [])) }
    {
        let group = own_values(self.alloc, group)?;
        self.add_given(Tuple::new(group), Given::Lent(cells), place)?;
        Ok(())
    }

    fn add_given(&mut self, group: Tuple, cells: Given<'_>, place: u64) -> Result<(), NoMemory>
        ensures { (dims : ℕ) (ops : List Op) (rows : List GivenRow)
            → HasTaken self.old dims ops rows → length group ≡ dims
            → OnOk result (HasTaken self.new dims ops
            (rows ++ record { place = place; group = group; cells = given_cells cells.entry } ∷ [])) }
    {
        add_row(
            self.alloc,
            &mut self.groups,
            self.ops.as_slice(),
            group,
            cells,
            place,
        )?;
        Ok(())
    }

    /// The groups with their measures, ascending, or the least key that stands with two values in one group.
    pub fn finish(self) -> Result<Items<GroupRow>, AggFault>
        ensures ok { (dims : ℕ) (ops : List Op) (rows : List GivenRow)
            → HasTaken self dims ops rows → AreRegular ops rows
            → IfOk result (λ groups. (first_conflict dims ops rows ≡ None)
            × (groups ≡ group_rows dims ops rows)) }
        ensures conflict { (dims : ℕ) (ops : List Op) (rows : List GivenRow)
            → HasTaken self dims ops rows → AreRegular ops rows
            → IfErr result (λ fault. IsFaultOf fault (first_conflict dims ops rows)) }
    {
        let Acc { alloc, groups, .. } = self;
        finish_groups(alloc, groups)
    }
}

/// The groups with the parts that a rollup keeps of their measures, ascending, or the least key that stands with two
/// values in one group.
pub fn partials(acc: Acc) -> Result<Items<(Items<Value>, Items<Partial>)>, AggFault>
    ensures ok { (dims : ℕ) (ops : List Op) (rows : List GivenRow)
        → HasTaken acc dims ops rows → AreRegular ops rows
        → IfOk result (λ groups. (first_conflict dims ops rows ≡ None)
        × (groups ≡ rollup_rows dims ops rows)) }
    ensures conflict { (dims : ℕ) (ops : List Op) (rows : List GivenRow)
        → HasTaken acc dims ops rows → AreRegular ops rows
        → IfErr result (λ fault. IsFaultOf fault (first_conflict dims ops rows)) }
{
    let Acc { alloc, groups, .. } = acc;
    keep_groups(alloc, groups)
}

fn copy_values(alloc: Global, values: &[Value]) -> Result<Items<Value>, NoMemory>
    ensures { IfOk result (λ copied. copied ≡ values.now) }
{
    let mut copied = Items::from_vec(Vec::with_capacity(alloc, values.len())?);
    for value in values {
        copied.push(value.copy(alloc)?)?;
    }
    Ok(copied)
}

fn own_values(alloc: Global, values: &[ValueRef<'_>]) -> Result<Items<Value>, NoMemory>
    ensures { IfOk result (λ owned. owned ≡ map value_of_ref values.now) }
{
    let mut owned = Items::from_vec(Vec::with_capacity(alloc, values.len())?);
    for value in values {
        owned.push(value.to_value(alloc)?)?;
    }
    Ok(owned)
}
