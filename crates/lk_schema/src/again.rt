ghost use Rattle.std.specs.Prelude.{◌≡◌, ◌||◌, [], Some, IfOk, not};
ghost use Rattle.std.specs.BTreeSet.{contains};
ghost use Rattle.lk_schema.specs.Rows.{first_again, have_one_mark, is_marked};

use lk_val::{FaultLine, NoMemory};
use std::alloc::Global;
use std::collections::BTreeSet;

/// What may stand only once among rows: the mark of a row, if it has one, and the fault where it stands again.
pub trait StandsOnce {
    ghost use Rattle.std.specs.Prelude.{Option, ℕ};
    ghost use Rattle.lk_val.specs.declared.fault.FaultLine.{FaultLine};

    type Row;

    type Mark: Ord + Drop;

    ghost mark_of: { Self.Row → Option Self.Mark };

    ghost line_of: { ℕ → Self.Row → FaultLine };

    fn mark_of(&self, alloc: Global, row: &Self::Row) -> Result<Option<Self::Mark>, NoMemory>
        ensures { IfOk result (λ mark. mark ≡ mark_of row.now) };

    fn line_of(&self, alloc: Global, number: usize, row: &Self::Row) -> Result<FaultLine, NoMemory>
        ensures { IfOk result (λ line. line ≡ line_of number row.now) };
}

/// The fault of the first row that has the mark of an earlier one, in time n log n.
pub fn first_again<R: StandsOnce>(
    alloc: Global,
    rule: &R,
    rows: &[R::Row],
) -> Result<Option<FaultLine>, NoMemory>
    ensures { IfOk result (λ fault. fault ≡ first_again R.Mark.eq R.mark_of R.line_of [] rows.now) }
{
    let mut seen = BTreeSet::new(alloc);
    for (place, row) in rows.iter().enumerate() {
        let mark = rule.mark_of(alloc, row)?;
        if !take_up(&mut seen, mark)? {
            return Ok(Some(rule.line_of(alloc, place + 1, row)?));
        }
    }
    Ok(None)
}

/// Takes up the mark of a row, if it has one, and says whether no row before had it.
pub fn take_up<M: Ord + Drop>(seen: &mut BTreeSet<M>, mark: Option<M>) -> Result<bool, NoMemory>
    ensures fresh { IfOk result (λ fresh. fresh ≡ not (is_marked (contains M.cmp seen.old) mark)) }
    ensures seen { IfOk result (λ _. (m : M)
        → contains M.cmp seen.new m ≡ (have_one_mark M.eq mark (Some m) || contains M.cmp seen.old m)) }
{
    match mark {
        None => Ok(true),
        Some(mark) => Ok(seen.insert(mark)?),
    }
}
