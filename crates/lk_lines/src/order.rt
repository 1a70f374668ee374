ghost use Rattle.std.specs.Prelude.{◌≡◌, All, map};
ghost use Rattle.std.specs.List.Sorted.{IsStrictlySortedBy};
ghost use Rattle.lk_val.specs.declared.cell.Cell.TheVariants as cell;
ghost use Rattle.lk_val.specs.Sets.{set_of};
ghost use Rattle.lk_val.specs.Values.{tuple_cmp};
ghost use Rattle.lk_semantics.specs.Answers.{cell_at, directed, line_cmp};
ghost use Rattle.lk_lines.specs.Lines.{IsPositiveLine, cell_value_order, cells_order, line_order};

use lk_types::{GroupRow, Sort};
use lk_val::{Cell, Frac, Items, Value, cmp_cell};
use std::cmp::Ordering;

// The lines of different groups in the order of the sorts, and then of all dimensions ascending.
pub(crate) fn sorted(sorts: &[Sort], lines: Items<GroupRow>) -> Items<GroupRow>
    ensures { IsStrictlySortedBy tuple_cmp (map (λ line. line.group) lines)
        → All IsPositiveLine lines
        → result ≡ set_of (line_cmp sorts.now) lines }
{
    let mut lines = lines.into_vec();
    lines.sort_unstable_by(|a, b| cmp_lines(sorts, a, b));
    Items::from_vec(lines)
}

fn cmp_lines(sorts: &[Sort], a: &GroupRow, b: &GroupRow) -> Ordering
    ensures { result ≡ line_order sorts.now a.now b.now }
{
    let by_sorts = cmp_by_sorts(sorts, a.cells.as_slice(), b.cells.as_slice());
    if by_sorts != Ordering::Equal {
        return by_sorts;
    }
    a.group.as_slice().cmp(b.group.as_slice())
}

fn cmp_by_sorts(sorts: &[Sort], a: &[Cell], b: &[Cell]) -> Ordering
    ensures { result ≡ cells_order sorts.now a.now b.now }
{
    for sort in sorts {
        let order = cmp_by_sort(*sort, a, b);
        if order != Ordering::Equal {
            return order;
        }
    }
    Ordering::Equal
}

fn cmp_by_sort(sort: Sort, a: &[Cell], b: &[Cell]) -> Ordering
    ensures { result ≡ directed sort.down
        (cell_value_order (cell_at a.now sort.place) (cell_at b.now sort.place)) }
{
    let order = cmp_at(sort.place as usize, a, b);
    if sort.down { order.reverse() } else { order }
}

// The cells at a place compared, null past the end.
fn cmp_at(place: usize, a: &[Cell], b: &[Cell]) -> Ordering
    ensures { result ≡ cell_value_order (cell_at a.now place) (cell_at b.now place) }
{
    let null = Cell::Value(Value::Null);
    let first = if place < a.len() { &a[place] } else { &null };
    let second = if place < b.len() { &b[place] } else { &null };
    by_value(first, second)
}

fn by_value(a: &Cell, b: &Cell) -> Ordering
    ensures { result ≡ cell_value_order a.now b.now }
{
    match (a, b) {
        (Cell::Frac(a), Cell::Frac(b)) => by_lowest_terms(*a, *b),
        _ => cmp_cell(a, b),
    }
}

fn by_lowest_terms(a: Frac, b: Frac) -> Ordering
    ensures { result ≡ cell_value_order (cell.Frac a) (cell.Frac b) }
{
    let first = a.denominator();
    let second = b.denominator();
    prove!(first > 0 && second > 0);
    a.cmp(b)
}
