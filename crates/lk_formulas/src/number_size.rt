ghost use Rattle.std.specs.Prelude.{◌≡◌, ◌-◌, ◌^◌, ℕ, List, map, min};
ghost use Rattle.std.specs.List.{sum_by};
ghost use Rattle.lk_formulas.specs.NumberNodes.{count_number};
ghost use Rattle.lk_formulas.specs.NumberSizes.{nodes_at, nodes_by, told};

use lk_types::{NumExpr, NumNode};

// How many nodes an expression over measures has with others in place of measures, given how many the one for each
// measure's number has; one past the end. The greatest number means so many and more, there and here.
pub(crate) fn nodes_by(e: &NumExpr, counts: &[usize]) -> usize
    ensures { (by : List ℕ) → counts.now ≡ map told by → result ≡ told (nodes_by (nodes_at by) e.now) }
{
    total_by(e.nodes(), counts)
}

fn total_by(nodes: &[NumNode], counts: &[usize]) -> usize
    ensures { result ≡ min (sum_by (count_number counts.now) nodes.now) (2 ^ 64 - 1) }
{
    let mut total = 0usize;
    for node in nodes {
        total = total.saturating_add(count_number(counts, *node));
    }
    total
}

// What a node adds to the number: a measure as many as stand for it, and one where nothing does.
fn count_number(counts: &[usize], node: NumNode) -> usize
    ensures { result ≡ count_number counts.now node }
{
    match node {
        NumNode::Measure(number) => counts.get(number as usize).copied().unwrap_or(1),
        _ => 1,
    }
}
