ghost use Rattle.std.specs.Prelude.{◌≡◌, ◌<◌, ◌*◌};
ghost use Rattle.std.specs.Ordering.{nat_cmp};

use std::cmp::Ordering;

/// The order of a / b and c / d by Euclid's steps: by the whole parts, or else by the rests turned over, the other
/// way round. No product is formed.
pub fn cmp_ratios(a: u128, b: u128, c: u128, d: u128) -> Ordering
    requires first { 0 < b }
    requires second { 0 < d }
    ensures { result ≡ nat_cmp (a * d) (c * b) }
{
    let left = a % b;
    let right = c % d;
    match (a / b).cmp(&(c / d)) {
        Ordering::Less => Ordering::Less,
        Ordering::Greater => Ordering::Greater,
        Ordering::Equal if left == 0 => left.cmp(&right),
        Ordering::Equal if right == 0 => Ordering::Greater,
        Ordering::Equal => cmp_ratios(d, right, b, left),
    }
}
