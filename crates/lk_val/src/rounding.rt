ghost use Rattle.std.specs.Prelude.{◌≡◌, ◌+◌, ◌*◌, ◌/◌, ◌^◌, ◌<◌, ◌≤◌, ◌<ℤ◌, pos};
ghost use Rattle.lk_val.specs.Rounding.{rounded, number_of, signed, num_add, num_sub, num_mul, num_div, num_neg, num_of_fraction};

use crate::frac::Frac;
use crate::num::Num;

impl Num {
    /// The sum, where it is in range. Like all of this type it takes no memory.
    #[tactic(auto, using(crate::proofs::RoundingSteps::ranges))]
    pub fn add(self, other: Num) -> Option<Num>
        ensures { result ≡ num_add self other }
    {
        Some(Num(self.0.checked_add(other.0)?))
    }

    /// The difference, where it is in range.
    #[tactic(auto, using(crate::proofs::RoundingSteps::ranges))]
    pub fn sub(self, other: Num) -> Option<Num>
        ensures { result ≡ num_sub self other }
    {
        Some(Num(self.0.checked_sub(other.0)?))
    }

    /// The product at four places, half away from zero, where it is in range.
    pub fn mul(self, other: Num) -> Option<Num>
        ensures { result ≡ num_mul self other }
    {
        round_over(i128::from(self.0) * i128::from(other.0), 10000)
    }

    /// The quotient at four places, half away from zero, where the divisor is not 0 and it is in range.
    pub fn div(self, other: Num) -> Option<Num>
        ensures { result ≡ num_div self other }
    {
        let above = i128::from(self.0) * 10000;
        let below = i128::from(other.0);
        if below == 0 {
            return None;
        }
        if below < 0 {
            round_over(-above, -below)
        } else {
            round_over(above, below)
        }
    }

    /// The number with the other sign, where it is in range.
    #[tactic(auto, using(crate::proofs::RoundingSteps::ranges))]
    pub fn neg(self) -> Option<Num>
        ensures { result ≡ num_neg self }
    {
        Some(Num(self.0.checked_neg()?))
    }
}

impl Frac {
    /// The number nearest to the fraction at four places, half away from zero, where it is in range.
    pub fn to_num(self) -> Option<Num>
        ensures { result ≡ num_of_fraction self }
    {
        let size = self.numerator().unsigned_abs();
        let by = self.denominator().unsigned_abs();
        let whole = size / by;
        if whole > u128::from(u64::MAX) {
            return None;
        }
        let places = times_over(10000, size % by, by);
        number(
            self.numerator() < 0,
            whole * 10000 + places.times + half_up(places.rest, by),
        )
    }
}

// The number nearest to n / d, half away from zero, where it is in range.
fn round_over(n: i128, d: i128) -> Option<Num>
    requires { pos 0 <ℤ d }
    ensures { result ≡ number_of (rounded n d) }
{
    let size = n.unsigned_abs();
    let by = d.unsigned_abs();
    number(n < 0, size / by + half_up(size % by, by))
}

// The number of this sign and size, where it is in range.
fn number(negative: bool, size: u128) -> Option<Num>
    ensures { result ≡ number_of (signed negative size) }
{
    if negative {
        if size > 9223372036854775808 {
            None
        } else if size == 9223372036854775808 {
            Some(Num(i64::MIN))
        } else {
            Some(Num(-(size as i64)))
        }
    } else if size < 9223372036854775808 {
        Some(Num(size as i64))
    } else {
        None
    }
}

// 1 where the rest is half of the divisor or more.
#[tactic(auto, using(crate::proofs::RoundingSteps::halves))]
fn half_up(rest: u128, by: u128) -> u128
    requires { rest < by }
    ensures value { result ≡ (2 * rest + by) / (2 * by) }
    ensures small { result ≤ 1 }
{
    if rest >= by - rest { 1 } else { 0 }
}

// How often a divisor goes into a number, and the rest.
#[derive(Clone, Copy)]
struct Divided {
    times: u128,
    rest: u128,
}

// k * part over `by`, by doubling: the product is not formed.
fn times_over(k: u32, part: u128, by: u128) -> Divided
    requires below { part < by }
    requires half { by ≤ 2 ^ 127 }
    ensures whole { result.times * by + result.rest ≡ k * part }
    ensures rest { result.rest < by }
    ensures few { result.times ≤ k }
{
    if k == 0 {
        return Divided { times: 0, rest: 0 };
    }
    let half = times_over(k / 2, part, by);
    let even = plus(2 * half.times, half.rest, half.rest, by);
    if k % 2 == 0 {
        even
    } else {
        plus(even.times, even.rest, part, by)
    }
}

// times * by + rest + part, where both are below `by`.
fn plus(times: u128, rest: u128, part: u128, by: u128) -> Divided
    requires rest { rest < by }
    requires part { part < by }
    requires few { times < 2 ^ 64 }
    ensures whole { result.times * by + result.rest ≡ times * by + rest + part }
    ensures rest { result.rest < by }
{
    if rest >= by - part {
        Divided {
            times: times + 1,
            rest: rest - (by - part),
        }
    } else {
        Divided {
            times,
            rest: rest + part,
        }
    }
}
