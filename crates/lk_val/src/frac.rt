ghost use Rattle.std.specs.Prelude.{◌≡◌, ◌<ℤ◌, ◌*ℤ◌, ◌+ℤ◌, ◌-ℤ◌, neg_ℤ, pos};
ghost use Rattle.lk_val.specs.Fractions.{reduced, fitting, frac_add, frac_sub, frac_mul, frac_div, frac_neg, frac_cmp};

use crate::divisor::gcd;
use crate::ratio::cmp_ratios;
use std::cmp::Ordering;
use std::marker::Model;

/// A fraction in lowest terms, with a denominator above 0. Clauses see its numerator and denominator.
#[derive(Clone, Copy, PartialEq, Eq)]
pub struct Frac {
    n: i128,
    d: i128,
}

impl Model for Frac {
    ghost use Rattle.lk_val.specs.Fractions.{Fraction, IsReduced};

    ghost Value = { Fraction };

    ghost view = { λ f. record { n = f.n; d = f.d } };

    ghost inverse = { λ f. record { n = f.n; d = f.d } };

    ghost invariant = { λ f. IsReduced (record { n = f.n; d = f.d }) };
}

impl Frac {
    /// The fraction n / d in lowest terms. Like all of this type it takes no memory.
    pub fn new(n: i128, d: i128) -> Frac
        requires { pos 0 <ℤ d }
        ensures { result ≡ reduced n d }
    {
        let divisor = gcd(n.unsigned_abs(), d.unsigned_abs()) as i128;
        Frac {
            n: n / divisor,
            d: d / divisor,
        }
    }

    /// The numerator.
    pub fn numerator(self) -> i128
        ensures { result ≡ self.n }
    {
        self.n
    }

    /// The denominator, which is above 0.
    pub fn denominator(self) -> i128
        ensures value { result ≡ self.d }
        ensures positive { pos 0 <ℤ result }
    {
        self.d
    }

    /// The sum, where the numbers formed on the way are of 128 bits.
    #[tactic(auto, unfolding(crate::specs::Fractions::frac_add))]
    pub fn add(self, other: Frac) -> Option<Frac>
        ensures { result ≡ frac_add self other }
    {
        let left = product(self.n, other.d)?;
        let right = product(other.n, self.d)?;
        let below = product(self.d, other.d)?;
        Some(Frac::new(sum(left, right)?, below))
    }

    /// The difference, where the numbers formed on the way are of 128 bits.
    #[tactic(auto, unfolding(crate::specs::Fractions::frac_sub))]
    pub fn sub(self, other: Frac) -> Option<Frac>
        ensures { result ≡ frac_sub self other }
    {
        let left = product(self.n, other.d)?;
        let right = product(other.n, self.d)?;
        let below = product(self.d, other.d)?;
        Some(Frac::new(difference(left, right)?, below))
    }

    /// The product, where the numbers formed on the way are of 128 bits.
    #[tactic(auto, unfolding(crate::specs::Fractions::frac_mul))]
    pub fn mul(self, other: Frac) -> Option<Frac>
        ensures { result ≡ frac_mul self other }
    {
        let above = product(self.n, other.n)?;
        let below = product(self.d, other.d)?;
        Some(Frac::new(above, below))
    }

    /// The quotient, where the divisor is not 0 and the numbers formed on the way are of 128 bits.
    #[tactic(auto, unfolding(crate::specs::Fractions::frac_div))]
    pub fn div(self, other: Frac) -> Option<Frac>
        ensures { result ≡ frac_div self other }
    {
        let above = product(self.n, other.d)?;
        let below = product(self.d, other.n)?;
        if below < 0 {
            return Some(Frac::new(negated(above)?, negated(below)?));
        }
        if below == 0 {
            return None;
        }
        Some(Frac::new(above, below))
    }

    /// The fraction with the other sign, where its numerator is of 128 bits.
    #[tactic(auto, unfolding(crate::specs::Fractions::frac_neg))]
    pub fn neg(self) -> Option<Frac>
        ensures { result ≡ frac_neg self }
    {
        Some(Frac::new(negated(self.n)?, self.d))
    }

    /// The order of the values, exact for all fractions.
    pub fn cmp(self, other: Frac) -> Ordering
        ensures { result ≡ frac_cmp self other }
    {
        let (a, b) = (self.n.unsigned_abs(), self.d.unsigned_abs());
        let (c, d) = (other.n.unsigned_abs(), other.d.unsigned_abs());
        match (self.n < 0, other.n < 0) {
            (true, false) => Ordering::Less,
            (false, true) => Ordering::Greater,
            (false, false) => cmp_ratios(a, b, c, d),
            (true, true) => cmp_ratios(c, d, a, b),
        }
    }
}

#[tactic(auto, using(crate::proofs::FractionSteps::fittings))]
fn product(a: i128, b: i128) -> Option<i128>
    ensures { result ≡ fitting (a *ℤ b) }
{
    a.checked_mul(b)
}

#[tactic(auto, using(crate::proofs::FractionSteps::fittings))]
fn sum(a: i128, b: i128) -> Option<i128>
    ensures { result ≡ fitting (a +ℤ b) }
{
    a.checked_add(b)
}

#[tactic(auto, using(crate::proofs::FractionSteps::fittings))]
fn difference(a: i128, b: i128) -> Option<i128>
    ensures { result ≡ fitting (a -ℤ b) }
{
    a.checked_sub(b)
}

#[tactic(auto, using(crate::proofs::FractionSteps::fittings))]
fn negated(a: i128) -> Option<i128>
    ensures { result ≡ fitting (neg_ℤ a) }
{
    a.checked_neg()
}
