ghost use Rattle.std.specs.Prelude.{◌≡◌, ◌<◌, ◌≤◌};
ghost use Rattle.lk_val.specs.Fractions.{gcd};

/// The greatest common divisor, by Euclid's remainders. It is at least 1.
#[tactic(auto, using(crate::proofs::GcdLaws::gcd_laws))]
pub fn gcd(a: u128, b: u128) -> u128
    requires { 0 < b }
    ensures value { result ≡ gcd a b }
    ensures positive { 0 < result }
    ensures small { result ≤ b }
{
    let mut divided = a;
    let mut by = b;
    while by != 0 {
        let rest = divided % by;
        divided = by;
        by = rest;
    }
    divided
}
