// The greatest common divisor of two numbers, by Euclid's rule.
#![tactic(auto)]

ghost use Rattle.gcd.specs.Common.{Greatest};

// That of b and of what is left of a after dividing by b has the same divisors, and its second number is smaller. With 0 it is the other
// number, so that of 0 and 0 it is 0.
#[tactic(auto, using(crate::proofs::Laws::step))]
pub fn gcd(a: u64, b: u64) -> u64
    ensures { Greatest a b result }
{
    if b == 0 { a } else { gcd(b, a % b) }
}
