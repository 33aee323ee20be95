// The two-stage divisors, told as numbers.
#![tactic(auto)]

ghost use Rattle.std.specs.Prelude.{◌≡◌};
ghost use Rattle.two_stage.specs.Best.{frequency};
ghost use Rattle.handing.specs.Handed.{returned, Handed};
ghost use Rattle.c_two_stage.specs.Tells.{TwoStageTells};

use handing::{put, room};
use refusals::Refusal;
use two_stage::{DivisorPair, find_two_stage_divisors};

// Two words: the first and the second divisor.
pub fn two_stage(reference: u32, target: u32, largest: u32, out: &mut [u32]) -> Result<(), Refusal>
    ensures { Handed 2 (TwoStageTells reference target largest) out.old (returned result) out.new }
{
    room(out.len(), 2)?;
    let p = find_two_stage_divisors(reference, target, largest)?;
    put(out, &[p.div0, p.div1])
}

// The frequency of a pair: no refusal, and 0 Hertz where a divisor is 0.
pub fn two_stage_frequency(reference: u32, div0: u32, div1: u32) -> u32
    ensures { result ≡ frequency reference div0 div1 }
{
    two_stage::two_stage_frequency(reference, DivisorPair { div0, div1 })
}
