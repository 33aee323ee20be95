// The two-stage divisor search: of the pairs of divisors, each from 1 to the largest, the one whose frequency, the reference
// over both, is nearest the target. specs/ says which is best; crate nearness has the search.
#![tactic(auto)]

ghost use Rattle.std.specs.Prelude.{◌≡◌};
ghost use Rattle.two_stage.specs.Best.{frequency};
ghost use Rattle.two_stage.specs.Answer.{told, refusal_of, Right};

use nearness::Wanted;
use refusals::Refusal;

#[derive(Clone, Copy, PartialEq, Eq)]
pub struct DivisorPair {
    pub div0: u32,
    pub div1: u32,
}

// Why there is no pair.
#[derive(Clone, Copy, PartialEq, Eq)]
pub enum TwoStageError {
    ZeroTarget,
    BadMax,
}

impl From<TwoStageError> for Refusal {
    ghost from_gives = { λ e r. r ≡ refusal_of e };

    fn from(e: TwoStageError) -> Refusal {
        match e {
            TwoStageError::ZeroTarget => Refusal::ZeroTarget,
            TwoStageError::BadMax => Refusal::BadMax,
        }
    }
}

// The frequency in whole Hertz that a pair makes of a reference. A divisor of 0 lets no clock through: 0 Hertz.
// The call has no refusal, so that 0 Hertz stands for no clock.
pub fn two_stage_frequency(ref_in: u32, pair: DivisorPair) -> u32
    ensures { result ≡ frequency ref_in pair.div0 pair.div1 }
{
    if pair.div0 == 0 || pair.div1 == 0 {
        return 0;
    }
    ref_in / pair.div0 / pair.div1
}

// The best pair; ZeroTarget for the target 0, else BadMax for the largest divisor 0.
#[tactic(auto, using(crate::specs::Answer::no_target, crate::specs::Answer::no_largest))]
pub fn find_two_stage_divisors(
    ref_in: u32,
    target: u32,
    max_divisor: u32,
) -> Result<DivisorPair, TwoStageError>
    ensures { Right ref_in target max_divisor (told result) }
{
    if target == 0 {
        return Err(TwoStageError::ZeroTarget);
    }
    if max_divisor == 0 {
        return Err(TwoStageError::BadMax);
    }
    let wanted = Wanted {
        reference: ref_in,
        target,
        firsts: max_divisor,
        seconds: max_divisor,
        ratio: ref_in / target,
    };
    let (div0, div1) = wanted.nearest_pair();
    Ok(DivisorPair { div0, div1 })
}
