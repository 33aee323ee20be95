// The reference clocks of the two Ethernet controllers, from an evaluated record and a controller's word: document 01, "Evaluation".
#![tactic(auto)]

ghost use Rattle.std.specs.Prelude.{◌≡◌};
ghost use Rattle.clocks.specs.Whole.{outputs_in};
ghost use Rattle.gem.specs.Gem.{Right, told, refusal_of};
ghost use Rattle.clocks.specs.declared.module_id.ClockModuleId.TheVariants.{Gem0, Gem1};

use clocks::Clocks;
use clocks::module_id::ClockModuleId;
use fields::read_field;
use refusals::Refusal;
use registers::{DIVISOR, DIVISOR_1};
use sources::PllOutputs;

// A divisor of the module's word is 0.
#[derive(Clone, Copy)]
pub struct DivisorZero(pub ClockModuleId);

impl From<DivisorZero> for Refusal {
    ghost from_gives = { λ zero refusal. refusal ≡ refusal_of zero };

    fn from(zero: DivisorZero) -> Refusal {
        Refusal::DivisorZero(u32::from(zero.0))
    }
}

// From the PLL outputs of a record, wherever they are kept.
#[tactic(auto, using(crate::specs::Gem::divisor_0, crate::specs::Gem::divisor_1, crate::specs::Gem::clock))]
pub fn calculate_gem_ref_clock(
    out: PllOutputs,
    word: u32,
    id: ClockModuleId,
) -> Result<u32, DivisorZero>
    ensures { Right out word id (told result) }
{
    if read_field(word, DIVISOR) == 0 {
        return Err(DivisorZero(id));
    }
    if read_field(word, DIVISOR_1) == 0 {
        return Err(DivisorZero(id));
    }
    Ok(out.dual_clock(word))
}

// The original has a call for each controller.
pub fn calculate_gem_0_ref_clock(clocks: Clocks, word: u32) -> Result<u32, DivisorZero>
    ensures { Right (outputs_in clocks) word Gem0 (told result) }
{
    calculate_gem_ref_clock(PllOutputs::from(clocks), word, ClockModuleId::Gem0)
}

pub fn calculate_gem_1_ref_clock(clocks: Clocks, word: u32) -> Result<u32, DivisorZero>
    ensures { Right (outputs_in clocks) word Gem1 (told result) }
{
    calculate_gem_ref_clock(PllOutputs::from(clocks), word, ClockModuleId::Gem1)
}
