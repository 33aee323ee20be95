// The settings of a PLL, by multiplier and by target, told as numbers.
#![tactic(auto)]

ghost use Rattle.std.specs.Prelude.{◌≡◌};
ghost use Rattle.handing.specs.Handed.{Handed, returned};
ghost use Rattle.c_pll_settings.specs.Tells.{setting_words, PllMulTells, PllTargetTells};

use handing::{put, room};
use pll_settings::PllConfig;
use refusals::Refusal;

// Four words: FDIV, charge pump, resistor, lock count.
fn words(s: PllConfig) -> [u32; 4]
    ensures { result ≡ setting_words s }
{
    [
        s.fdiv as u32,
        s.charge_pump as u32,
        s.loop_resistor as u32,
        s.lock_count as u32,
    ]
}

pub fn pll_mul(multiplier: u32, out: &mut [u32]) -> Result<(), Refusal>
    ensures { Handed 4 (PllMulTells multiplier) out.old (returned result) out.new }
{
    room(out.len(), 4)?;
    let s = PllConfig::new(multiplier)?;
    put(out, &words(s))
}

// The same for the multiplier that the target is of the crystal.
pub fn pll_target(crystal: u32, target: u32, out: &mut [u32]) -> Result<(), Refusal>
    ensures { Handed 4 (PllTargetTells crystal target) out.old (returned result) out.new }
{
    room(out.len(), 4)?;
    let s = PllConfig::new_from_target_clock(crystal, target)?;
    put(out, &words(s))
}
