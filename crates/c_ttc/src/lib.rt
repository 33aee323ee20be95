// The TTC's prescaler and interval ticks, told as numbers.
#![tactic(auto)]

ghost use Rattle.handing.specs.Handed.{returned, Handed};
ghost use Rattle.c_ttc.specs.Tells.{TtcTells};

use handing::{put, room};
use refusals::Refusal;
use ttc::calc_prescaler_reg_and_interval_ticks;

// Two words: k, which is 0 for no prescaler and else its value and 1, and the ticks.
pub fn ttc(reference: u32, frequency: u32, out: &mut [u32]) -> Result<(), Refusal>
    ensures { Handed 2 (TtcTells reference frequency) out.old (returned result) out.new }
{
    room(out.len(), 2)?;
    let s = calc_prescaler_reg_and_interval_ticks(reference, frequency)?;
    let k = s.prescaler_reg.map_or(0, |p| u32::from(p) + 1);
    put(out, &[k, u32::from(s.interval_ticks)])
}
