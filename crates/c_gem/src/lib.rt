// The reference clock of an Ethernet controller, from a row of clocks that evaluation filled and the controller's word, told as numbers.
#![tactic(auto)]

ghost use Rattle.std.specs.Prelude.{◌≡◌};
ghost use Rattle.handing.specs.Handed.{returned};
ghost use Rattle.c_gem.specs.Tells.{GemHanded, gem_module};

use clocks::module_id::ClockModuleId;
use gem::calculate_gem_ref_clock;
use handing::{put, room};
use refusals::Refusal;
use sources::PllOutputs;

// As many words as a row of clocks has.
pub const CLOCK_WORDS: u32 = 26;

// A program in C names the controller by a truth value.
fn module(second: bool) -> ClockModuleId
    ensures { result ≡ gem_module second }
{
    if second {
        ClockModuleId::Gem1
    } else {
        ClockModuleId::Gem0
    }
}

// One word, Hertz.
pub fn gem(second: bool, word: u32, clocks: &[u32], out: &mut [u32]) -> Result<(), Refusal>
    ensures { GemHanded second word clocks.now out.old (returned result) out.new }
{
    room(clocks.len(), CLOCK_WORDS)?;
    room(out.len(), 1)?;
    // A row is laid out for C: the PLL outputs stand first.
    let outputs = PllOutputs {
        arm_pll_out: clocks[0],
        io_pll_out: clocks[1],
        ddr_pll_out: clocks[2],
    };
    let hertz = calculate_gem_ref_clock(outputs, word, module(second))?;
    put(out, &[hertz])
}
