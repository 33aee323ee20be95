// The clocks of the CPU's and the DDR's set-up, told as numbers.
#![tactic(auto)]

ghost use Rattle.std.specs.Prelude.{◌≡◌};
ghost use Rattle.handing.specs.Handed.{Handed, returned};
ghost use Rattle.c_clock_setup.specs.Tells.{CpuInitTells, DdrInitTells, ratio_of};

use clock_setup::{new_with_2x_3x_init, new_with_cpu_clock_init};
use clocks::arm::CpuClockRatio;
use handing::{put, room};
use refusals::Refusal;

// A program in C names the ratio by a truth value.
fn ratio_of(six: bool) -> CpuClockRatio
    ensures { result ≡ ratio_of six }
{
    if six {
        CpuClockRatio::SixToTwoToOne
    } else {
        CpuClockRatio::FourToTwoToOne
    }
}

// Four words: 1x, 2x, 3x2x, 6x4x.
pub fn cpu_init(pll: u32, six: bool, divisor: u32, out: &mut [u32]) -> Result<(), Refusal>
    ensures { Handed 4 (CpuInitTells pll six divisor) out.old (returned result) out.new }
{
    room(out.len(), 4)?;
    let c = new_with_cpu_clock_init(pll, ratio_of(six), divisor)?;
    put(
        out,
        &[c.cpu_1x_clk, c.cpu_2x_clk, c.cpu_3x2x_clk, c.cpu_6x4x_clk],
    )
}

// Two words: 3x, 2x.
pub fn ddr_init(reference: u32, div_3x: u32, div_2x: u32, out: &mut [u32]) -> Result<(), Refusal>
    ensures { Handed 2 (DdrInitTells reference div_3x div_2x) out.old (returned result) out.new }
{
    room(out.len(), 2)?;
    let c = new_with_2x_3x_init(reference, div_3x, div_2x)?;
    put(out, &[c.ddr_3x_clk, c.ddr_2x_clk])
}
