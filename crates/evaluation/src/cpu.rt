// The CPU's clocks: q, the selected source over its divisor, and q over what the ratio says.
ghost use Rattle.std.specs.Prelude.{◌≡◌};
ghost use Rattle.sources.specs.Clock.{frequency};
ghost use Rattle.evaluation.specs.Formulas.{ratio_of, cpu, arm_clocks};

use crate::tree::ClockTree;
use clocks::arm::{ArmClocks, CpuClockRatio};
use fields::read_field;
use registers::{ARM_CLK_CTRL, CLK_RATIO_SELECT, DIVISOR, RATIO, word};
use sources::{PllOutputs, arm_source, divided};

// The ratio word.
// A bit of one word, and no number that stands for a ratio: a From would say it of every number.
pub fn cpu_ratio(control: u32) -> CpuClockRatio
    ensures { result ≡ ratio_of control }
{
    if read_field(control, RATIO) == 0 {
        CpuClockRatio::FourToTwoToOne
    } else {
        CpuClockRatio::SixToTwoToOne
    }
}

// q, which is also the clock of the cores.
pub fn cpu_6x4x(out: PllOutputs, control: u32) -> u32
    ensures { result ≡ frequency out (cpu control 1) }
{
    divided(out.of(arm_source(control)), read_field(control, DIVISOR))
}

impl<'a> ClockTree<'a> {
    #[tactic(auto, using(crate::proofs::Laws::q_over))]
    pub fn arm(&self) -> ArmClocks
        ensures { result ≡ arm_clocks self.now.out self.now.image.now }
    {
        let q = cpu_6x4x(self.out, word(self.image, ARM_CLK_CTRL));
        let ratio = cpu_ratio(word(self.image, CLK_RATIO_SELECT));
        let (cpu_1x_clk, cpu_2x_clk) = match ratio {
            CpuClockRatio::FourToTwoToOne => (q / 4, q / 2),
            CpuClockRatio::SixToTwoToOne => (q / 6, q / 3),
        };
        ArmClocks {
            ref_clk: self.out.arm_pll_out,
            ratio,
            cpu_1x_clk,
            cpu_2x_clk,
            cpu_3x2x_clk: q / 2,
            cpu_6x4x_clk: q,
        }
    }
}
