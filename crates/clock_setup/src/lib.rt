// The pure parts of the CPU and DDR clock set-up: document 01, "Evaluation". Divisors are plain numbers, as a caller would put them
// into their fields of six bits.
#![tactic(auto)]

ghost use Rattle.std.specs.Prelude.{◌≡◌, ◌<◌, ◌≤◌, MatchResult};
ghost use Rattle.clock_setup.specs.Setup.{refusal_of, told};
ghost use Rattle.clock_setup.specs.Cpu.{CpuRight};
ghost use Rattle.clock_setup.specs.Ddr.{DdrRight};
ghost use Rattle.clock_setup.specs.declared.SetupError.TheVariants.{DivisorZero, BadField};

use clocks::arm::{ArmClocks, CpuClockRatio};
use clocks::ddr::DdrClocks;
use clocks::module_id::ClockModuleId;
use refusals::Refusal;

#[derive(Clone, Copy)]
pub enum SetupError {
    DivisorZero(ClockModuleId),
    BadField,
}

impl From<SetupError> for Refusal {
    ghost from_gives = { λ e r. r ≡ refusal_of e };

    fn from(error: SetupError) -> Refusal {
        match error {
            SetupError::DivisorZero(id) => Refusal::DivisorZero(u32::from(id)),
            SetupError::BadField => Refusal::BadField,
        }
    }
}

// The first thing asked of each divisor of a set-up.
fn not_zero(divisor: u32, id: ClockModuleId) -> Result<(), SetupError>
    ensures { MatchResult result (λ _. 0 < divisor) (λ e. (divisor ≡ 0) × (e ≡ DivisorZero id)) }
{
    if divisor == 0 {
        return Err(SetupError::DivisorZero(id));
    }
    Ok(())
}

// And the second, once none of them is 0.
fn six_bits(divisor: u32) -> Result<(), SetupError>
    ensures { MatchResult result (λ _. divisor ≤ 63) (λ e. (63 < divisor) × (e ≡ BadField)) }
{
    if divisor > 63 {
        return Err(SetupError::BadField);
    }
    Ok(())
}

// Here 2x and 3x2x are multiples of 1x; evaluation divides for each.
pub fn new_with_cpu_clock_init(
    arm_pll_clk: u32,
    clock_ratio: CpuClockRatio,
    divisor: u32,
) -> Result<ArmClocks, SetupError>
    ensures { CpuRight arm_pll_clk clock_ratio divisor (told result) }
{
    not_zero(divisor, ClockModuleId::Arm)?;
    six_bits(divisor)?;
    let cpu_6x4x_clk = arm_pll_clk / divisor;
    let (cpu_1x_clk, cpu_2x_clk, cpu_3x2x_clk) = match clock_ratio {
        CpuClockRatio::FourToTwoToOne => (
            cpu_6x4x_clk / 4,
            cpu_6x4x_clk / 4 * 2,
            cpu_6x4x_clk / 4 * 2,
        ),
        CpuClockRatio::SixToTwoToOne => (
            cpu_6x4x_clk / 6,
            cpu_6x4x_clk / 6 * 2,
            cpu_6x4x_clk / 6 * 3,
        ),
    };
    Ok(ArmClocks {
        ref_clk: arm_pll_clk,
        ratio: clock_ratio,
        cpu_1x_clk,
        cpu_2x_clk,
        cpu_3x2x_clk,
        cpu_6x4x_clk,
    })
}

pub fn new_with_2x_3x_init(
    ref_clk: u32,
    ddr_3x_div: u32,
    ddr_2x_div: u32,
) -> Result<DdrClocks, SetupError>
    ensures { DdrRight ref_clk ddr_3x_div ddr_2x_div (told result) }
{
    not_zero(ddr_3x_div, ClockModuleId::Ddr)?;
    not_zero(ddr_2x_div, ClockModuleId::Ddr)?;
    six_bits(ddr_3x_div)?;
    six_bits(ddr_2x_div)?;
    Ok(DdrClocks {
        ref_clk,
        ddr_3x_clk: ref_clk / ddr_3x_div,
        ddr_2x_clk: ref_clk / ddr_2x_div,
    })
}
