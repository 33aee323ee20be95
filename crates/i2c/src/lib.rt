// The I2C clock divisors for a wanted bus speed, and the speed that given divisors make.
#![tactic(auto)]

ghost use Rattle.std.specs.Prelude.{◌≡◌, ◌+◌};
ghost use Rattle.i2c.specs.Divisors.{nominal, calculation, clock, refusal_of, Right, told};

use nearness::Wanted;
use refusals::Refusal;

// I2C bus speed.
#[derive(Clone, Copy)]
pub enum Speed {
    Normal100kHz,
    HighSpeed400KHz,
}

// Two frequencies, each by the original's name for it.
impl Speed {
    // Nominal bus frequency.
    pub fn frequency_full_number(self) -> u32
        ensures { result ≡ nominal self }
    {
        match self {
            Speed::Normal100kHz => 100000,
            Speed::HighSpeed400KHz => 400000,
        }
    }

    // The frequency that the divisors are looked for by: the hardware wants it below the nominal one.
    pub fn frequency_for_calculation(self) -> u32
        ensures { result ≡ calculation self }
    {
        match self {
            Speed::Normal100kHz => 90000,
            Speed::HighSpeed400KHz => 384600,
        }
    }
}

// The raw register values, each one less than its divisor.
#[derive(Clone, Copy, PartialEq, Eq)]
pub struct ClockConfig {
    pub div_a: u8,
    pub div_b: u8,
}

// No pair of divisors makes a clock as slow as the speed.
#[derive(Clone, Copy, PartialEq, Eq)]
pub struct SpeedNotAttainable;

impl From<SpeedNotAttainable> for Refusal {
    ghost from_gives = { λ e r. r ≡ refusal_of e };

    fn from(_e: SpeedNotAttainable) -> Refusal {
        Refusal::Speed
    }
}

// The speed that raw register values make, whatever they are.
pub fn calculate_i2c_speed(cpu_1x_clk: u32, clk_config: ClockConfig) -> u32
    ensures { result ≡ clock cpu_1x_clk (clk_config.div_a + 1) (clk_config.div_b + 1) }
{
    cpu_1x_clk / (22 * (clk_config.div_a as u32 + 1) * (clk_config.div_b as u32 + 1))
}

// The clock is a 22nd of the input over both divisors, the first 1 to 4 and the second 1 to 64. At a target of 64 or more no two second
// divisors that reach it make one frequency, so that the last is the smallest of those equally near.
#[tactic(auto, using(crate::specs::Divisors::not_attainable, crate::proofs::Search::calculation_bounds))]
pub fn calculate_divisors(cpu_1x_clk: u32, speed: Speed) -> Result<ClockConfig, SpeedNotAttainable>
    ensures { Right cpu_1x_clk speed (told result) }
{
    let target = speed.frequency_for_calculation();
    if cpu_1x_clk > 5632 * target {
        return Err(SpeedNotAttainable);
    }
    let reference = cpu_1x_clk / 22;
    let wanted = Wanted {
        reference,
        target,
        firsts: 4,
        seconds: 64,
        ratio: reference / target,
    };
    let (a, b) = wanted.nearest_pair();
    // The casts are proved to fit: a try_from would give an error that never comes.
    Ok(ClockConfig {
        div_a: (a - 1) as u8,
        div_b: (b - 1) as u8,
    })
}
