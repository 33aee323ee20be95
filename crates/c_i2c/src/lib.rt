// The I2C divisors and the speed that they make, told as numbers.
#![tactic(auto)]

ghost use Rattle.std.specs.Prelude.{◌≡◌, ◌+◌};
ghost use Rattle.i2c.specs.Divisors.{clock};
ghost use Rattle.handing.specs.Handed.{returned, Handed};
ghost use Rattle.c_i2c.specs.Tells.{I2cTells, speed_of};

use handing::{put, room};
use i2c::{ClockConfig, Speed, calculate_divisors, calculate_i2c_speed};
use refusals::Refusal;

// Two words: the register values a - 1 and b - 1.
pub fn i2c(input: u32, fast: bool, out: &mut [u32]) -> Result<(), Refusal>
    ensures { Handed 2 (I2cTells input fast) out.old (returned result) out.new }
{
    room(out.len(), 2)?;
    let c = calculate_divisors(input, speed_of(fast))?;
    put(out, &[u32::from(c.div_a), u32::from(c.div_b)])
}

// A program in C names the speed by a truth value, whose meaning is this call's alone: a From would say it for each bool.
fn speed_of(fast: bool) -> Speed
    ensures { result ≡ speed_of fast }
{
    if fast {
        Speed::HighSpeed400KHz
    } else {
        Speed::Normal100kHz
    }
}

// The speed of two raw register values.
pub fn i2c_speed(input: u32, div_a: u8, div_b: u8) -> u32
    ensures { result ≡ clock input (div_a + 1) (div_b + 1) }
{
    calculate_i2c_speed(input, ClockConfig { div_a, div_b })
}
