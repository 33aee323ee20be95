// The calls that the desk can be asked for: the numbers of a line in one row, and what the call tells into another.
#![tactic(auto)]

ghost use Rattle.std.specs.Prelude.{◌≡◌, ◌++◌, ◌+◌, ◌≤◌, length, drop};
ghost use Rattle.registers.specs.Words.{word as word_of, GEM_0_CLK_CTRL};
ghost use Rattle.handing.specs.Handed.{Handed, Given, returned};
ghost use Rattle.c_ratios.specs.Tells.{RatiosTells};
ghost use Rattle.desk_calls.specs.Calls.{MOST_WORDS, Low, tells, GemOfImage, is_set};

use c_clock_setup::{cpu_init, ddr_init};
use c_clocks::clocks;
use c_gem::gem;
use c_i2c::{i2c, i2c_speed};
use c_pll_settings::{pll_mul, pll_target};
use c_ratios::ratios;
use c_ttc::ttc;
use c_two_stage::{two_stage, two_stage_frequency};
use c_uart::uart;
use handing::{put_number, room};
use refusals::Refusal;
use registers::{GEM_0_CLK_CTRL, word};

#[derive(Clone, Copy)]
pub enum Call {
    TwoStage,
    TwoStageFrequency,
    I2c,
    I2cSpeed,
    Ttc,
    PllTarget,
    PllMul,
    Uart,
    CpuInit,
    DdrInit,
    Clocks,
    Gem,
    Ratios,
}

impl Call {
    // Makes the call. Thirty-two words have room for every answer.
    pub fn make(self, n: &[u32], out: &mut [u32]) -> Result<(), Refusal>
        ensures { Handed MOST_WORDS (tells self n.now) out.old (returned result) out.new }
    {
        room(out.len(), 32)?;
        let (a, b, c) = (word(n, 0), word(n, 1), word(n, 2));
        match self {
            Call::TwoStage => two_stage(a, b, c, out),
            Call::TwoStageFrequency => put_number(two_stage_frequency(a, b, c), out),
            Call::I2c => i2c(a, b != 0, out),
            Call::I2cSpeed => put_number(i2c_speed(a, (b % 256) as u8, (c % 256) as u8), out),
            Call::Ttc => ttc(a, b, out),
            Call::PllTarget => pll_target(a, b, out),
            Call::PllMul => pll_mul(a, out),
            Call::Uart => uart(a, b, out),
            Call::CpuInit => cpu_init(a, b != 0, c, out),
            Call::DdrInit => ddr_init(a, b, c, out),
            Call::Clocks => clocks(a, from(n, 1), out),
            Call::Gem => gem_of_image(a, b, from(n, 2), out),
            Call::Ratios => ratios_in_words(a, from(n, 1), out),
        }
    }
}

// A part of a row from a place on: none past its end.
fn from(n: &[u32], at: usize) -> &[u32]
    ensures { result.now ≡ drop at n.now }
{
    n.get(at..).unwrap_or(&[])
}

// GEM takes an evaluated record: here the image is evaluated first.
fn gem_of_image(
    controller: u32,
    crystal: u32,
    image: &[u32],
    out: &mut [u32],
) -> Result<(), Refusal>
    requires { 1 ≤ length out.old }
    ensures { Given (GemOfImage (is_set controller) (word_of image.now (controller + GEM_0_CLK_CTRL)) crystal image.now) out.old (returned result) out.new }
{
    // A row as long as `clocks` asks for, in fixed memory.
    let mut row = [0; 26];
    clocks(crystal, image, &mut row)?;
    let control = word(image, controller as usize + GEM_0_CLK_CTRL);
    gem(controller != 0, control, &row, out)
}

// The table's numbers have 64 bits for programs in C, and none is as long: here they go into words.
fn ratios_in_words(crystal: u32, image: &[u32], out: &mut [u32]) -> Result<(), Refusal>
    requires { MOST_WORDS ≤ length out.old }
    ensures { Given (RatiosTells crystal image.now) out.old (returned result) out.new }
{
    // A row as long as `ratios` asks for, in fixed memory.
    let mut row = [0; 32];
    ratios(crystal, image, &mut row)?;
    put_low(out, &row);
    Ok(())
}

fn put_low(out: &mut [u32], words: &[u64])
    requires { (length words.now ≤ length out.old) × Low words.now }
    ensures { out.new ≡ words.now ++ drop (length words.now) out.old }
{
    // By index: what a write through `iter_mut` leaves behind is not known to the check.
    for (i, &word) in words.iter().enumerate() {
        out[i] = word as u32;
    }
}
