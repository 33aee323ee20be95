// Where a clock comes from: a PLL's output, the PLL that a clock word selects, and the clock that the word makes of them.
#![tactic(auto)]

ghost use Rattle.std.specs.Prelude.{◌≡◌, ◌/◌};
ghost use Rattle.sources.specs.Clock.{frequency, single, dual, trace_clk};
ghost use Rattle.sources.specs.Source.{pll_output, output_of, arm_source, io_source, trace_source};

use fields::read_field;
use registers::{BYPASS_FORCE, DIVISOR, DIVISOR_1, FDIV, PllType, SOURCE, TRACE_SOURCE};

// What the three PLLs give, in Hertz.
#[derive(Clone, Copy)]
pub struct PllOutputs {
    pub arm_pll_out: u32,
    pub ddr_pll_out: u32,
    pub io_pll_out: u32,
}

// The crystal where the PLL is bypassed, else the crystal times FDIV, which can pass 32 bits.
#[tactic(auto, unfolding(crate::specs::Source::pll_output))]
pub fn pll_output(crystal: u32, control: u32) -> u64
    ensures { result ≡ pll_output crystal control }
{
    if read_field(control, BYPASS_FORCE) == 1 {
        return crystal as u64;
    }
    (crystal as u64) * (read_field(control, FDIV) as u64)
}

impl PllOutputs {
    pub fn of(self, pll: PllType) -> u32
        ensures { result ≡ output_of self pll }
    {
        match pll {
            PllType::Arm => self.arm_pll_out,
            PllType::Ddr => self.ddr_pll_out,
            PllType::Io => self.io_pll_out,
        }
    }
}

// The PLL that the ARM word selects.
#[tactic(auto, unfolding(crate::specs::Source::arm_source))]
// Each kind of word has source codes of its own, as document 01 lists them: a table each, and no one table with another number.
pub fn arm_source(arm: u32) -> PllType
    ensures { result ≡ arm_source arm }
{
    match read_field(arm, SOURCE) {
        0 | 1 => PllType::Arm,
        2 => PllType::Ddr,
        _ => PllType::Io,
    }
}

// The PLL that any other clock word selects.
#[tactic(auto, unfolding(crate::specs::Source::io_source))]
pub fn io_source(word: u32) -> PllType
    ensures { result ≡ io_source word }
{
    match read_field(word, SOURCE) {
        0 | 1 => PllType::Io,
        2 => PllType::Arm,
        _ => PllType::Ddr,
    }
}

// The PLL that the trace word selects, or none where it selects the EMIO, which brings a clock from outside.
#[tactic(auto, unfolding(crate::specs::Source::trace_source))]
pub fn trace_source(word: u32) -> Option<PllType>
    ensures { result ≡ trace_source word }
{
    match read_field(word, TRACE_SOURCE) {
        0 | 1 => Some(PllType::Io),
        2 => Some(PllType::Arm),
        3 => Some(PllType::Ddr),
        _ => None,
    }
}

// Division that gives 0 for a divisor of 0, so that the clocks below are told for every word. Where a divisor is 0 there is no clock:
// evaluation and GEM refuse such a word before they read it.
pub fn divided(hertz: u32, divisor: u32) -> u32
    ensures { result ≡ hertz / divisor }
{
    hertz.checked_div(divisor).unwrap_or(0)
}

// The clocks of a word of the image.
impl PllOutputs {
    // With one divisor.
    // One divisor or two: formulas of their own, and not one with another number.
    pub fn single_clock(self, word: u32) -> u32
        ensures { result ≡ frequency self (single word) }
    {
        divided(self.of(io_source(word)), read_field(word, DIVISOR))
    }

    // With two divisors.
    #[tactic(auto, using(crate::proofs::Laws::twice))]
    pub fn dual_clock(self, word: u32) -> u32
        ensures { result ≡ frequency self (dual word) }
    {
        let once = divided(self.of(io_source(word)), read_field(word, DIVISOR));
        divided(once, read_field(word, DIVISOR_1))
    }

    // The trace clock. Where its word selects the EMIO the chip gives it none.
    pub fn trace_clock(self, word: u32) -> Option<u32>
        ensures { result ≡ trace_clk self word }
    {
        let pll = trace_source(word)?;
        Some(divided(self.of(pll), read_field(word, DIVISOR)))
    }
}
