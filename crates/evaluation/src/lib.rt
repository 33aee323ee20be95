// Every clock of a crystal and a register image: document 01, "Evaluation".
#![tactic(auto)]

pub mod cpu;
pub mod io;
pub mod tree;

ghost use Rattle.std.specs.Prelude.{◌≡◌, Ok, false};
ghost use Rattle.clocks.specs.declared.Clocks.{Clocks};
ghost use Rattle.registers.specs.Words.{word as word_of};
ghost use Rattle.sources.specs.Source.{pll_output};
ghost use Rattle.checks.specs.Check.{overflows, reason, refusal};
ghost use Rattle.evaluation.specs.Evaluated.{evaluated, told, told_error, refusal_of};
ghost use Rattle.evaluation.specs.Formulas.{outputs as outputs_of, clocks_of};

use checks::{Check, Rule, first_broken};
use clocks::Clocks;
use clocks::module_id::ClockModuleId;
use refusals::Refusal;
use registers::{ARM_PLL_CTRL, DDR_PLL_CTRL, IO_PLL_CTRL, WORDS, word};
use sources::{PllOutputs, pll_output};
use tree::ClockTree;

#[derive(Clone, Copy)]
pub enum ClockReadError {
    BadImage,
    DivisorZero(ClockModuleId),
    Overflow(ClockModuleId),
}

impl From<Check> for ClockReadError {
    ghost from_gives = { λ check error. told_error {A = Clocks} error ≡ refusal check };

    fn from(check: Check) -> ClockReadError {
        match check.rule {
            Rule::NonZero => ClockReadError::DivisorZero(check.id),
            Rule::Fits => ClockReadError::Overflow(check.id),
        }
    }
}

impl From<ClockReadError> for Refusal {
    ghost from_gives = { λ error refusal. refusal ≡ refusal_of error };

    fn from(error: ClockReadError) -> Refusal {
        match error {
            ClockReadError::BadImage => Refusal::BadImage,
            ClockReadError::DivisorZero(id) => Refusal::DivisorZero(u32::from(id)),
            ClockReadError::Overflow(id) => Refusal::Overflow(u32::from(id)),
        }
    }
}

// What a PLL gives, by its control word, where its check is not broken: then it fits 32 bits.
fn output(crystal: u32, image: &[u32], at: usize) -> u32
    requires { overflows crystal image.now at ≡ false }
    ensures { result ≡ pll_output crystal (word_of image.now at) }
{
    pll_output(crystal, word(image, at)) as u32
}

// What the three PLLs give, where no check is broken.
#[tactic(auto, using(crate::proofs::Laws::arm_fits, crate::proofs::Laws::ddr_fits, crate::proofs::Laws::io_fits))]
// Crystal and image go together in two steps of one call: a struct of both would be made for these alone.
fn outputs(crystal: u32, image: &[u32]) -> PllOutputs
    requires { reason crystal image.now ≡ Ok tt }
    ensures { result ≡ outputs_of crystal image.now }
{
    PllOutputs {
        arm_pll_out: output(crystal, image, ARM_PLL_CTRL),
        ddr_pll_out: output(crystal, image, DDR_PLL_CTRL),
        io_pll_out: output(crystal, image, IO_PLL_CTRL),
    }
}

// The Rust's `new_from_regs`, with the registers given as an image.
#[tactic(auto, using(crate::proofs::Laws::bad_image, crate::proofs::Laws::whole, crate::proofs::Laws::refuses))]
pub fn new_from_regs(crystal: u32, image: &[u32]) -> Result<Clocks, ClockReadError>
    ensures { told result ≡ evaluated crystal image.now }
{
    if image.len() != WORDS {
        return Err(ClockReadError::BadImage);
    }
    first_broken(crystal, image)?;
    let out = outputs(crystal, image);
    let tree = ClockTree { out, image };
    Ok(Clocks {
        ps_clk: crystal,
        arm_pll_out: out.arm_pll_out,
        io_pll_out: out.io_pll_out,
        ddr_pll_out: out.ddr_pll_out,
        arm: tree.arm(),
        ddr: tree.ddr(),
        io: tree.io(),
        pl: tree.pl(),
    })
}
