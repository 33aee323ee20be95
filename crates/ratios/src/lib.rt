// The exact ratio of any two of the four PL clocks of an image: document 02, W-201.
#![tactic(auto)]

ghost use Rattle.std.specs.Prelude.{◌≡◌};
ghost use Rattle.registers.specs.Words.{word as word_of};
ghost use Rattle.ratios.specs.declared.RatiosError.TheVariants.{Evaluation};
ghost use Rattle.ratios.specs.PlClocks.{undivided};
ghost use Rattle.ratios.specs.Checked.{told, refusal_of, Checks, Right};

use evaluation::tree::ClockTree;
use evaluation::{ClockReadError, new_from_regs};
use fields::read_field;
use ratio_table::{Ratio, Undivided, no_ratios, table};
use refusals::Refusal;
use registers::{
    DIVISOR, DIVISOR_1, FPGA_0_CLK_CTRL, FPGA_1_CLK_CTRL, FPGA_2_CLK_CTRL, FPGA_3_CLK_CTRL, word,
};
use sources::{PllOutputs, io_source};

#[derive(Clone, Copy)]
pub enum RatiosError {
    Evaluation(ClockReadError),
    ZeroClock,
}

impl From<ClockReadError> for RatiosError {
    ghost from_gives = { λ inner error. error ≡ Evaluation inner };

    fn from(inner: ClockReadError) -> RatiosError {
        RatiosError::Evaluation(inner)
    }
}

impl From<RatiosError> for Refusal {
    ghost from_gives = { λ error refusal. refusal ≡ refusal_of error };

    fn from(error: RatiosError) -> Refusal {
        match error {
            RatiosError::Evaluation(inner) => Refusal::from(inner),
            RatiosError::ZeroClock => Refusal::ZeroClock,
        }
    }
}

// Clock i to clock j in row i, column j. Evaluation's refusals come first, and then that of a crystal of 0.
pub fn ratios_check(crystal: u32, image: &[u32]) -> Result<[[Ratio; 4]; 4], RatiosError>
    ensures { Checks crystal image.now (told result) }
{
    let clocks = new_from_regs(crystal, image)?;
    if crystal == 0 {
        return Err(RatiosError::ZeroClock);
    }
    let tree = ClockTree {
        out: PllOutputs::from(clocks),
        image,
    };
    Ok(table(
        clock_at(&tree, FPGA_0_CLK_CTRL),
        clock_at(&tree, FPGA_1_CLK_CTRL),
        clock_at(&tree, FPGA_2_CLK_CTRL),
        clock_at(&tree, FPGA_3_CLK_CTRL),
    ))
}

// The same table, and 0 to 0 everywhere where `ratios_check` refuses.
#[tactic(auto, using(crate::proofs::Checking::in_any_case))]
pub fn ratios(crystal: u32, image: &[u32]) -> [[Ratio; 4]; 4]
    ensures { Right crystal image.now result }
{
    ratios_check(crystal, image).unwrap_or(no_ratios())
}

// What the clock word at a place selects, and both its divisors.
#[tactic(auto, using(crate::proofs::Running::product_fits))]
fn clock_at(tree: &ClockTree<'_>, at: usize) -> Undivided
    ensures { result ≡ undivided tree.now.out (word_of tree.now.image.now at) }
{
    let control = word(tree.image, at);
    Undivided {
        source: tree.out.of(io_source(control)),
        product: read_field(control, DIVISOR) * read_field(control, DIVISOR_1),
    }
}
