// What the PLLs give, and the image whose words select and divide it: every clock of the image hangs on these two.
ghost use Rattle.std.specs.Prelude.{◌≡◌};
ghost use Rattle.registers.specs.Words.{word as word_of};
ghost use Rattle.sources.specs.Clock.{frequency, single, dual};
ghost use Rattle.evaluation.specs.Formulas.{ddr_clocks, pl_clocks};

use clocks::ddr::DdrClocks;
use fields::read_field;
use registers::{
    DDR_CLK_CTRL, DIV_2X, DIV_3X, FPGA_0_CLK_CTRL, FPGA_1_CLK_CTRL, FPGA_2_CLK_CTRL,
    FPGA_3_CLK_CTRL, word,
};
use sources::{PllOutputs, divided};

#[derive(Clone, Copy)]
pub struct ClockTree<'a> {
    pub out: PllOutputs,
    pub image: &'a [u32],
}

impl<'a> ClockTree<'a> {
    // The clock of a word of the image with one divisor.
    // One divisor or two: formulas of their own, and not one with another number.
    pub fn single(&self, at: usize) -> u32
        ensures { result ≡ frequency self.now.out (single (word_of self.now.image.now at)) }
    {
        self.out.single_clock(word(self.image, at))
    }

    // The clock of a word of the image with two divisors.
    pub fn dual(&self, at: usize) -> u32
        ensures { result ≡ frequency self.now.out (dual (word_of self.now.image.now at)) }
    {
        self.out.dual_clock(word(self.image, at))
    }

    // The DDR memory's clocks.
    pub fn ddr(&self) -> DdrClocks
        ensures { result ≡ ddr_clocks self.now.out self.now.image.now }
    {
        let control = word(self.image, DDR_CLK_CTRL);
        let ref_clk = self.out.ddr_pll_out;
        DdrClocks {
            ref_clk,
            ddr_3x_clk: divided(ref_clk, read_field(control, DIV_3X)),
            ddr_2x_clk: divided(ref_clk, read_field(control, DIV_2X)),
        }
    }

    // The programmable logic's clocks.
    pub fn pl(&self) -> [u32; 4]
        ensures { result ≡ pl_clocks self.now.out self.now.image.now }
    {
        [
            self.dual(FPGA_0_CLK_CTRL),
            self.dual(FPGA_1_CLK_CTRL),
            self.dual(FPGA_2_CLK_CTRL),
            self.dual(FPGA_3_CLK_CTRL),
        ]
    }
}
