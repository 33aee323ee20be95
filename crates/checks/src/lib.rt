// What evaluation checks, in document 01's order, and the first check that a crystal and an image break.
#![tactic(auto)]

ghost use Rattle.std.specs.Prelude.{◌≡◌, [], ◌∷◌};
ghost use Rattle.checks.specs.Check.{broken, first_of, reason, nonzero as nonzero_check, dual_checks, fits as fits_check};
ghost use Rattle.checks.specs.Check.{pll_checks, cpu_ddr_checks, io_checks, pl_checks};

use clocks::module_id::ClockModuleId;
use fields::{Field, read_field};
use registers::{
    ARM_CLK_CTRL, ARM_PLL_CTRL, CAN_CLK_CTRL, DBG_CLK_CTRL, DDR_CLK_CTRL, DDR_PLL_CTRL, DIV_2X,
    DIV_3X, DIVISOR, DIVISOR_1, FDIV, FPGA_0_CLK_CTRL, FPGA_1_CLK_CTRL, FPGA_2_CLK_CTRL,
    FPGA_3_CLK_CTRL, IO_PLL_CTRL, LQSPI_CLK_CTRL, PCAP_CLK_CTRL, SDIO_CLK_CTRL, SMC_CLK_CTRL,
    SPI_CLK_CTRL, UART_CLK_CTRL, word,
};
use sources::pll_output;

#[derive(Clone, Copy)]
pub enum Rule {
    // The field is not 0.
    NonZero,
    // The output of the PLL with this control word fits 32 bits.
    Fits,
}

// A rule for a field of a word, and the module that is named where the rule is broken.
#[derive(Clone, Copy)]
pub struct Check {
    pub word: usize,
    pub field: Field,
    pub rule: Rule,
    pub id: ClockModuleId,
}

// A crystal and an image. Each of the checks ends at the first rule that they break.
// Calls, and no table with a loop over it: the table would have a line for each check as well, and here each tests a word of a constant place.
#[derive(Clone, Copy)]
struct Checked<'a> {
    crystal: u32,
    image: &'a [u32],
}

impl<'a> Checked<'a> {
    // A field that is not to be 0.
    #[tactic(auto, unfolding(crate::specs::Check::broken))]
    fn nonzero(&self, at: usize, field: Field, id: ClockModuleId) -> Result<(), Check>
        ensures { result ≡ first_of (broken self.now.crystal self.now.image.now) (nonzero_check at field id ∷ []) }
    {
        if read_field(word(self.image, at), field) == 0 {
            return Err(Check {
                word: at,
                field,
                rule: Rule::NonZero,
                id,
            });
        }
        Ok(())
    }

    // Divisor 0 of a word, then its divisor 1.
    fn dual(&self, at: usize, id: ClockModuleId) -> Result<(), Check>
        ensures { result ≡ first_of (broken self.now.crystal self.now.image.now) (dual_checks at id) }
    {
        self.nonzero(at, DIVISOR, id)?;
        self.nonzero(at, DIVISOR_1, id)
    }

    // A PLL, by its control word, whose output is to fit 32 bits.
    #[tactic(auto, unfolding(crate::specs::Check::broken))]
    fn fits(&self, at: usize) -> Result<(), Check>
        ensures { result ≡ first_of (broken self.now.crystal self.now.image.now) (fits_check at ∷ []) }
    {
        if pll_output(self.crystal, word(self.image, at)) > 4294967295 {
            return Err(Check {
                word: at,
                field: FDIV,
                rule: Rule::Fits,
                id: ClockModuleId::Pll,
            });
        }
        Ok(())
    }

    // The PLLs: each FDIV first, then each output.
    fn plls(&self) -> Result<(), Check>
        ensures { result ≡ first_of (broken self.now.crystal self.now.image.now) pll_checks }
    {
        self.nonzero(ARM_PLL_CTRL, FDIV, ClockModuleId::Pll)?;
        self.nonzero(IO_PLL_CTRL, FDIV, ClockModuleId::Pll)?;
        self.nonzero(DDR_PLL_CTRL, FDIV, ClockModuleId::Pll)?;
        self.fits(ARM_PLL_CTRL)?;
        self.fits(IO_PLL_CTRL)?;
        self.fits(DDR_PLL_CTRL)
    }

    // The CPU and the DDR memory.
    fn cpu_ddr(&self) -> Result<(), Check>
        ensures { result ≡ first_of (broken self.now.crystal self.now.image.now) cpu_ddr_checks }
    {
        self.nonzero(ARM_CLK_CTRL, DIVISOR, ClockModuleId::Arm)?;
        self.nonzero(DDR_CLK_CTRL, DIV_3X, ClockModuleId::Ddr)?;
        self.nonzero(DDR_CLK_CTRL, DIV_2X, ClockModuleId::Ddr)
    }

    // The IO peripherals. The trace divisor is checked under EMIO too.
    fn io(&self) -> Result<(), Check>
        ensures { result ≡ first_of (broken self.now.crystal self.now.image.now) io_checks }
    {
        self.nonzero(SMC_CLK_CTRL, DIVISOR, ClockModuleId::Smc)?;
        self.nonzero(LQSPI_CLK_CTRL, DIVISOR, ClockModuleId::Qspi)?;
        self.nonzero(SDIO_CLK_CTRL, DIVISOR, ClockModuleId::Sdio)?;
        self.nonzero(UART_CLK_CTRL, DIVISOR, ClockModuleId::Uart)?;
        self.nonzero(SPI_CLK_CTRL, DIVISOR, ClockModuleId::Spi)?;
        self.nonzero(PCAP_CLK_CTRL, DIVISOR, ClockModuleId::Pcap)?;
        self.dual(CAN_CLK_CTRL, ClockModuleId::Can)?;
        self.nonzero(DBG_CLK_CTRL, DIVISOR, ClockModuleId::Trace)
    }

    // The programmable logic.
    fn pl(&self) -> Result<(), Check>
        ensures { result ≡ first_of (broken self.now.crystal self.now.image.now) pl_checks }
    {
        self.dual(FPGA_0_CLK_CTRL, ClockModuleId::Fpga)?;
        self.dual(FPGA_1_CLK_CTRL, ClockModuleId::Fpga)?;
        self.dual(FPGA_2_CLK_CTRL, ClockModuleId::Fpga)?;
        self.dual(FPGA_3_CLK_CTRL, ClockModuleId::Fpga)
    }
}

// The first check that a crystal and an image break: why evaluation refuses them.
#[tactic(auto, using(crate::proofs::Laws::in_rows), unfolding(crate::specs::Check::reason))]
pub fn first_broken(crystal: u32, image: &[u32]) -> Result<(), Check>
    ensures { result ≡ reason crystal image.now }
{
    let checked = Checked { crystal, image };
    checked.plls()?;
    checked.cpu_ddr()?;
    checked.io()?;
    checked.pl()
}
