// The image's words and their fields by name, as specs/ has them. That a number here is the right one is proved where a function
// that reads the field by it promises `read_field word FDIV`.
#![tactic(auto)]

ghost use Rattle.std.specs.Prelude.{◌≡◌};
ghost use Rattle.registers.specs.Words.{word as word_of};

use fields::Field;

pub const WORDS: usize = 50;

pub const ARM_PLL_CTRL: usize = 0;

pub const DDR_PLL_CTRL: usize = 1;

pub const IO_PLL_CTRL: usize = 2;

pub const PLL_STATUS: usize = 3;

pub const ARM_PLL_CFG: usize = 4;

pub const DDR_PLL_CFG: usize = 5;

pub const IO_PLL_CFG: usize = 6;

pub const ARM_CLK_CTRL: usize = 8;

pub const DDR_CLK_CTRL: usize = 9;

pub const GEM_0_CLK_CTRL: usize = 16;

pub const SMC_CLK_CTRL: usize = 18;

pub const LQSPI_CLK_CTRL: usize = 19;

pub const SDIO_CLK_CTRL: usize = 20;

pub const UART_CLK_CTRL: usize = 21;

pub const SPI_CLK_CTRL: usize = 22;

pub const CAN_CLK_CTRL: usize = 23;

pub const DBG_CLK_CTRL: usize = 25;

pub const PCAP_CLK_CTRL: usize = 26;

pub const FPGA_0_CLK_CTRL: usize = 28;

pub const FPGA_1_CLK_CTRL: usize = 32;

pub const FPGA_2_CLK_CTRL: usize = 36;

pub const FPGA_3_CLK_CTRL: usize = 40;

pub const CLK_RATIO_SELECT: usize = 49;

// PLL control
pub const RESET: Field = Field { lo: 0, width: 1 };

pub const PWRDWN: Field = Field { lo: 1, width: 1 };

pub const BYPASS_QUAL: Field = Field { lo: 3, width: 1 };

pub const BYPASS_FORCE: Field = Field { lo: 4, width: 1 };

pub const FDIV: Field = Field { lo: 12, width: 7 };

// PLL configuration
pub const LOOP_RESISTOR: Field = Field { lo: 4, width: 4 };

pub const CHARGE_PUMP: Field = Field { lo: 8, width: 4 };

pub const LOCK_COUNT: Field = Field { lo: 12, width: 10 };

// PLL status
pub const ARM_LOCK: Field = Field { lo: 0, width: 1 };

pub const DDR_LOCK: Field = Field { lo: 1, width: 1 };

pub const IO_LOCK: Field = Field { lo: 2, width: 1 };

// clock words
pub const SOURCE: Field = Field { lo: 4, width: 2 };

pub const DIVISOR: Field = Field { lo: 8, width: 6 };

pub const DIVISOR_1: Field = Field { lo: 20, width: 6 };

pub const DIV_3X: Field = Field { lo: 20, width: 6 };

pub const DIV_2X: Field = Field { lo: 26, width: 6 };

pub const TRACE_SOURCE: Field = Field { lo: 4, width: 3 };

pub const RATIO: Field = Field { lo: 0, width: 1 };

// The three PLLs.
#[derive(Clone, Copy)]
pub enum PllType {
    Arm,
    Ddr,
    Io,
}

// A word of an image. Past the image's end it is 0; evaluation has seen to the length before.
// The 0 is specs/Words.antt's own, which every formula reads.
pub fn word(image: &[u32], at: usize) -> u32
    ensures { result ≡ word_of image.now at }
{
    image.get(at).copied().unwrap_or(0)
}
