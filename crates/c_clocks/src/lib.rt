// Every clock of an image, told as numbers, and an IO clock set anew in a row of them.
#![tactic(auto)]

ghost use Rattle.std.specs.Prelude.{◌≡◌};
ghost use Rattle.handing.specs.Handed.{Handed, returned};
ghost use Rattle.c_clocks.specs.Tells.{ClocksTells, clock_words};
ghost use Rattle.c_clocks.specs.Update.{IoUpdated};

use c_gem::CLOCK_WORDS;
use clocks::Clocks;
use evaluation::new_from_regs;
use handing::{put, room};
use refusals::Refusal;

// Where smc stands in a row of clocks; the six after it follow.
const FIRST_IO: usize = 13;

// One after the other, since the row is laid out for C. A trace clock that EMIO brings is 0 Hertz, and the word behind it says so.
fn clock_words(c: Clocks) -> [u32; 26]
    ensures { result ≡ clock_words c }
{
    let (arm, ddr, io) = (c.arm, c.ddr, c.io);
    let [fclk_0, fclk_1, fclk_2, fclk_3] = c.pl;
    [
        c.arm_pll_out,
        c.io_pll_out,
        c.ddr_pll_out,
        arm.ref_clk,
        arm.ratio as u32,
        arm.cpu_1x_clk,
        arm.cpu_2x_clk,
        arm.cpu_3x2x_clk,
        arm.cpu_6x4x_clk,
        ddr.ref_clk,
        ddr.ddr_3x_clk,
        ddr.ddr_2x_clk,
        io.ref_clk,
        io.smc_clk,
        io.qspi_clk,
        io.sdio_clk,
        io.uart_clk,
        io.spi_clk,
        io.can_clk,
        io.pcap_2x_clk,
        io.trace_clk.unwrap_or(0),
        io.trace_clk.is_none() as u32,
        fclk_0,
        fclk_1,
        fclk_2,
        fclk_3,
    ]
}

// Twenty-six words, in the order of `clock_words`.
pub fn clocks(crystal: u32, image: &[u32], out: &mut [u32]) -> Result<(), Refusal>
    ensures { Handed 26 (ClocksTells crystal image.now) out.old (returned result) out.new }
{
    room(out.len(), CLOCK_WORDS)?;
    let c = new_from_regs(crystal, image)?;
    put(out, &clock_words(c))
}

// Clock 0 is smc, and then qspi, sdio, uart, spi, can and, 6, pcap. Any other number names no IO clock that can be set. The number is a
// program's in C, and the clock's place in the row: an enum would only be turned back into it.
pub fn io_update(which: u32, hertz: u32, clocks: &mut [u32]) -> Result<(), Refusal>
    ensures { IoUpdated which hertz clocks.old (returned result) clocks.new }
{
    room(clocks.len(), CLOCK_WORDS)?;
    if which > 6 {
        return Err(Refusal::BadField);
    }
    clocks[which as usize + FIRST_IO] = hertz;
    Ok(())
}
