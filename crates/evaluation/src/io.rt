// The IO peripherals' clocks.
ghost use Rattle.std.specs.Prelude.{◌≡◌};
ghost use Rattle.evaluation.specs.Formulas.{io_clocks};

use crate::tree::ClockTree;
use io_clocks::IoClocks;
use registers::{
    CAN_CLK_CTRL, DBG_CLK_CTRL, LQSPI_CLK_CTRL, PCAP_CLK_CTRL, SDIO_CLK_CTRL, SMC_CLK_CTRL,
    SPI_CLK_CTRL, UART_CLK_CTRL, word,
};

impl<'a> ClockTree<'a> {
    pub fn io(&self) -> IoClocks
        ensures { result ≡ io_clocks self.now.out self.now.image.now }
    {
        IoClocks {
            ref_clk: self.out.io_pll_out,
            smc_clk: self.single(SMC_CLK_CTRL),
            qspi_clk: self.single(LQSPI_CLK_CTRL),
            sdio_clk: self.single(SDIO_CLK_CTRL),
            uart_clk: self.single(UART_CLK_CTRL),
            spi_clk: self.single(SPI_CLK_CTRL),
            can_clk: self.dual(CAN_CLK_CTRL),
            pcap_2x_clk: self.single(PCAP_CLK_CTRL),
            trace_clk: self.out.trace_clock(word(self.image, DBG_CLK_CTRL)),
        }
    }
}
