// The IO peripherals' clocks, and their updates after a peripheral's clock was set anew.
#![tactic(auto)]

ghost use Rattle.std.specs.Prelude.{◌≡◌};
ghost use Rattle.io_clocks.specs.Update.{Updated, SMC, QSPI, SDIO, UART, SPI, CAN, PCAP_2X};

#[derive(Clone, Copy)]
pub struct IoClocks {
    pub ref_clk: u32,
    pub smc_clk: u32,
    pub qspi_clk: u32,
    pub sdio_clk: u32,
    pub uart_clk: u32,
    pub spi_clk: u32,
    pub can_clk: u32,
    pub pcap_2x_clk: u32,
    // None where the trace word selects the EMIO: then the chip gives no clock.
    pub trace_clk: Option<u32>,
}

// The getters and updates are the original's interface, each by its name there: document 01 moves the updates as they are.
impl IoClocks {
    pub fn ref_clk(self) -> u32
        ensures { result ≡ self.ref_clk }
    {
        self.ref_clk
    }

    pub fn smc_clk(self) -> u32
        ensures { result ≡ self.smc_clk }
    {
        self.smc_clk
    }

    pub fn qspi_clk(self) -> u32
        ensures { result ≡ self.qspi_clk }
    {
        self.qspi_clk
    }

    pub fn sdio_clk(self) -> u32
        ensures { result ≡ self.sdio_clk }
    {
        self.sdio_clk
    }

    pub fn uart_clk(self) -> u32
        ensures { result ≡ self.uart_clk }
    {
        self.uart_clk
    }

    pub fn spi_clk(self) -> u32
        ensures { result ≡ self.spi_clk }
    {
        self.spi_clk
    }

    pub fn can_clk(self) -> u32
        ensures { result ≡ self.can_clk }
    {
        self.can_clk
    }

    pub fn pcap_2x_clk(self) -> u32
        ensures { result ≡ self.pcap_2x_clk }
    {
        self.pcap_2x_clk
    }

    pub fn trace_clk(self) -> Option<u32>
        ensures { result ≡ self.trace_clk }
    {
        self.trace_clk
    }

    pub fn update_smc_clk(mut self, clk: u32) -> IoClocks
        ensures { Updated SMC clk self result }
    {
        self.smc_clk = clk;
        self
    }

    pub fn update_qspi_clk(mut self, clk: u32) -> IoClocks
        ensures { Updated QSPI clk self result }
    {
        self.qspi_clk = clk;
        self
    }

    pub fn update_sdio_clk(mut self, clk: u32) -> IoClocks
        ensures { Updated SDIO clk self result }
    {
        self.sdio_clk = clk;
        self
    }

    pub fn update_uart_clk(mut self, clk: u32) -> IoClocks
        ensures { Updated UART clk self result }
    {
        self.uart_clk = clk;
        self
    }

    pub fn update_spi_clk(mut self, clk: u32) -> IoClocks
        ensures { Updated SPI clk self result }
    {
        self.spi_clk = clk;
        self
    }

    pub fn update_can_clk(mut self, clk: u32) -> IoClocks
        ensures { Updated CAN clk self result }
    {
        self.can_clk = clk;
        self
    }

    pub fn update_pcap_2x_clk(mut self, clk: u32) -> IoClocks
        ensures { Updated PCAP_2X clk self result }
    {
        self.pcap_2x_clk = clk;
        self
    }
}
