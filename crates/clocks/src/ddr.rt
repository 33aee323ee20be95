// The DDR memory's clocks.
ghost use Rattle.std.specs.Prelude.{◌≡◌};

#[derive(Clone, Copy)]
pub struct DdrClocks {
    pub ref_clk: u32,
    pub ddr_3x_clk: u32,
    pub ddr_2x_clk: u32,
}

// The getters are the original's interface, each by its name there.
impl DdrClocks {
    pub fn ref_clk(self) -> u32
        ensures { result ≡ self.ref_clk }
    {
        self.ref_clk
    }

    pub fn ddr_3x_clk(self) -> u32
        ensures { result ≡ self.ddr_3x_clk }
    {
        self.ddr_3x_clk
    }

    pub fn ddr_2x_clk(self) -> u32
        ensures { result ≡ self.ddr_2x_clk }
    {
        self.ddr_2x_clk
    }
}
