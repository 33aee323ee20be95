// The CPU's clocks.
ghost use Rattle.std.specs.Prelude.{◌≡◌};

#[derive(Clone, Copy)]
pub enum CpuClockRatio {
    FourToTwoToOne,
    SixToTwoToOne,
}

#[derive(Clone, Copy)]
pub struct ArmClocks {
    // The ARM PLL's output, whatever the source field selects: as in the Rust.
    pub ref_clk: u32,
    pub ratio: CpuClockRatio,
    pub cpu_1x_clk: u32,
    pub cpu_2x_clk: u32,
    pub cpu_3x2x_clk: u32,
    pub cpu_6x4x_clk: u32,
}

// The getters are the original's interface, each by its name there.
impl ArmClocks {
    pub fn ratio(self) -> CpuClockRatio
        ensures { result ≡ self.ratio }
    {
        self.ratio
    }

    pub fn ref_clk(self) -> u32
        ensures { result ≡ self.ref_clk }
    {
        self.ref_clk
    }

    pub fn cpu_1x_clk(self) -> u32
        ensures { result ≡ self.cpu_1x_clk }
    {
        self.cpu_1x_clk
    }

    pub fn cpu_2x_clk(self) -> u32
        ensures { result ≡ self.cpu_2x_clk }
    {
        self.cpu_2x_clk
    }

    pub fn cpu_3x2x_clk(self) -> u32
        ensures { result ≡ self.cpu_3x2x_clk }
    {
        self.cpu_3x2x_clk
    }

    pub fn cpu_6x4x_clk(self) -> u32
        ensures { result ≡ self.cpu_6x4x_clk }
    {
        self.cpu_6x4x_clk
    }
}
