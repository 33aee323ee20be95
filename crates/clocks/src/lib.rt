// The record of every clock, with the shape and names of the Rust's `Clocks`, and what it hands out. All frequencies are Hertz.
#![tactic(auto)]

pub mod arm;
pub mod ddr;
pub mod module_id;

ghost use Rattle.std.specs.Prelude.{◌≡◌};
ghost use Rattle.clocks.specs.Whole.{with_io, outputs_in};

use arm::ArmClocks;
use ddr::DdrClocks;
use io_clocks::IoClocks;
use sources::PllOutputs;

#[derive(Clone, Copy)]
pub struct Clocks {
    pub ps_clk: u32,
    pub arm_pll_out: u32,
    pub io_pll_out: u32,
    pub ddr_pll_out: u32,
    pub arm: ArmClocks,
    pub ddr: DdrClocks,
    pub io: IoClocks,
    // The four clocks of the programmable logic.
    pub pl: [u32; 4],
}

// The getters are the original's interface, each by its name there.
impl Clocks {
    pub fn ps_clk(self) -> u32
        ensures { result ≡ self.ps_clk }
    {
        self.ps_clk
    }

    pub fn arm_clocks(self) -> ArmClocks
        ensures { result ≡ self.arm }
    {
        self.arm
    }

    pub fn ddr_clocks(self) -> DdrClocks
        ensures { result ≡ self.ddr }
    {
        self.ddr
    }

    pub fn io_clocks(self) -> IoClocks
        ensures { result ≡ self.io }
    {
        self.io
    }

    // Puts updated IO clocks back, by value where the Rust lends them as `&mut`.
    pub fn with_io_clocks(mut self, io: IoClocks) -> Clocks
        ensures { result ≡ with_io self io }
    {
        self.io = io;
        self
    }

    pub fn pl_clocks(self) -> [u32; 4]
        ensures { result ≡ self.pl }
    {
        self.pl
    }
}

impl From<Clocks> for PllOutputs {
    ghost from_gives = { λ clocks out. out ≡ outputs_in clocks };

    fn from(clocks: Clocks) -> PllOutputs {
        PllOutputs {
            arm_pll_out: clocks.arm_pll_out,
            ddr_pll_out: clocks.ddr_pll_out,
            io_pll_out: clocks.io_pll_out,
        }
    }
}
