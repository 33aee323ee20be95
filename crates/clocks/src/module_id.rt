// The clock module that a refusal names.
ghost use Rattle.std.specs.Prelude.{◌≡◌};
ghost use Rattle.clocks.specs.Module.{module_number};

// In the order of the Rust's `ClockModuleId`, which gives the numbers 0 to 13. The order in which evaluation checks is another.
#[derive(Clone, Copy)]
pub enum ClockModuleId {
    Pll,
    Ddr,
    Arm,
    Smc,
    Qspi,
    Sdio,
    Uart,
    Spi,
    Pcap,
    Can,
    Fpga,
    Trace,
    Gem0,
    Gem1,
}

impl From<ClockModuleId> for u32 {
    ghost from_gives = { λ id number. number ≡ module_number id };

    fn from(id: ClockModuleId) -> u32 {
        id as u32
    }
}
