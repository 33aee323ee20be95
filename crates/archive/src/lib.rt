// The calls for programs in C and Rust: each hands on what its crate tells, and include/ogruspinu.h says it call by call.
// Numbers pass as themselves, a row of words as a pointer and a length, a struct by value. The arguments are the header's, one by one, and so
// are those of the crates' calls below.
#![tactic(auto)]

mod pll;
mod records;

ghost use Rattle.std.specs.Prelude.{◌≡◌, ◌+◌};
ghost use Rattle.two_stage.specs.Best.{frequency};
ghost use Rattle.i2c.specs.Divisors.{clock};
ghost use Rattle.handing.specs.Handed.{Handed};
ghost use Rattle.c_two_stage.specs.Tells.{TwoStageTells};
ghost use Rattle.c_i2c.specs.Tells.{I2cTells};
ghost use Rattle.c_ttc.specs.Tells.{TtcTells};
ghost use Rattle.c_pll_settings.specs.Tells.{PllMulTells, PllTargetTells};
ghost use Rattle.c_uart.specs.Tells.{UartTells};
ghost use Rattle.c_clocks.specs.Tells.{ClocksTells};
ghost use Rattle.c_clocks.specs.Update.{IoUpdated};
ghost use Rattle.c_ratios.specs.Tells.{RatiosTells};
ghost use Rattle.c_gem.specs.Tells.{GemHanded};
ghost use Rattle.c_clock_setup.specs.Tells.{CpuInitTells, DdrInitTells};
ghost use Rattle.trace.specs.Difference.{difference};
ghost use Rattle.trace.specs.Parts.{Feeds};

use handing::code;
use trace::{Fed, Trace};

#[unsafe(no_mangle)]
pub extern "C" fn ogr_two_stage(reference: u32, target: u32, largest: u32, out: &mut [u32]) -> u64
    ensures { Handed 2 (TwoStageTells reference target largest) out.old result out.new }
{
    code(c_two_stage::two_stage(reference, target, largest, out))
}

#[unsafe(no_mangle)]
pub extern "C" fn ogr_two_stage_frequency(reference: u32, div0: u32, div1: u32) -> u32
    ensures { result ≡ frequency reference div0 div1 }
{
    c_two_stage::two_stage_frequency(reference, div0, div1)
}

#[unsafe(no_mangle)]
pub extern "C" fn ogr_i2c(input: u32, fast: bool, out: &mut [u32]) -> u64
    ensures { Handed 2 (I2cTells input fast) out.old result out.new }
{
    code(c_i2c::i2c(input, fast, out))
}

#[unsafe(no_mangle)]
pub extern "C" fn ogr_i2c_speed(input: u32, div_a: u8, div_b: u8) -> u32
    ensures { result ≡ clock input (div_a + 1) (div_b + 1) }
{
    c_i2c::i2c_speed(input, div_a, div_b)
}

#[unsafe(no_mangle)]
pub extern "C" fn ogr_ttc(reference: u32, frequency: u32, out: &mut [u32]) -> u64
    ensures { Handed 2 (TtcTells reference frequency) out.old result out.new }
{
    code(c_ttc::ttc(reference, frequency, out))
}

#[unsafe(no_mangle)]
pub extern "C" fn ogr_pll_mul(multiplier: u32, out: &mut [u32]) -> u64
    ensures { Handed 4 (PllMulTells multiplier) out.old result out.new }
{
    code(c_pll_settings::pll_mul(multiplier, out))
}

#[unsafe(no_mangle)]
pub extern "C" fn ogr_pll_target(crystal: u32, target: u32, out: &mut [u32]) -> u64
    ensures { Handed 4 (PllTargetTells crystal target) out.old result out.new }
{
    code(c_pll_settings::pll_target(crystal, target, out))
}

#[unsafe(no_mangle)]
pub extern "C" fn ogr_uart(reference: u32, baud: u32, out: &mut [u32]) -> u64
    ensures { Handed 3 (UartTells reference baud) out.old result out.new }
{
    code(c_uart::uart(reference, baud, out))
}

#[unsafe(no_mangle)]
pub extern "C" fn ogr_clocks(crystal: u32, image: &[u32], out: &mut [u32]) -> u64
    ensures { Handed 26 (ClocksTells crystal image.now) out.old result out.new }
{
    code(c_clocks::clocks(crystal, image, out))
}

#[unsafe(no_mangle)]
pub extern "C" fn ogr_ratios(crystal: u32, image: &[u32], out: &mut [u64]) -> u64
    ensures { Handed 32 (RatiosTells crystal image.now) out.old result out.new }
{
    code(c_ratios::ratios(crystal, image, out))
}

#[unsafe(no_mangle)]
pub extern "C" fn ogr_io_update(which: u32, hertz: u32, clocks: &mut [u32]) -> u64
    ensures { IoUpdated which hertz clocks.old result clocks.new }
{
    code(c_clocks::io_update(which, hertz, clocks))
}

#[unsafe(no_mangle)]
pub extern "C" fn ogr_gem(second: bool, word: u32, clocks: &[u32], out: &mut [u32]) -> u64
    ensures { GemHanded second word clocks.now out.old result out.new }
{
    code(c_gem::gem(second, word, clocks, out))
}

#[unsafe(no_mangle)]
pub extern "C" fn ogr_cpu_init(pll: u32, six: bool, divisor: u32, out: &mut [u32]) -> u64
    ensures { Handed 4 (CpuInitTells pll six divisor) out.old result out.new }
{
    code(c_clock_setup::cpu_init(pll, six, divisor, out))
}

#[unsafe(no_mangle)]
pub extern "C" fn ogr_ddr_init(reference: u32, div_3x: u32, div_2x: u32, out: &mut [u32]) -> u64
    ensures { Handed 2 (DdrInitTells reference div_3x div_2x) out.old result out.new }
{
    code(c_clock_setup::ddr_init(reference, div_3x, div_2x, out))
}

#[unsafe(no_mangle)]
pub extern "C" fn ogr_trace_feed(trace: Trace, first: &[u16], second: &[u16]) -> Fed
    ensures { Feeds trace first.now second.now result }
{
    Fed::of(trace, trace::feed(trace, first, second))
}

#[unsafe(no_mangle)]
pub extern "C" fn ogr_trace_difference(trace: Trace) -> i64
    ensures { result ≡ difference trace.first.total trace.second.total }
{
    trace::difference(trace)
}
