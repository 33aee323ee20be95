// The UART's best pair of divisors, told as numbers, and the number that the list of viable pairs gives. The list itself is in crate
// archive: only there can a program lend it records.
#![tactic(auto)]

ghost use Rattle.std.specs.Prelude.{◌≡◌};
ghost use Rattle.handing.specs.Handed.{Handed, returned};
ghost use Rattle.c_uart.specs.Tells.{UartTells};
ghost use Rattle.c_uart.specs.Listed.{coded};

use handing::{code, put, room};
use refusals::Refusal;
use uart_best::best_baud_divisors;
use uart_list::NoRoom;

// Three words: the clock divisor, the baud divider, the error's bits.
pub fn uart(reference: u32, baud: u32, out: &mut [u32]) -> Result<(), Refusal>
    ensures { Handed 3 (UartTells reference baud) out.old (returned result) out.new }
{
    room(out.len(), 3)?;
    let p = best_baud_divisors(reference, baud)?;
    put(out, &[p.cd as u32, p.bdiv as u32, float32::bits(p.error)])
}

// What the list says: how many were written or, where the viable pairs are too many, refusal 9 and how many they are.
// A number and no Result, since only the exported function hands it out.
pub fn list_code(listed: Result<usize, NoRoom>) -> u64
    ensures { result ≡ coded listed }
{
    match listed {
        Ok(written) => written as u64 % 0x1_0000_0000 * 0x1_0000_0000,
        Err(e) => code(Err(Refusal::from(e))),
    }
}
