// The UART's list of viable pairs, written into records that the caller lends: the one function over a lent slice of records.
ghost use Rattle.c_uart.specs.Listed.{ListHanded};

use c_uart::list_code;
use uart_candidate::{BaudDivisors, FIRST, LAST, Wanted};

// As many records as there are viable pairs: `cd`, `bdiv` and `error` as BaudDivisors has them. Each is written once, and none before
// it is known that there is room for all. `n` counts those that are written, and is what is told.
#[unsafe(no_mangle)]
pub extern "C" fn ogr_uart_list(reference: u32, baud: u32, records: &mut [BaudDivisors]) -> u64
    ensures { ListHanded reference baud records.old result records.new }
{
    let wanted = Wanted::new(reference, baud);
    if let Err(e) = uart_list::room(wanted, records.len()) {
        return list_code(Err(e));
    }
    let mut n = 0;
    for bdiv in FIRST..=LAST {
        if let Some(pair) = wanted.viable(bdiv) {
            records[n] = pair;
            n += 1;
        }
    }
    list_code(Ok(n))
}
