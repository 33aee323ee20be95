// `uart-list`: the viable pairs of a UART's divisors in print. The count comes first, so the baud dividers are gone through twice: no
// record is kept between.
#![tactic(auto)]

ghost use Rattle.std.specs.Prelude.{◌≤◌, IsOk, length};
ghost use Rattle.text.specs.Put.{InRoom};
ghost use Rattle.forms.specs.Says.{ROOM, Said, Says};
ghost use Rattle.desk_uart_list.specs.List.{entry_of, Prints, Listed};
ghost use Rattle.text.specs.Page.{contents};

use forms::put_form;
use text::{Full, Page};
use uart_candidate::{BaudDivisors, Wanted};
use uart_list::viable_count;

pub fn put_uart_list(reference: u32, baud: u32, page: &mut Page<'_>) -> Result<(), Full>
    ensures { InRoom ROOM (Says (Listed reference baud)) (contents page.old) (contents page.new) result }
{
    if page.room() < 8192 {
        return Err(Full);
    }
    let wanted = Wanted::new(reference, baud);
    let count = viable_count(wanted);
    page.put_decimal(count as u64)?;
    put_pairs(wanted, page)
}

fn put_pairs(wanted: Wanted, page: &mut Page<'_>) -> Result<(), Full>
    requires { 7900 ≤ length (contents page.old).rest }
    ensures { IsOk result × Prints wanted.reference wanted.target (contents page.old) (contents page.new) }
{
    for bdiv in uart_candidate::FIRST..=uart_candidate::LAST {
        if let Some(pair) = wanted.viable(bdiv) {
            put_pair(pair, page)?;
        }
    }
    Ok(())
}

fn put_pair(pair: BaudDivisors, page: &mut Page<'_>) -> Result<(), Full>
    requires { 31 ≤ length (contents page.old).rest }
    ensures { IsOk result × Said 31 (entry_of pair) (contents page.old) (contents page.new) }
{
    let words = [pair.cd as u32, pair.bdiv as u32, float32::bits(pair.error)];
    put_form(b" #:#:$", &words, page)
}
