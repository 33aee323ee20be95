// `pll-seq`: a run of the PLL sequence in print, its accesses and its end.
#![tactic(auto)]

mod request;

ghost use Rattle.std.specs.Prelude.{◌++◌, ◌*◌, ◌≤◌, IsOk, length};
ghost use Rattle.forms.specs.Says.{Said};
ghost use Rattle.pll_seq.specs.Record.{rows, number_of, ending, Room};
ghost use Rattle.c_pll_seq.specs.Ran.{end_number};
ghost use Rattle.desk_pll_seq.specs.Printed.{access, accesses, ended, listed, firsts};
ghost use Rattle.text.specs.Page.{contents};

use forms::put_form;
use pll_seq::{End, Kind, Ran};
use refusals::Refusal;
pub use request::put_pll_seq;
use text::{Full, Page};

// The accesses of a run, and its end. The rows are those of the run, which has filled them.
fn put_run(
    ran: Ran,
    kinds: &[u32],
    numbers: &[u32],
    values: &[u32],
    page: &mut Page<'_>,
) -> Result<(), Full>
    requires room { Room ran.accesses (rows kinds.now numbers.now values.now) }
    requires n_bound { (ran.accesses ≤ 166) × (4000 ≤ length (contents page.old).rest) }
    ensures { IsOk result × Said 4000 (accesses (firsts ran.accesses (rows kinds.now numbers.now values.now)) ++ ended (end_number (ending ran.end))) (contents page.old) (contents page.new) }
{
    let n = ran.accesses;
    put_accesses(&kinds[..n], &numbers[..n], &values[..n], page)?;
    put_end(ran.end, page)
}

fn put_accesses(
    kinds: &[u32],
    numbers: &[u32],
    values: &[u32],
    page: &mut Page<'_>,
) -> Result<(), Full>
    requires { 23 * length (listed kinds.now numbers.now values.now) ≤ length (contents page.old).rest }
    ensures { IsOk result × Said (23 * length (listed kinds.now numbers.now values.now)) (accesses (listed kinds.now numbers.now values.now)) (contents page.old) (contents page.new) }
{
    for ((kind, number), value) in kinds.iter().zip(numbers).zip(values) {
        put_access(Kind::from(*kind), *number, *value, page)?;
    }
    Ok(())
}

fn put_access(kind: Kind, number: u32, value: u32, page: &mut Page<'_>) -> Result<(), Full>
    requires { 23 ≤ length (contents page.old).rest }
    ensures { IsOk result × Said 23 (access (record { kind = number_of kind; number = number; value = value })) (contents page.old) (contents page.new) }
{
    let words = [number, value];
    match kind {
        Kind::Read => put_form(b"r # $; ", &words, page),
        Kind::Write => put_form(b"w # $; ", &words, page),
    }
}

fn put_end(end: End, page: &mut Page<'_>) -> Result<(), Full>
    requires { 20 ≤ length (contents page.old).rest }
    ensures { IsOk result × Said 20 (ended (end_number (ending end))) (contents page.old) (contents page.new) }
{
    let number = [Refusal::LockTimeout.number()];
    match end {
        End::Locked => put_form(b"locked", &number, page),
        End::TimedOut => put_form(b"refused #", &number, page),
        End::Starved => put_form(b"starved", &number, page),
    }
}
