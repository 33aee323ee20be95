// The request: the numbers of its line as a plan and the words that a host would return.
ghost use Rattle.std.specs.Prelude.{◌≡◌, ◌≤◌, IsOk, length};
ghost use Rattle.text.specs.Put.{InRoom};
ghost use Rattle.forms.specs.Says.{ROOM, Said};
ghost use Rattle.desk_pll_seq.specs.Request.{plan_of, host_words, run_text};
ghost use Rattle.text.specs.Page.{contents};

use crate::put_run;
use c_pll_seq::run_of;
use c_pll_start::Plan;
use forms::put_form;
use refusals::Refusal;
use registers::word;
use text::{Full, Page};

pub fn put_pll_seq(n: &[u32], page: &mut Page<'_>) -> Result<(), Full>
    ensures { InRoom ROOM (Said 4000 (run_text (plan_of n.now) (host_words n.now))) (contents page.old) (contents page.new) result }
{
    if page.room() < 8192 {
        return Err(Full);
    }
    put_plan(plan_of(n), host_words(n), page)
}

// As the plan's definition has it: a number as far as its bits go.
fn plan_of(n: &[u32]) -> Plan
    ensures { result ≡ plan_of n.now }
{
    Plan {
        pll: (word(n, 0) % 256) as u8,
        bypassed: word(n, 1) != 0,
        fdiv: (word(n, 2) % 256) as u8,
        charge_pump: (word(n, 3) % 256) as u8,
        loop_resistor: (word(n, 4) % 256) as u8,
        lock_count: (word(n, 5) % 65536) as u16,
        polls: (word(n, 6) % 65536) as u16,
    }
}

// No more than a line has.
fn host_words(n: &[u32]) -> &[u32]
    ensures { result.now ≡ host_words n.now }
{
    let words = n.get(7..).unwrap_or(&[]);
    &words[..words.len().min(160)]
}

// A read a word and six writes at most: the rows have room for the run. They are fixed arrays, since there is no heap, and three, as the run
// wants them.
fn put_plan(plan: Plan, reads: &[u32], page: &mut Page<'_>) -> Result<(), Full>
    requires { (length reads.now ≤ 160) × (4000 ≤ length (contents page.old).rest) }
    ensures { IsOk result × Said 4000 (run_text plan reads.now) (contents page.old) (contents page.new) }
{
    let mut kinds = [0u32; 166];
    let mut numbers = [0u32; 166];
    let mut values = [0u32; 166];
    match run_of(plan, reads, &mut kinds, &mut numbers, &mut values) {
        Ok(ran) => put_run(ran, &kinds, &numbers, &values, page),
        Err(e) => put_form(b"refused #", &[Refusal::from(e).number()], page),
    }
}
