// The PLL sequence: its step form, by value, and a whole run over the words that a host would return.
ghost use Rattle.std.specs.Prelude.{◌≡◌};
ghost use Rattle.pll_seq.specs.Record.{rows};
ghost use Rattle.c_pll_start.specs.Start.{started, started_once};
ghost use Rattle.c_pll_start.specs.Step.{stepped};
ghost use Rattle.c_pll_seq.specs.Ran.{Runs};

use c_pll_seq::{Ran, pll_seq};
use c_pll_start::starting::{pll_start, pll_start_once};
use c_pll_start::stepping::pll_step;
use c_pll_start::{Plan, Run, Started, Step};

#[unsafe(no_mangle)]
pub extern "C" fn ogr_pll_start(plan: Plan) -> Step
    ensures { result ≡ started plan }
{
    pll_start(plan)
}

#[unsafe(no_mangle)]
pub extern "C" fn ogr_pll_start_once(plan: Plan, marks: u32) -> Started
    ensures { result ≡ started_once plan marks }
{
    pll_start_once(plan, marks)
}

#[unsafe(no_mangle)]
pub extern "C" fn ogr_pll_step(run: Run, word: u32) -> Step
    ensures { result ≡ stepped run word }
{
    pll_step(run, word)
}

#[unsafe(no_mangle)]
pub extern "C" fn ogr_pll_seq(
    plan: Plan,
    reads: &[u32],
    kinds: &mut [u32],
    numbers: &mut [u32],
    values: &mut [u32],
) -> Ran
    ensures { Runs plan reads.now (rows kinds.old numbers.old values.old) (rows kinds.new numbers.new values.new) result }
{
    pll_seq(plan, reads, kinds, numbers, values)
}
