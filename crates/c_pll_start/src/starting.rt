// Starting a run: a start takes the first step too, so that it says at once what the host is to do.
ghost use Rattle.std.specs.Prelude.{◌≡◌};
ghost use Rattle.refusals.specs.Refusal.{number_of};
ghost use Rattle.pll_start.specs.Start.{told};
ghost use Rattle.c_pll_start.specs.Start.{start_of, not_started, first, started, marks_of, with_marks, started_once};

use crate::stepping::{go, nothing};
use crate::{Plan, Run, Started, Step};
use pll_rows::PllPlan;
use pll_start::{PllMarks, StartError, configure_pll_unchecked, once};
use pll_step::PllSequence;
use refusals::Refusal;

// A PLL's number over 2 is refused as a field too wide, after a limit of 0.
pub fn start_of(plan: Plan) -> Result<PllSequence, StartError>
    ensures { told result ≡ start_of plan }
{
    if plan.polls == 0 {
        return Err(StartError::BadLimit);
    }
    let pll_plan = plan.pll_plan().ok_or(StartError::BadField)?;
    configure_pll_unchecked(pll_plan, plan.polls)
}

// 255 rows done are those of no run: the header has it so.
fn not_started(plan: Plan, refusal: Refusal) -> Step
    ensures { result ≡ not_started plan (number_of refusal) }
{
    nothing(
        refusal.number(),
        Run {
            plan,
            done: 255,
            word: 0,
        },
    )
}

fn first(plan: Plan, start: Result<PllSequence, StartError>) -> Step
    ensures { result ≡ first plan (told start) }
{
    match start {
        Ok(sequence) => go(plan, sequence, 0),
        Err(e) => not_started(plan, Refusal::from(e)),
    }
}

// Starts whatever was started before, and marks nothing.
pub fn pll_start(plan: Plan) -> Step
    ensures { result ≡ started plan }
{
    first(plan, start_of(plan))
}

// A bit for each PLL, as the header has it. No From: PllMarks and u32 are both of other crates.
fn marks_of(number: u32) -> PllMarks
    ensures { result ≡ marks_of number }
{
    PllMarks {
        arm: number % 2 == 1,
        ddr: number / 2 % 2 == 1,
        io: number / 4 % 2 == 1,
    }
}

fn with_marks(number: u32, marks: PllMarks) -> u32
    ensures { result ≡ with_marks number marks }
{
    number / 8 * 8 + u32::from(marks.io) * 4 + u32::from(marks.ddr) * 2 + u32::from(marks.arm)
}

// Starts a PLL that is not marked, and marks it.
pub fn pll_start_once(plan: Plan, marks: u32) -> Started
    ensures { result ≡ started_once plan marks }
{
    let before = marks_of(marks);
    let after = once(PllPlan::from(plan).pll, start_of(plan), before);
    Started {
        step: first(plan, after.start),
        marks: with_marks(marks, after.marks),
    }
}
