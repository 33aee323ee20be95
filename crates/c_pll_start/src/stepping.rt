// A step of a run that comes in by value. A caller can make any run: one whose numbers no run has is refused.
ghost use Rattle.std.specs.Prelude.{◌≡◌};
ghost use Rattle.pll_step.specs.Step.{told, next};
ghost use Rattle.c_pll_start.specs.Step.{nothing, tells, given, stepped};

use crate::{LOCKED, NOTHING, Plan, READ, Run, Step, WRITE};
use pll_step::{PllSequence, Request};
use refusals::Refusal;

// Refused, by the number of a refusal as a host in C has it: the host is to do nothing more.
pub fn nothing(refusal: u32, run: Run) -> Step
    ensures { result ≡ nothing refusal run }
{
    Step {
        refusal,
        request: NOTHING,
        number: 0,
        value: 0,
        run,
    }
}

fn tell(request: Request, run: Run) -> Step
    ensures { result ≡ tells (told request) run }
{
    let (request, number, value) = match request {
        Request::Read(number) => (READ, number, 0),
        Request::Write(number, value) => (WRITE, number, value),
        Request::Locked => (LOCKED, 0, 0),
        Request::LockTimeout => return nothing(Refusal::LockTimeout.number(), run),
    };
    Step {
        refusal: 0,
        request,
        number,
        value,
        run,
    }
}

// One step of a sequence, whose run has this plan.
pub fn go(plan: Plan, sequence: PllSequence, word: u32) -> Step
    ensures { result ≡ given plan (next sequence word) }
{
    let step = sequence.step(word);
    tell(step.request, Run::at(plan, step.next.place))
}

// Takes the word that the host read for the last request; after a write it is ignored.
pub fn pll_step(run: Run, word: u32) -> Step
    ensures { result ≡ stepped run word }
{
    match run.sequence() {
        Some(sequence) => go(run.plan, sequence, word),
        None => nothing(Refusal::BadField.number(), run),
    }
}
