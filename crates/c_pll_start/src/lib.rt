// The step form of the PLL sequence for a host in C. A run goes in and comes back by value, so that nothing is lent: a host keeps the run
// of the last step between two steps. Each struct is one of the header's, and the order of its fields is the header's.
#![tactic(auto)]

pub mod starting;
pub mod stepping;

ghost use Rattle.std.specs.Prelude.{◌≡◌};
ghost use Rattle.c_pll_start.specs.Step.{pll_plan_of, plan_in, sequence_in, run_at};

use pll_rows::PllPlan;
use pll_settings::PllConfig;
use pll_start::fits;
use pll_step::{Place, PllSequence};
use registers::PllType;

// What a run is for. The PLL is 0 ARM, 1 DDR, 2 IO.
#[repr(C)]
#[derive(Clone, Copy)]
pub struct Plan {
    pub pll: u8,
    pub bypassed: bool,
    pub fdiv: u8,
    pub charge_pump: u8,
    pub loop_resistor: u8,
    pub lock_count: u16,
    pub polls: u16,
}

// Every number has a plan, which the clause of `ogr_pll_start_once` says too: those over 2 are IO's. `pll_plan` looks for them first.
impl From<Plan> for PllPlan {
    ghost from_gives = { λ plan p. p ≡ pll_plan_of plan };

    fn from(plan: Plan) -> PllPlan {
        PllPlan {
            pll: match plan.pll {
                0 => PllType::Arm,
                1 => PllType::Ddr,
                _ => PllType::Io,
            },
            config: PllConfig {
                fdiv: plan.fdiv,
                charge_pump: plan.charge_pump,
                loop_resistor: plan.loop_resistor,
                lock_count: plan.lock_count,
            },
            bypassed: plan.bypassed,
        }
    }
}

impl Plan {
    // None where the number is that of no PLL.
    pub fn pll_plan(self) -> Option<PllPlan>
        ensures { result ≡ plan_in self }
    {
        (self.pll <= 2).then_some(PllPlan::from(self))
    }
}

// The plan with the polls that are left, how many rows of the sequence are done, and the word last read or written.
#[repr(C)]
#[derive(Clone, Copy)]
pub struct Run {
    pub plan: Plan,
    pub done: u8,
    pub word: u32,
}

impl Run {
    // Where the run is, or None where no run has its numbers.
    fn sequence(self) -> Option<PllSequence>
        ensures { result ≡ sequence_in self }
    {
        let plan = self.plan.pll_plan()?;
        if self.done > 12 || !fits(plan.config) {
            return None;
        }
        let place = Place {
            at: self.done,
            polls: self.plan.polls,
            word: self.word,
        };
        Some(PllSequence { plan, place })
    }

    // The plan stays, but for the polls that are left. It is changed in place, so that it is copied whole and not number by number.
    fn at(plan: Plan, place: Place) -> Run
        ensures { result ≡ run_at plan place }
    {
        let mut plan = plan;
        plan.polls = place.polls;
        Run {
            plan,
            done: place.at,
            word: place.word,
        }
    }
}

// What the host is to do, by the header's numbers: read a word, write one, or nothing more, since the PLL is locked or the call was refused.
const READ: u32 = 0;

const WRITE: u32 = 1;

const LOCKED: u32 = 2;

const NOTHING: u32 = 3;

// 0 or a refusal, what the host is to do, and the run for the next step.
#[repr(C)]
#[derive(Clone, Copy)]
pub struct Step {
    pub refusal: u32,
    pub request: u32,
    pub number: u32,
    pub value: u32,
    pub run: Run,
}

#[repr(C)]
#[derive(Clone, Copy)]
pub struct Started {
    pub step: Step,
    pub marks: u32,
}
