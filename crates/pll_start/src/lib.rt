// Starting the PLL sequence, once for each PLL or unchecked. The marks of what was started go in and come back by value.
#![tactic(auto)]

ghost use Rattle.std.specs.Prelude.{◌≡◌};
ghost use Rattle.pll_start.specs.Start.{refusal_of, fits, marked, mark, told, told_once, start, once};

use pll_rows::PllPlan;
use pll_settings::PllConfig;
use pll_step::{Place, PllSequence};
use refusals::Refusal;
use registers::PllType;

// Which PLLs have been started.
#[derive(Clone, Copy)]
pub struct PllMarks {
    pub arm: bool,
    pub ddr: bool,
    pub io: bool,
}

impl PllMarks {
    fn marked(self, pll: PllType) -> bool
        ensures { result ≡ marked pll self }
    {
        match pll {
            PllType::Arm => self.arm,
            PllType::Ddr => self.ddr,
            PllType::Io => self.io,
        }
    }

    fn mark(self, pll: PllType) -> PllMarks
        ensures { result ≡ mark pll self }
    {
        match pll {
            PllType::Arm => PllMarks { arm: true, ..self },
            PllType::Ddr => PllMarks { ddr: true, ..self },
            PllType::Io => PllMarks { io: true, ..self },
        }
    }
}

// A limit of 0 polls, a setting too wide for its field, and a PLL that has a start already.
#[derive(Clone, Copy, PartialEq, Eq)]
pub enum StartError {
    BadLimit,
    BadField,
    Already,
}

impl From<StartError> for Refusal {
    ghost from_gives = { λ e r. r ≡ refusal_of e };

    fn from(e: StartError) -> Refusal {
        match e {
            StartError::BadLimit => Refusal::BadLimit,
            StartError::BadField => Refusal::BadField,
            StartError::Already => Refusal::Already,
        }
    }
}

// The marks come back by value on a refusal too, as a host in C keeps them.
#[derive(Clone, Copy)]
pub struct Started {
    pub start: Result<PllSequence, StartError>,
    pub marks: PllMarks,
}

// Every setting fits its field.
pub fn fits(config: PllConfig) -> bool
    ensures { result ≡ fits config }
{
    config.fdiv <= 127
        && config.charge_pump <= 15
        && config.loop_resistor <= 15
        && config.lock_count <= 1023
}

// Starts a run whatever was started before, and marks nothing.
pub fn configure_pll_unchecked(plan: PllPlan, limit: u16) -> Result<PllSequence, StartError>
    ensures { told result ≡ start plan limit }
{
    if limit == 0 {
        return Err(StartError::BadLimit);
    }
    if !fits(plan.config) {
        return Err(StartError::BadField);
    }
    let place = Place {
        at: 0,
        polls: limit,
        word: 0,
    };
    Ok(PllSequence { plan, place })
}

// A start of a PLL that has none yet goes through, and marks it: the mark stays even if the run later times out.
pub fn once(pll: PllType, start: Result<PllSequence, StartError>, marks: PllMarks) -> Started
    ensures { told_once result ≡ once pll (told start) marks }
{
    match start {
        Ok(_) if marks.marked(pll) => Started {
            start: Err(StartError::Already),
            marks,
        },
        Ok(_) => Started {
            start,
            marks: marks.mark(pll),
        },
        Err(_) => Started { start, marks },
    }
}

pub fn configure_pll(plan: PllPlan, limit: u16, marks: PllMarks) -> Started
    ensures { told_once result ≡ once plan.pll (start plan limit) marks }
{
    once(plan.pll, configure_pll_unchecked(plan, limit), marks)
}
