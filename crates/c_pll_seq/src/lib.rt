// A whole run of the PLL sequence for a program in C: an unchecked start, and the accesses in three lent rows.
#![tactic(auto)]

ghost use Rattle.std.specs.Prelude.{◌≡◌};
ghost use Rattle.pll_seq.specs.Record.{rows, ending};
ghost use Rattle.c_pll_seq.specs.declared.SeqError.TheVariants.{NotStarted, NoRoom};
ghost use Rattle.c_pll_seq.specs.Ran.{end_number, handed, refusal_of, told, Tells, Runs};

use c_pll_start::Plan;
use c_pll_start::starting::start_of;
use pll_seq::{End, NoRoom, run};
use pll_start::StartError;
use refusals::Refusal;

// 0 or a refusal; how the run ended; how many accesses it made, or with refusal 9 how many records each of the rows must hold.
#[repr(C)]
#[derive(Clone, Copy)]
pub struct Ran {
    pub refusal: u32,
    pub end: u32,
    pub accesses: usize,
}

// Why there is no run.
#[derive(Clone, Copy, PartialEq, Eq)]
pub enum SeqError {
    NotStarted(StartError),
    NoRoom(NoRoom),
}

impl From<StartError> for SeqError {
    ghost from_gives = { λ e r. r ≡ NotStarted e };

    fn from(e: StartError) -> SeqError {
        SeqError::NotStarted(e)
    }
}

impl From<NoRoom> for SeqError {
    ghost from_gives = { λ e r. r ≡ NoRoom e };

    fn from(e: NoRoom) -> SeqError {
        SeqError::NoRoom(e)
    }
}

impl From<SeqError> for Refusal {
    ghost from_gives = { λ e r. r ≡ refusal_of e };

    fn from(e: SeqError) -> Refusal {
        match e {
            SeqError::NotStarted(e) => Refusal::from(e),
            SeqError::NoRoom(e) => Refusal::from(e),
        }
    }
}

// A number, as the header has it.
// The numbers are the header's.
fn end_number(end: End) -> u32
    ensures { result ≡ end_number (ending end) }
{
    match end {
        End::Locked => 0,
        End::TimedOut => 1,
        End::Starved => 2,
    }
}

impl From<Result<pll_seq::Ran, SeqError>> for Ran {
    ghost from_gives = { λ outcome r. r ≡ handed (told outcome) };

    fn from(outcome: Result<pll_seq::Ran, SeqError>) -> Ran {
        match outcome {
            Ok(ran) => Ran {
                refusal: 0,
                end: end_number(ran.end),
                accesses: ran.accesses,
            },
            Err(e) => Ran {
                refusal: Refusal::from(e).number(),
                end: 0,
                accesses: match e {
                    SeqError::NotStarted(_) => 0,
                    SeqError::NoRoom(e) => e.needed,
                },
            },
        }
    }
}

// The run, for a program that need not be told in numbers.
pub fn run_of(
    plan: Plan,
    reads: &[u32],
    kinds: &mut [u32],
    numbers: &mut [u32],
    values: &mut [u32],
) -> Result<pll_seq::Ran, SeqError>
    ensures { Tells plan reads.now (rows kinds.old numbers.old values.old) (rows kinds.new numbers.new values.new) (told result) }
{
    let sequence = start_of(plan)?;
    let ran = run(
        sequence.plan,
        sequence.place.polls,
        reads,
        kinds,
        numbers,
        values,
    )?;
    Ok(ran)
}

pub fn pll_seq(
    plan: Plan,
    reads: &[u32],
    kinds: &mut [u32],
    numbers: &mut [u32],
    values: &mut [u32],
) -> Ran
    ensures { Runs plan reads.now (rows kinds.old numbers.old values.old) (rows kinds.new numbers.new values.new) result }
{
    Ran::from(run_of(plan, reads, kinds, numbers, values))
}
