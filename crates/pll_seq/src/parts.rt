// The parts of a run, one after the other. Where one is the last, it says how the run ended.
ghost use Rattle.pll_rows.specs.Sequence.{ends};
ghost use Rattle.pll_seq.specs.Record.{ending};
ghost use Rattle.pll_seq.specs.Recorder.{rows_of, SameRows};
ghost use Rattle.pll_seq.specs.Moves.{Enough, whole, to_poll, to_close, Turns, Goes, locks};

use crate::End;
use crate::recorder::{Kind, Recorder};
use fields::set_field;
use pll_rows::{Due, PllPlan, PllRegisters, locked, row};

pub(crate) fn record(plan: PllPlan, limit: u16, recorder: &mut Recorder) -> End
    requires { Enough (whole plan limit recorder.old.words.now) recorder.old.count (rows_of recorder.old) }
    ensures same_rows { SameRows recorder.old recorder.new }
    ensures turns { Turns (whole plan limit recorder.old.words.now) recorder.old (ends (ending result)) recorder.new }
{
    match record_parts(plan, limit, recorder) {
        Ok(()) => End::Locked,
        Err(end) => end,
    }
}

// Err is the end of a run that is over before its last part, or in it.
// Each part asks for the room of what is left from it on, which is another run each time, so that no one invariant says it.
fn record_parts(plan: PllPlan, limit: u16, recorder: &mut Recorder) -> Result<(), End>
    requires { Enough (whole plan limit recorder.old.words.now) recorder.old.count (rows_of recorder.old) }
    ensures same_rows { SameRows recorder.old recorder.new }
    ensures goes { Goes (whole plan limit recorder.old.words.now) recorder.old locks recorder.new result }
{
    record_opening(plan, limit, recorder)?;
    record_polls(plan, limit, recorder)?;
    record_closing(plan, recorder)
}

// Each row before the polls is one access. The limit is there for the clauses, which say what is to come behind them; a ghost value can't
// be chosen from what the caller has besides these arguments.
fn record_opening(plan: PllPlan, limit: u16, recorder: &mut Recorder) -> Result<(), End>
    requires { Enough (whole plan limit recorder.old.words.now) recorder.old.count (rows_of recorder.old) }
    ensures same_rows { SameRows recorder.old recorder.new }
    ensures goes { Goes (whole plan limit recorder.old.words.now) recorder.old (to_poll plan limit) recorder.new result }
{
    let mut word = 0;
    for at in 0..9 {
        match row(plan, at, word) {
            Due::Read(number) => word = recorder.read(number)?,
            Due::Write(number, value) => {
                recorder.put(Kind::Write, number, value);
                word = value;
            }
            Due::Poll(_) | Due::End => unreachable!(),
        }
    }
    Ok(())
}

// The polls, up to the one that shows the lock.
fn record_polls(plan: PllPlan, limit: u16, recorder: &mut Recorder) -> Result<(), End>
    requires { Enough (to_poll plan limit recorder.old.words.now) recorder.old.count (rows_of recorder.old) }
    ensures same_rows { SameRows recorder.old recorder.new }
    ensures goes { Goes (to_poll plan limit recorder.old.words.now) recorder.old (to_close plan) recorder.new result }
{
    for _ in 0..limit {
        let status = recorder.read(registers::PLL_STATUS as u32)?;
        if locked(plan.pll, status) {
            return Ok(());
        }
    }
    Err(End::TimedOut)
}

// The two rows after the polls.
fn record_closing(plan: PllPlan, recorder: &mut Recorder) -> Result<(), End>
    requires { Enough (to_close plan recorder.old.words.now) recorder.old.count (rows_of recorder.old) }
    ensures same_rows { SameRows recorder.old recorder.new }
    ensures goes { Goes (to_close plan recorder.old.words.now) recorder.old locks recorder.new result }
{
    let ctrl = PllRegisters::from(plan.pll).ctrl;
    let word = recorder.read(ctrl)?;
    recorder.put(
        Kind::Write,
        ctrl,
        set_field(word, registers::BYPASS_FORCE, 0),
    );
    Ok(())
}
