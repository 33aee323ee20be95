// A whole run of the PLL sequence over the words that a host would return: the sequence without a device. Its accesses are recorded,
// one after the other, in three lent rows, in three parts: the rows before the polls, the polls, and the rows after them. The first is a
// loop of a fixed length, which the compiler unrolls; a loop over all rows, or over steps, is not.
#![tactic(auto)]

mod parts;
mod recorder;

ghost use Rattle.std.specs.Prelude.{◌≡◌};
ghost use Rattle.pll_seq.specs.Record.{rows, refusal_of, told, Recorded};

use parts::record;
use pll_rows::PllPlan;
pub use recorder::Kind;
use recorder::Recorder;
use refusals::Refusal;

// Locked: the bit was seen and the bypass released. TimedOut: every poll that is allowed showed the bit clear. Starved: the words ran out.
#[derive(Clone, Copy, PartialEq, Eq)]
pub enum End {
    Locked,
    TimedOut,
    Starved,
}

#[derive(Clone, Copy)]
pub struct Ran {
    pub accesses: usize,
    pub end: End,
}

// How many records each of the rows must hold.
// The three rows of a run are short here, and records in uart_list: one error for both would say neither.
#[derive(Clone, Copy, PartialEq, Eq)]
pub struct NoRoom {
    pub needed: usize,
}

// What is carried has 32 bits, and a length may have more: it is at most the largest of them.
impl From<NoRoom> for Refusal {
    ghost from_gives = { λ e r. r ≡ refusal_of e };

    fn from(e: NoRoom) -> Refusal {
        Refusal::NoRoom(u32::try_from(e.needed).unwrap_or(u32::MAX))
    }
}

// The accesses are reads, one a word, and at most six writes: rows that hold so many are asked for, and shorter ones are left alone. A
// limit of 0 times out before the first poll, and a setting too wide for its field never reaches the other bits; no start gives either.
// The three rows come one by one, as a host in C lends them.
pub fn run(
    plan: PllPlan,
    limit: u16,
    words: &[u32],
    kinds: &mut [u32],
    numbers: &mut [u32],
    values: &mut [u32],
) -> Result<Ran, NoRoom>
    ensures { Recorded plan limit words.now (rows kinds.old numbers.old values.old) (rows kinds.new numbers.new values.new) (told result) }
{
    let needed = words.len() + 6;
    if kinds.len() < needed || numbers.len() < needed || values.len() < needed {
        return Err(NoRoom { needed });
    }
    let mut recorder = Recorder {
        words,
        kinds,
        numbers,
        values,
        count: 0,
    };
    let end = record(plan, limit, &mut recorder);
    Ok(Ran {
        accesses: recorder.count,
        end,
    })
}
