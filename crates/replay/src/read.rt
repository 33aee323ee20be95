// A trace read to its end, block by block. A sample may begin in one block and end in the next, so that its first bytes are held at the
// input's front, and a read goes on behind them.
ghost use Rattle.std.specs.Prelude.{◌+◌, ◌≤◌, take};
ghost use Rattle.replay.specs.Block.{BLOCK};
ghost use Rattle.replay.specs.Reading.{Told};
ghost use Rattle.replay.specs.Turns.{Filled, Advances};

use crate::block::feed_block;
use crate::held::Held;
use crate::report::Fault;
use std::io::Read;
use std::time::Clock;
use trace::Trace;
use words::keep;

// On a terminal it shows how far it is.
pub fn read_trace(rt: HostRuntime, shown: bool) -> Result<Trace, Fault>
    ensures { Told result }
{
    // Fixed memory: there is no heap. What is held stands in front, and a read goes on behind it.
    let mut input = [0; 65536];
    read_blocks(rt, &mut input, shown)
}

// A proved loop has to end, and nothing says that the input does: so it counts its turns, up to a number that no run reaches.
fn read_blocks(rt: HostRuntime, input: &mut [u8; 65536], shown: bool) -> Result<Trace, Fault>
    ensures { Told result }
{
    let mut held = Held::default();
    let mut second = 0;
    for _ in 0..u64::MAX {
        let got = fill(rt, input, held)?;
        if got == 0 {
            return held.at_end();
        }
        held = take_block(input, held, got)?;
        if shown {
            second = show(rt, held, second);
        }
    }
    Err(Fault::Unreadable(held.so_far()))
}

// One read, to the place after what is held. It gives some bytes, or none at the end.
// 0 is the end, as Read has it, and the one caller tests it at once.
fn fill(rt: HostRuntime, input: &mut [u8; 65536], held: Held) -> Result<usize, Fault>
    ensures { Filled held input.old input.new result }
{
    let mut stdin = rt.stdin();
    stdin
        .read(&mut input[held.count..])
        .map_err(|_| Fault::Unreadable(held.so_far()))
}

// The bytes that the input has by now: their samples go into the state, and what is left of one is moved to the front. The input is no longer
// than a block may be, so that they are taken.
fn take_block(input: &mut [u8; 65536], held: Held, got: usize) -> Result<Held, Fault>
    requires { held.count + got ≤ BLOCK }
    ensures { Advances held.trace (take (held.count + got) input.old) input.new result }
{
    let filled = held.count + got;
    let taken = feed_block(held.trace, &input[..filled]).unwrap();
    let trace = taken.fed?;
    let count = keep(input, taken.used, filled);
    Ok(Held { trace, count })
}

// What a terminal shows: how many samples there are by now, in one line that changes once a second. The time, in seconds, is handed from
// one call to the next; a clock that cannot be read shows nothing.
fn show(rt: HostRuntime, held: Held, before: u64) -> u64 {
    let second = rt.since_1970().map_or(before, |time| time.as_secs());
    if second != before {
        let samples = held.trace.samples;
        let _ = eprint!(rt; "\rreplay: {samples} samples");
    }
    second
}
