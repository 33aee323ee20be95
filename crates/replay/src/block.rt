// A block of a trace's bytes, as two rows of counts, fed to the state.
ghost use Rattle.std.specs.Prelude.{length, IsSomeAnd, IsNone};
ghost use Rattle.bounds.specs.Within.{Within};
ghost use Rattle.replay.specs.Block.{BLOCK, Takes};

use trace::{Trace, TraceError, feed};

// The most bytes of a block, and the most samples.
const BYTES: usize = 65536;

const SAMPLES: usize = 16384;

// What the samples came to, and how many bytes they had.
#[derive(Clone, Copy)]
pub struct Taken {
    pub fed: Result<Trace, TraceError>,
    pub used: usize,
}

// The whole samples of a block. One that is longer than the rows have room for is not taken. By itself: within `main` its loop lacks a register,
// and takes a third more time.
#[inline(never)]
pub fn feed_block(trace: Trace, block: &[u8]) -> Option<Taken>
    ensures { Within (length block.now) BLOCK (IsSomeAnd result (Takes trace block.now)) (IsNone result) }
{
    if BYTES < block.len() {
        return None;
    }
    // Arrays, of which the fronts are used: an `ArrayVec` stores its length at each push, with which the program takes half as long again.
    let mut first = [0; SAMPLES];
    let mut second = [0; SAMPLES];
    for (i, sample) in block.chunks_exact(4).enumerate() {
        first[i] = u16::from_le_bytes([sample[0], sample[1]]);
        second[i] = u16::from_le_bytes([sample[2], sample[3]]);
    }
    let n = block.len() / 4;
    let fed = feed(trace, &first[..n], &second[..n]);
    Some(Taken { fed, used: n * 4 })
}
