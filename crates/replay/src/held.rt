// What is known between two reads.
ghost use Rattle.std.specs.Prelude.{◌≤◌, ◌≡◌};
ghost use Rattle.trace.specs.Numbers.{nothing};
ghost use Rattle.replay.specs.Ending.{so_far, at_end};

use crate::report::Fault;
use trace::Trace;

// The state, and how many bytes of an unfinished sample stand at the input's front. They stay there, since a read goes on behind them: an
// `ArrayVec` cannot be read into.
#[derive(Clone, Copy)]
pub struct Held {
    pub trace: Trace,
    pub count: usize,
    ghost few: { count ≤ 3 },
}

// Nothing has been read. No derive, since it would not say so by the name that the laws have for it.
impl Default for Held {
    ghost is_default = { λ held. (held.trace ≡ nothing) × (held.count ≡ 0) };

    fn default() -> Held {
        Held {
            trace: Trace::default(),
            count: 0,
        }
    }
}

impl Held {
    pub fn at_end(self) -> Result<Trace, Fault>
        ensures { result ≡ at_end self.trace self.count }
    {
        if self.count == 0 {
            Ok(self.trace)
        } else {
            Err(Fault::Unfinished(self.so_far()))
        }
    }

    // How many bytes have been read.
    pub fn so_far(self) -> u64
        ensures { result ≡ so_far self.trace self.count }
    {
        u64::from(self.trace.samples) * 4 + self.count as u64
    }
}
