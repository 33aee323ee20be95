// A trace of two channels' counters, sample by sample: how many ticks each has made since the first sample, and how far either was ahead.
// A counter has 16 bits and passes zero many times a day, so that only the step from one count to the next says anything. The state goes
// in by value and comes back, so that a trace may be fed in parts of any length.
#![tactic(auto)]

ghost use Rattle.std.specs.Prelude.{◌≡◌, ◌<◌, pos};
ghost use Rattle.trace.specs.Numbers.{nothing};
ghost use Rattle.trace.specs.Parts.{MOST, Onward, Feeds, refusal_of, fed_of};
ghost use Rattle.trace.specs.Difference.{difference, capped};
ghost use Rattle.trace.specs.Sampled.{counted, raised, sampled, begun, Fits};

use refusals::Refusal;

// The most samples of a trace.
const LONGEST: usize = 16777216;

// A channel's ticks since the first sample, and its last count.
#[repr(C)]
#[derive(Clone, Copy, Default)]
pub struct Channel {
    pub total: u64,
    pub last: u16,
}

// The most ticks that one channel was ahead of the other, and the first sample at which it was so many.
#[repr(C)]
#[derive(Clone, Copy, Default)]
pub struct Lead {
    pub ticks: u64,
    pub at: u32,
}

// The header has the channels and the leads as members of these names, so that they are no arrays.
#[repr(C)]
#[derive(Clone, Copy)]
pub struct Trace {
    pub samples: u32,
    pub first: Channel,
    pub second: Channel,
    pub first_leads: Lead,
    pub second_leads: Lead,
}

// With no samples every number is 0. No derive, since it would not say so by the name that the laws have for it.
impl Default for Trace {
    ghost is_default = { λ trace. trace ≡ nothing };

    fn default() -> Trace {
        Trace {
            samples: 0,
            first: Channel::default(),
            second: Channel::default(),
            first_leads: Lead::default(),
            second_leads: Lead::default(),
        }
    }
}

// Why a part is refused: its rows differ in length, or the trace would be longer than can be.
#[derive(Clone, Copy, PartialEq, Eq)]
pub enum TraceError {
    BadRows,
    TraceLong,
}

impl From<TraceError> for Refusal {
    ghost from_gives = { λ error refusal. refusal ≡ refusal_of error };

    fn from(error: TraceError) -> Refusal {
        match error {
            TraceError::BadRows => Refusal::BadRows,
            TraceError::TraceLong => Refusal::TraceLong,
        }
    }
}

// What a program in C is told: 0 or a refusal's number, and the state for the next part, which a refusal gives back as it was.
#[repr(C)]
#[derive(Clone, Copy)]
pub struct Fed {
    pub refusal: u32,
    pub trace: Trace,
}

impl Fed {
    pub fn of(trace: Trace, fed: Result<Trace, TraceError>) -> Fed
        ensures { result ≡ fed_of trace fed }
    {
        match fed {
            Ok(next) => Fed {
                refusal: 0,
                trace: next,
            },
            Err(error) => Fed {
                refusal: Refusal::from(error).number(),
                trace,
            },
        }
    }
}

// A part of a trace: the state for the next part.
#[tactic(auto, using(crate::specs::Parts::bad_rows, crate::specs::Parts::trace_long, crate::specs::Parts::goes_on))]
pub fn feed(trace: Trace, first: &[u16], second: &[u16]) -> Result<Trace, TraceError>
    ensures { Feeds trace first.now second.now (fed_of trace result) }
{
    if first.len() != second.len() {
        return Err(TraceError::BadRows);
    }
    if trace.samples as usize + first.len() > LONGEST {
        return Err(TraceError::TraceLong);
    }
    Ok(trace.through(first, second))
}

impl Trace {
    // Rows of one length, for which there is room.
    fn through(self, first: &[u16], second: &[u16]) -> Trace
        requires { Fits self first.now second.now }
        ensures { Onward self first.now second.now result }
    {
        if first.is_empty() {
            return self;
        }
        let mut state = self.begun(first[0], second[0]);
        for (x, y) in first.iter().zip(second) {
            state = state.sampled(*x, *y);
        }
        state
    }

    // The first sample of all follows itself, so that it is no step.
    fn begun(self, x: u16, y: u16) -> Trace
        ensures { result ≡ begun self x y }
    {
        if self.samples != 0 {
            return self;
        }
        Trace {
            first: Channel {
                last: x,
                ..self.first
            },
            second: Channel {
                last: y,
                ..self.second
            },
            ..self
        }
    }

    fn sampled(self, x: u16, y: u16) -> Trace
        requires { self.samples < MOST }
        ensures { result ≡ sampled self x y }
    {
        let first = self.first.counted(x);
        let second = self.second.counted(y);
        let ahead = first.total.saturating_sub(second.total);
        let behind = second.total.saturating_sub(first.total);
        Trace {
            samples: self.samples + 1,
            first,
            second,
            first_leads: self.first_leads.raised(ahead, self.samples),
            second_leads: self.second_leads.raised(behind, self.samples),
        }
    }
}

impl Channel {
    // The counter may have passed zero since its last count. A total wraps in states alone that no trace has.
    #[tactic(auto, unfolding(crate::specs::Counts::step))]
    fn counted(self, count: u16) -> Channel
        ensures { result ≡ counted self count }
    {
        let step = count.wrapping_sub(self.last);
        Channel {
            total: self.total.wrapping_add(u64::from(step)),
            last: count,
        }
    }
}

impl Lead {
    // A lead that is reached again keeps its first sample.
    fn raised(self, ticks: u64, at: u32) -> Lead
        ensures { result ≡ raised self ticks at }
    {
        if self.ticks < ticks {
            Lead { ticks, at }
        } else {
            self
        }
    }
}

// The first total less the second. Totals that are further apart than 63 bits, which no trace can make, give the last number that there is.
pub fn difference(trace: Trace) -> i64
    ensures { result ≡ difference trace.first.total trace.second.total }
{
    let a = trace.first.total;
    let b = trace.second.total;
    capped(a.saturating_sub(b)) - capped(b.saturating_sub(a))
}

fn capped(ticks: u64) -> i64
    ensures { result ≡ pos (capped ticks) }
{
    i64::try_from(ticks).unwrap_or(i64::MAX)
}
