// The PLL sequence, one register access a step: the host owns the registers, and here are the order and the words.
#![tactic(auto)]

ghost use Rattle.std.specs.Prelude.{◌≡◌};
ghost use Rattle.pll_step.specs.Step.{Steps};
ghost use Rattle.pll_step.specs.Within.{received_by, asks, tell};

use pll_rows::{Due, PllPlan, locked, row};

// Where a run stands: how many rows of the sequence are done, the polls that are left, the word last read or written.
#[derive(Clone, Copy)]
pub struct Place {
    pub at: u8,
    pub polls: u16,
    pub word: u32,
}

// A run. A caller can make any value of it, and a step is settled for them all: past the last row it is locked, and a setting too
// wide for its field, which no start gives, never reaches the other bits.
#[derive(Clone, Copy)]
pub struct PllSequence {
    pub plan: PllPlan,
    pub place: Place,
}

// What the host is to do: read a word of the image, write a value to one, or nothing more.
// A lock that timed out is an end as Locked is, and no error to be handed on: the run comes back with it, and a step of that gives it again.
#[derive(Clone, Copy)]
pub enum Request {
    Read(u32),
    Write(u32, u32),
    Locked,
    LockTimeout,
}

#[derive(Clone, Copy)]
pub struct Step {
    pub request: Request,
    pub next: PllSequence,
}

impl PllSequence {
    // Takes the word that the host read for the last request, and answers what to do next. Where no read was asked for, the word
    // is ignored. A step after the end gives the same end again.
    pub fn step(self, word: u32) -> Step
        ensures { Steps self word result }
    {
        self.received(word).ask()
    }

    // Takes in the word that the host read, where a read was asked for last.
    fn received(self, word: u32) -> PllSequence
        ensures { result ≡ received_by self word }
    {
        let Some(last) = self.place.at.checked_sub(1) else {
            return self;
        };
        // Changed in place: a place that is built anew is packed and unpacked at each step.
        let mut next = self;
        match row(self.plan, last, word) {
            Due::Read(_) => {
                next.place.word = word;
                next
            }
            Due::Poll(_) if locked(self.plan.pll, word) => {
                next.place.word = word;
                next
            }
            Due::Poll(_) => {
                next.place.at = last;
                next.place.word = word;
                next
            }
            Due::Write(_, _) | Due::End => self,
        }
    }

    // Asks for the row that is due, and moves on.
    fn ask(self) -> Step
        ensures { tell result ≡ asks self }
    {
        let place = self.place;
        let (request, next) = match row(self.plan, place.at, place.word) {
            Due::Read(number) => (
                Request::Read(number),
                Place {
                    at: place.at + 1,
                    ..place
                },
            ),
            Due::Write(number, word) => (
                Request::Write(number, word),
                Place {
                    at: place.at + 1,
                    word,
                    ..place
                },
            ),
            Due::Poll(_) if place.polls == 0 => (Request::LockTimeout, place),
            Due::Poll(number) => (
                Request::Read(number),
                Place {
                    at: place.at + 1,
                    polls: place.polls - 1,
                    ..place
                },
            ),
            Due::End => (Request::Locked, place),
        };
        Step {
            request,
            next: self.at(next),
        }
    }

    fn at(self, place: Place) -> PllSequence
        ensures { result ≡ record { plan = self.plan; place = place } }
    {
        PllSequence { place, ..self }
    }
}
