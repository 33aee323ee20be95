// Accesses as they are recorded: each in the next place of the three lent rows.
ghost use Rattle.std.specs.Prelude.{◌≡◌, ◌+◌, ◌<◌, length, [], ◌∷◌, MatchResult};
ghost use Rattle.pll_seq.specs.Record.{Room, number_of, kind_of};
ghost use Rattle.pll_seq.specs.Recorder.{rows_of, SameRows, Puts, Reads};

use crate::End;

#[derive(Clone, Copy, PartialEq, Eq)]
pub enum Kind {
    Read,
    Write,
}

// As the row of kinds has it.
impl From<Kind> for u32 {
    ghost from_gives = { λ kind n. n ≡ number_of kind };

    fn from(kind: Kind) -> u32 {
        match kind {
            Kind::Read => 0,
            Kind::Write => 1,
        }
    }
}

impl From<u32> for Kind {
    ghost from_gives = { λ n kind. kind ≡ kind_of n };

    fn from(number: u32) -> Kind {
        match number {
            0 => Kind::Read,
            _ => Kind::Write,
        }
    }
}

// The words that the host has not returned yet, and the rows, in which so many accesses are recorded.
#[derive(Drop)]
pub(crate) struct Recorder<'a> {
    pub(crate) words: &'a [u32],
    pub(crate) kinds: &'a mut [u32],
    pub(crate) numbers: &'a mut [u32],
    pub(crate) values: &'a mut [u32],
    pub(crate) count: usize,
}

impl Recorder<'_> {
    // The next word, if the host returns one.
    pub(crate) fn read(&mut self, number: u32) -> Result<u32, End>
        requires { 0 < length self.old.words.now → Room (self.old.count + 1) (rows_of self.old) }
        ensures same_rows { SameRows self.old self.new }
        ensures reads { Reads self.old number self.new result }
    {
        let Some((&word, rest)) = self.words.split_first() else {
            return Err(End::Starved);
        };
        self.words = rest;
        self.put(Kind::Read, number, word);
        Ok(word)
    }

    pub(crate) fn put(&mut self, kind: Kind, number: u32, value: u32)
        requires { Room (self.old.count + 1) (rows_of self.old) }
        ensures same_rows { SameRows self.old self.new }
        ensures puts { Puts self.old (record { kind = number_of kind; number = number; value = value }) self.new }
        ensures words { self.new.words.now ≡ self.old.words.now }
    {
        self.kinds[self.count] = u32::from(kind);
        self.numbers[self.count] = number;
        self.values[self.count] = value;
        self.count += 1;
    }
}
