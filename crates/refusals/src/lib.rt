// The refusals, one enum for all calls: document 01's, and those that document 02's requests add. What a call promises of an answer or a
// refusal is written with the definitions in specs/.
#![tactic(auto)]

ghost use Rattle.std.specs.Prelude.{◌≡◌};
ghost use Rattle.refusals.specs.Refusal.{number_of, carried_by};

// What is carried is a module's number, a multiplier, how many there have to be, or an offset. Each crate says which of these its errors are.
#[derive(Clone, Copy, PartialEq, Eq)]
pub enum Refusal {
    BadImage,
    DivisorZero(u32),
    Overflow(u32),
    ZeroInput,
    MulRange(u32),
    ZeroTarget,
    BadMax,
    NoPair,
    NoRoom(u32),
    Speed,
    LockTimeout,
    BadLimit,
    Already,
    ZeroClock,
    BadSettings(u32),
    Newer,
    NotYours,
    BadRows,
    TraceLong,
    BadField,
}

impl Refusal {
    pub fn number(self) -> u32
        ensures { result ≡ number_of self }
    {
        match self {
            Refusal::BadImage => 1,
            Refusal::DivisorZero(_) => 2,
            Refusal::Overflow(_) => 3,
            Refusal::ZeroInput => 4,
            Refusal::MulRange(_) => 5,
            Refusal::ZeroTarget => 6,
            Refusal::BadMax => 7,
            Refusal::NoPair => 8,
            Refusal::NoRoom(_) => 9,
            Refusal::Speed => 10,
            Refusal::LockTimeout => 11,
            Refusal::BadLimit => 12,
            Refusal::Already => 13,
            Refusal::ZeroClock => 14,
            Refusal::BadSettings(_) => 15,
            Refusal::Newer => 16,
            Refusal::NotYours => 17,
            Refusal::BadRows => 18,
            Refusal::TraceLong => 19,
            Refusal::BadField => 20,
        }
    }

    // What stands behind the number, if anything does.
    pub fn carried(self) -> Option<u32>
        ensures { result ≡ carried_by self }
    {
        match self {
            Refusal::DivisorZero(module) | Refusal::Overflow(module) => Some(module),
            Refusal::MulRange(multiplier) => Some(multiplier),
            Refusal::NoRoom(needed) => Some(needed),
            Refusal::BadSettings(offset) => Some(offset),
            _ => None,
        }
    }
}
