// One baud divider of the UART search: its clock divisor, the pair's error, and whether it is viable.
#![tactic(auto)]

ghost use Rattle.std.specs.Prelude.{◌≡◌};
ghost use Rattle.uart_candidate.specs.Candidate.{wanted, clock_divisor, actual_baud, error_fraction, Candidate, Viable, Outcome};

// The baud dividers that are tried, here and in every search.
pub const FIRST: u32 = 4;

pub const LAST: u32 = 254;

pub const COUNT: usize = 251;

pub const MAX_BAUDERROR_RATE: f32 = 0.005;

#[repr(C)]
#[derive(Clone, Copy)]
pub struct BaudDivisors {
    pub cd: u16,
    pub bdiv: u8,
    pub error: f32,
}

// What a search looks for: a reference clock, and the baud rate that is wanted of it. Both are f32 before the first turn.
#[derive(Clone, Copy)]
pub struct Wanted {
    pub reference: f32,
    pub target: f32,
}

impl Wanted {
    pub fn new(reference: u32, target: u32) -> Wanted
        ensures { result ≡ wanted reference target }
    {
        Wanted {
            reference: float32::of_whole(reference),
            target: float32::of_whole(target),
        }
    }

    // reference / ((bdiv + 1) · target), to a whole number.
    fn clock_divisor(self, bdiv: u8) -> u32
        ensures { result ≡ clock_divisor self.reference self.target bdiv }
    {
        float32::to_whole(self.reference / (((bdiv as u16 + 1) as f32) * self.target))
    }

    // reference / (cd · (bdiv + 1))
    fn actual_baud(self, cd: u16, bdiv: u8) -> f32
        ensures { result ≡ actual_baud self.reference cd bdiv }
    {
        self.reference / ((cd as f32) * ((bdiv as u16 + 1) as f32))
    }

    // |actual baud − target| / target
    fn error_fraction(self, cd: u16, bdiv: u8) -> f32
        ensures { result ≡ error_fraction self.reference self.target cd bdiv }
    {
        float32::abs(self.actual_baud(cd, bdiv) - self.target) / self.target
    }

    // The candidate with this bdiv. A range tests both ends at once; `u16::try_from` would leave the 0 to be tested.
    #[tactic(auto, using(crate::proofs::Pairs::tries, std::proofs::lemmas::Grind::common_steps))]
    pub fn candidate(self, bdiv: u32) -> Option<BaudDivisors>
        ensures { Outcome (Candidate self.reference self.target) bdiv result }
    {
        if !(FIRST..=LAST).contains(&bdiv) {
            return None;
        }
        let bdiv = bdiv as u8;
        let cd = self.clock_divisor(bdiv);
        if !(1..=0xffff).contains(&cd) {
            return None;
        }
        let cd = cd as u16;
        Some(BaudDivisors {
            cd,
            bdiv,
            error: self.error_fraction(cd, bdiv),
        })
    }

    // The viable pair with this bdiv.
    pub fn viable(self, bdiv: u32) -> Option<BaudDivisors>
        ensures { Outcome (Viable self.reference self.target) bdiv result }
    {
        self.candidate(bdiv)
            .filter(|p| p.error < MAX_BAUDERROR_RATE)
    }
}
