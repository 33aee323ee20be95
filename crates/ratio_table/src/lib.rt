// Clocks that are given undivided, each two of them as a ratio in lowest terms, and the table of four: nothing is divided before two are
// compared, since whole Hertz hide what a resampler needs.
#![tactic(auto)]

ghost use Rattle.std.specs.Prelude.{◌≡◌};
ghost use Rattle.ratio_table.specs.Lowest.{Reduced, ratio, inverse as inverse_of};
ghost use Rattle.ratio_table.specs.Table.{Compared, Mirrored, Six, mirror, none};

use gcd::gcd;

#[derive(Clone, Copy, PartialEq, Eq)]
pub struct Ratio {
    pub num: u64,
    pub den: u64,
}

impl Ratio {
    const ONE: Ratio = Ratio { num: 1, den: 1 };

    const NONE: Ratio = Ratio { num: 0, den: 0 };

    // Num to den in lowest terms; 0 to 0 stays what it is.
    fn reduced(num: u64, den: u64) -> Ratio
        ensures { Reduced num den result }
    {
        let common = gcd(num, den);
        if common == 0 {
            return Ratio::NONE;
        }
        Ratio {
            num: num / common,
            den: den / common,
        }
    }

    fn inverse(self) -> Ratio
        ensures { result ≡ inverse_of self }
    {
        Ratio {
            num: self.den,
            den: self.num,
        }
    }
}

// A clock before any division: what its PLL gives, and the product of its divisors.
#[derive(Clone, Copy, PartialEq, Eq)]
pub struct Undivided {
    pub source: u32,
    pub product: u32,
}

impl Undivided {
    // This clock to another one.
    fn to(self, other: Undivided) -> Ratio
        ensures { Compared self other result }
    {
        Ratio::reduced(
            self.source as u64 * other.product as u64,
            other.source as u64 * self.product as u64,
        )
    }
}

// The six ratios above a table's diagonal.
#[derive(Clone, Copy, PartialEq, Eq)]
pub struct Above {
    pub r01: Ratio,
    pub r02: Ratio,
    pub r03: Ratio,
    pub r12: Ratio,
    pub r13: Ratio,
    pub r23: Ratio,
}

impl Above {
    // The whole table: 1 to 1 on the diagonal, and below it each ratio turned round.
    pub fn table(self) -> [[Ratio; 4]; 4]
        ensures { result ≡ mirror (ratio 1 1) self }
    {
        let (ab, ac, ad) = (self.r01, self.r02, self.r03);
        let (bc, bd, cd) = (self.r12, self.r13, self.r23);
        [
            [Ratio::ONE, ab, ac, ad],
            [ab.inverse(), Ratio::ONE, bc, bd],
            [ac.inverse(), bc.inverse(), Ratio::ONE, cd],
            [ad.inverse(), bd.inverse(), cd.inverse(), Ratio::ONE],
        ]
    }
}

// Each two of four clocks.
pub fn compared(a: Undivided, b: Undivided, c: Undivided, d: Undivided) -> Above
    ensures { Six a b c d result }
{
    Above {
        r01: a.to(b),
        r02: a.to(c),
        r03: a.to(d),
        r12: b.to(c),
        r13: b.to(d),
        r23: c.to(d),
    }
}

// The table of four clocks: each two of them compared.
pub fn table(a: Undivided, b: Undivided, c: Undivided, d: Undivided) -> [[Ratio; 4]; 4]
    ensures { Mirrored a b c d result }
{
    compared(a, b, c, d).table()
}

// 0 to 0 everywhere, on the diagonal too.
pub fn no_ratios() -> [[Ratio; 4]; 4]
    ensures { result ≡ none }
{
    [[Ratio::NONE; 4]; 4]
}
