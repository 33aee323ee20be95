// The nearest pair of divisors, for every search of document 01: specs/ says what "nearest" means, proofs/ has the laws, and the code takes
// one first divisor, a row, after the other.
#![tactic(auto)]

ghost use Rattle.std.specs.Prelude.{◌≡◌, ◌+◌, ◌*◌, ◌/◌, ◌<◌};
ghost use Rattle.nearness.specs.Distance.{distance};
ghost use Rattle.nearness.specs.Found.{AtTurn, Found};

// A pair, and how far its frequency is from the target.
#[derive(Clone, Copy)]
struct Candidate {
    div0: u32,
    div1: u32,
    diff: u32,
}

// What is looked for, with the ratio by which each row finds its ideal divisor. Whoever makes one shows that there is something to look for.
#[derive(Clone, Copy)]
pub struct Wanted {
    pub reference: u32,
    pub target: u32,
    pub firsts: u32,
    pub seconds: u32,
    pub ratio: u32,
    ghost some_target: { 0 < target },
    ghost some_firsts: { 0 < firsts },
    ghost some_seconds: { 0 < seconds },
    ghost is_ratio: { ratio ≡ reference / target },
}

impl Wanted {
    // The two divisors, the first of 1 to firsts and the second of 1 to seconds, whose frequency, the reference over both, is nearest the
    // target. In each caller by itself: I2C's four rows of 64 are unrolled so.
    #[inline(always)]
    pub fn nearest_pair(self) -> (u32, u32)
        ensures { Found (λ d0 d1. self.reference / (d0 * d1)) self.target self.firsts self.seconds result.0 result.1 }
    {
        let best = self.nearest();
        (best.div0, best.div1)
    }

    // Row by row, the nearest so far is kept, so that the first of equally near rows stays. After an exact hit none is nearer.
    #[inline(always)]
    fn nearest(self) -> Candidate
        ensures { Found (λ d0 d1. self.reference / (d0 * d1)) self.target self.firsts self.seconds result.div0 result.div1 }
    {
        let mut best = self.nearest_in_row(1);
        for div0 in 2..=self.firsts {
            if best.diff == 0 {
                break;
            }
            let row = self.nearest_in_row(div0);
            if row.diff < best.diff {
                best = row;
            }
        }
        best
    }

    // The frequency falls as the second divisor grows, and the ideal divisor is the last one that reaches the target: the nearest is that
    // one or the next. A product up to the ideal divisor is within the reference, so 32 bits hold it.
    #[tactic(auto, using(crate::proofs::Row::reaches, crate::proofs::Row::misses, crate::proofs::Row::ideal_wins))]
    fn nearest_in_row(self, div0: u32) -> Candidate
        requires { 0 < div0 }
        ensures first { result.div0 ≡ div0 }
        ensures row { AtTurn (λ d1. self.reference / (div0 * d1)) self.target self.seconds result.div1 result.diff }
    {
        let ideal = self.ratio / div0;
        if ideal == 0 {
            return Candidate {
                div0,
                div1: 1,
                diff: self.target - self.reference / div0,
            };
        }
        if self.seconds <= ideal {
            return Candidate {
                div0,
                div1: self.seconds,
                diff: self.reference / (div0 * self.seconds) - self.target,
            };
        }
        let product = div0 * ideal;
        let over = self.reference / product - self.target;
        let under = self.target - over_sum(self.reference, product, div0);
        if under < over {
            Candidate {
                div0,
                div1: ideal + 1,
                diff: under,
            }
        } else {
            Candidate {
                div0,
                div1: ideal,
                diff: over,
            }
        }
    }
}

// a over the sum of b and c. A sum past 32 bits is above a, and the quotient 0.
fn over_sum(a: u32, b: u32, c: u32) -> u32
    requires { 0 < c }
    ensures { result ≡ a / (b + c) }
{
    match b.checked_add(c) {
        Some(sum) => a / sum,
        None => 0,
    }
}
