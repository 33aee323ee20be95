// The best pair of a UART clock divisor and baud divider.
#![tactic(auto)]

ghost use Rattle.std.specs.Prelude.{◌≡◌};
ghost use Rattle.uart_best.specs.Best.{Right, told, refusal_of};
ghost use Rattle.uart_best.specs.Turn.{First};

use refusals::Refusal;
use uart_candidate::{BaudDivisors, FIRST, LAST, Wanted};

// No baud divider has a candidate.
#[derive(Clone, Copy, PartialEq, Eq)]
pub struct NoPair;

impl From<NoPair> for Refusal {
    ghost from_gives = { λ e r. r ≡ refusal_of e };

    fn from(_e: NoPair) -> Refusal {
        Refusal::NoPair
    }
}

// The candidate with the least bdiv.
// A loop and no `find_map`: it is no plainer, since that a closure found the least has to be shown again.
fn first(wanted: Wanted) -> Option<BaudDivisors>
    ensures { First wanted.reference wanted.target result }
{
    for bdiv in FIRST..=LAST {
        if let Some(pair) = wanted.candidate(bdiv) {
            return Some(pair);
        }
    }
    None
}

// The pair with the least error. Only a lesser error displaces: on a tie the first bdiv stays.
pub fn best_baud_divisors(reference: u32, target: u32) -> Result<BaudDivisors, NoPair>
    ensures { Right reference target (told result) }
{
    let wanted = Wanted::new(reference, target);
    let mut best = first(wanted).ok_or(NoPair)?;
    for bdiv in best.bdiv as u32 + 1..=LAST {
        if let Some(tried) = wanted.candidate(bdiv) {
            if tried.error < best.error {
                best = tried;
            }
        }
    }
    Ok(best)
}
