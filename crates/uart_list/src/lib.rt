// The viable pairs of a UART clock divisor and baud divider: how many there are, and whether lent records are enough for a list of them.
// The call that writes them is the archive's `ogr_uart_list`: only through it can a program lend records.
#![tactic(auto)]

ghost use Rattle.std.specs.Prelude.{◌≡◌};
ghost use Rattle.uart_list.specs.Listing.{Counts};
ghost use Rattle.uart_list.specs.Room.{refusal_of, Roomy};

use refusals::Refusal;
use uart_candidate::{COUNT, FIRST, LAST, Wanted};

// The viable pairs outnumber the records: how many there are.
// Records are short here, and the three rows of a run in pll_seq: one error for both would say neither.
#[derive(Clone, Copy, PartialEq, Eq)]
pub struct NoRoom {
    pub needed: usize,
}

// What a refusal carries has 32 bits.
impl From<NoRoom> for Refusal {
    ghost from_gives = { λ e r. r ≡ refusal_of e };

    fn from(e: NoRoom) -> Refusal {
        Refusal::NoRoom((e.needed % 0x1_0000_0000) as u32)
    }
}

// How many viable pairs there are. The clauses of a chain of `filter` and `count` speak of a test that is a function of its item; `viable`
// promises its outcome by a relation, which the loop's invariant takes as it is: the chain is no plainer.
pub fn viable_count(wanted: Wanted) -> usize
    ensures { Counts wanted.reference wanted.target result }
{
    let mut count = 0;
    for bdiv in FIRST..=LAST {
        if wanted.viable(bdiv).is_some() {
            count += 1;
        }
    }
    count
}

// Whether `lent` records are enough. The pairs are counted only where the records could be too few.
#[tactic(auto, using(crate::proofs::Laws::roomy))]
pub fn room(wanted: Wanted, lent: usize) -> Result<(), NoRoom>
    ensures { Roomy wanted.reference wanted.target lent result }
{
    if lent >= COUNT {
        return Ok(());
    }
    let needed = viable_count(wanted);
    if needed > lent {
        return Err(NoRoom { needed });
    }
    Ok(())
}
