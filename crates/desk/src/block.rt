// The lines of a block of input. A line may begin in one block and end in a later one, so what a block has left of a line is
// kept for the next; a line that has grown too long is answered at once, and the rest of it is swallowed as it comes.
ghost use Rattle.std.specs.Prelude.{◌≤◌, ◌≡◌, length, Ok};
ghost use Rattle.bounds.specs.Within.{Within};
ghost use Rattle.desk.specs.Block.{Block, LinesOf, fresh};
ghost use Rattle.text.specs.Page.{contents};

use crate::line::answer_line;
use text::Page;
use words::until;

// How much of a line that has not ended is kept: the longest that is taken, and a carriage return behind it.
const KEPT: usize = 1025;

// How far the block has been used, and whether the rest of a line is to be swallowed.
// Whether to swallow is not what the number beside it means: a call may go on from any place in either way.
#[derive(Clone, Copy)]
pub struct Place {
    pub used: usize,
    pub swallowing: bool,
}

// The page has not the room for an answer: there is more to answer, from the line on that begins here, once it has been emptied.
#[derive(Clone, Copy)]
pub struct FullAt {
    pub used: usize,
}

// Answers what it can of a block from a place on. The place is one that an earlier call answered, or the block's start; past the block's end
// there is nothing to do.
pub fn answer_block(input: &[u8], from: Place, page: &mut Page<'_>) -> Result<Place, FullAt>
    ensures { Within from.used (length input.now) (Block input.now from (contents page.old) (contents page.new) result) ((result ≡ Ok from) × (contents page.new ≡ contents page.old)) }
{
    if input.len() < from.used {
        return Ok(from);
    }
    if !from.swallowing {
        return answer_fresh(input, from.used, page);
    }
    match until(input, from.used, b'\n') {
        Some(end) => answer_fresh(input, end + 1, page),
        None => Ok(Place {
            used: input.len(),
            swallowing: true,
        }),
    }
}

// The same where a line begins. What is left of a line is kept unless even a carriage return at its end would leave it too
// long; then it is answered.
fn answer_fresh(input: &[u8], from: usize, page: &mut Page<'_>) -> Result<Place, FullAt>
    requires { from ≤ length input.now }
    ensures { Block input.now (fresh from) (contents page.old) (contents page.new) result }
{
    let used = answer_lines(input, from, page)?;
    if input.len() - used <= KEPT {
        return Ok(Place {
            used,
            swallowing: false,
        });
    }
    let Ok(()) = answer_line(&input[used..], page) else {
        return Err(FullAt { used });
    };
    Ok(Place {
        used: input.len(),
        swallowing: true,
    })
}

// Every line that ends in the block, as far as there is room for the answers.
fn answer_lines(input: &[u8], from: usize, page: &mut Page<'_>) -> Result<usize, FullAt>
    requires { from ≤ length input.now }
    ensures { LinesOf input.now from (contents page.old) (contents page.new) result }
{
    let mut used = from;
    // No split: what is behind the last newline is no line yet, and where a line finds no room its place is handed back.
    while let Some(end) = until(input, used, b'\n') {
        let Ok(()) = answer_line(&input[used..end], page) else {
            return Err(FullAt { used });
        };
        used = end + 1;
    }
    Ok(used)
}
