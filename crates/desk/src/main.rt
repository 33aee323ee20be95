// The desk: requests on standard input, one a line, and an answer to each on standard output, in order. What is answered to a line
// stands in `line`, and to the lines of a block in `block`; here bytes are read and written.
#![tactic(auto)]

mod block;
mod line;

ghost use Rattle.std.specs.Prelude.{◌+◌, ◌≤◌, length, IfSome};

use block::{Place, answer_block};
use line::answer_line;
use std::io::Read;
use text::Page;
use words::keep;

// What is kept from one read to the next: how many bytes of a line stand at the input's front, and whether the rest of a line is
// to be swallowed. They stay in the input, since a read goes on behind them: an `ArrayVec` cannot be read into.
#[derive(Clone, Copy)]
struct Held {
    count: usize,
    swallowing: bool,
    ghost inside: { count ≤ 65_536 },
}

fn main(rt: HostRuntime) {
    // Fixed memory: there is no heap.
    let mut input = [0; 65536];
    let mut output = [0; 65536];
    run(rt, &mut input, &mut output);
}

// A proved loop has to end, and nothing says that the input does: so it counts its turns, up to a number that no run reaches.
// The runtime, both buffers and what is held: each function takes another part of these four, so that a struct would say less.
fn run(rt: HostRuntime, input: &mut [u8; 65536], output: &mut [u8]) {
    let mut held = Held {
        count: 0,
        swallowing: false,
    };
    for _ in 0..u64::MAX {
        let Some(next) = turn(rt, input, output, held) else {
            return;
        };
        held = next;
    }
}

// One read, and the answers to what came; at the end of the input the answer to what is held, and nothing more to do. Nor is there where
// the answers cannot be written.
fn turn(rt: HostRuntime, input: &mut [u8; 65536], output: &mut [u8], held: Held) -> Option<Held> {
    let Some(got) = fill(rt, input, held) else {
        if !held.swallowing {
            finish(rt, &input[..held.count], output);
        }
        return None;
    };
    let filled = held.count + got;
    let place = drain(rt, &input[..filled], held.swallowing, output)?;
    let count = keep(input, place.used, filled);
    Some(Held {
        count,
        swallowing: place.swallowing,
    })
}

// One read, to the place after what is held: how many bytes came, if any did. One that fails counts as the end of the input.
fn fill(rt: HostRuntime, input: &mut [u8; 65536], held: Held) -> Option<usize>
    ensures { IfSome result (λ got. held.count + got ≤ 65_536) }
{
    let mut stdin = rt.stdin();
    let got = stdin.read(&mut input[held.count..]).unwrap_or(0);
    if got == 0 { None } else { Some(got) }
}

// Answers every line that ends in the input, and writes each time that the page has filled up. Nothing if the answers cannot be written.
fn drain(rt: HostRuntime, input: &[u8], swallowing: bool, output: &mut [u8]) -> Option<Place>
    ensures { IfSome result (λ place. place.used ≤ length input.now) }
{
    let mut place = Place {
        used: 0,
        swallowing,
    };
    for _ in 0..u64::MAX {
        let mut page = Page::new(output);
        let answered = answer_block(input, place, &mut page);
        rt.write_all(page.text()).ok()?;
        match answered {
            Ok(end) => {
                return Some(end);
            }
            Err(full) => {
                place = Place {
                    used: full.used,
                    swallowing: false,
                };
            }
        }
    }
    None
}

// The last line, which may lack its newline. Nothing comes behind it, so that it is not asked whether it could be written.
fn finish(rt: HostRuntime, line: &[u8], output: &mut [u8]) {
    let mut page = Page::new(output);
    let _ = answer_line(line, &mut page);
    let _ = rt.write_all(page.text());
}
