// A lent row: refusing one that is too short, and putting an answer's words at its front.
#![tactic(auto)]

ghost use Rattle.std.specs.Prelude.{◌≡◌, [], ◌∷◌, ◌++◌, ◌≤◌, ◌%◌, ◌^◌, length, drop, Ok, Err};
ghost use Rattle.bounds.specs.Within.{Within};
ghost use Rattle.refusals.specs.declared.Refusal.TheVariants.{NoRoom};
ghost use Rattle.handing.specs.Handed.{returned, Handed, Answers};

use refusals::Refusal;

// What a program in C gets of a call: 0, or the refusal's number below and what it carries above.
pub fn code(told: Result<(), Refusal>) -> u64
    ensures { result ≡ returned told }
{
    match told {
        Ok(()) => 0,
        Err(refusal) => {
            let carried = refusal.carried().unwrap_or(0);
            refusal.number() as u64 + carried as u64 * 0x1_0000_0000
        }
    }
}

// A row that has not so many places is refused, and with it whatever else there may be to refuse.
pub fn room(lent: usize, places: u32) -> Result<(), Refusal>
    ensures { Within places lent (result ≡ Ok tt) (result ≡ Err (NoRoom places)) }
{
    if lent < places as usize {
        return Err(Refusal::NoRoom(places));
    }
    Ok(())
}

// The words at the row's front. A row too short for them is refused, and is as it was; what the refusal carries has 32 bits.
pub fn put<T: Copy>(out: &mut [T], words: &[T]) -> Result<(), Refusal>
    ensures { Within (length words.now) (length out.old) ((result ≡ Ok tt) × (out.new ≡ words.now ++ drop (length words.now) out.old)) ((result ≡ Err (NoRoom (length words.now % 2 ^ 32))) × (out.new ≡ out.old)) }
{
    let n = words.len();
    if out.len() < n {
        return Err(Refusal::NoRoom((n % 0x1_0000_0000) as u32));
    }
    // Word by word: two words copied as one block would be written in halves and read back whole, for which the processor waits.
    for (i, &word) in words.iter().enumerate() {
        out[i] = word;
    }
    Ok(())
}

// An answer of one number.
pub fn put_number(value: u32, out: &mut [u32]) -> Result<(), Refusal>
    ensures { Handed 1 (Answers value) out.old (returned result) out.new }
{
    put(out, &[value])
}
