// Moving a part of a buffer to its front, where the next read goes on behind it.
ghost use Rattle.words.specs.Words.{Moved};

// The bytes from `from` up to `to`, as far as there are any; it answers how many these are.
pub fn keep(input: &mut [u8], from: usize, to: usize) -> usize
    ensures { Moved input.old from to input.new result }
{
    let end = to.min(input.len());
    if end <= from {
        return 0;
    }
    input.copy_within(from..end, 0);
    end - from
}
