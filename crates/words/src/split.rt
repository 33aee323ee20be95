// The words of a line, one after the other.
ghost use Rattle.std.specs.Prelude.{◌≡◌, ◌∷◌};
ghost use Rattle.words.specs.Words.{words, further, First, place_of};

use memchr::memchr;

// How far a byte is looked for one by one.
const NEAR: usize = 16;

// The first place of a byte from `from` on. A near one is found soonest byte by byte, the first by itself, since of a blank line there is no
// other; and a far one by the kit's search, which looks at many bytes at once.
pub fn until(line: &[u8], from: usize, byte: u8) -> Option<usize>
    ensures { First line.now from byte result }
{
    if from < line.len() && line[from] == byte {
        return Some(from);
    }
    let near = line.len().min(from.saturating_add(NEAR));
    for at in from..near {
        if line[at] == byte {
            return Some(at);
        }
    }
    far(line, near, byte)
}

// By itself, so that a near byte costs no more for it.
#[inline(never)]
fn far(line: &[u8], from: usize, byte: u8) -> Option<usize>
    ensures { First line.now from byte result }
{
    let place = memchr(byte, line.get(from..)?)?;
    Some(from + place)
}

// The first word, and what stands behind the space that ends it, if one does.
pub fn first_word(line: &[u8]) -> (&[u8], Option<&[u8]>)
    ensures { words line.now ≡ result.0.now ∷ further result.1 }
{
    match until(line, 0, b' ') {
        Some(end) => (&line[..end], Some(&line[end + 1..])),
        None => (line, None),
    }
}

// Which of the names, given as the words of one line, the word is: its place, counted from 0.
pub fn place(word: &[u8], names: &[u8]) -> Option<usize>
    ensures { result ≡ place_of word.now (words names.now) }
{
    names
        .split(|&byte| byte == b' ')
        .position(|name| name == word)
}
