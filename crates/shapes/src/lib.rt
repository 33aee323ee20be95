// The words of a request's line behind its name, read by the request's shape into a row of numbers.
// A shape is a text, a byte for each word after the name: specs/Kind.antt and Field.antt say what each stands for. It is not a slice of
// kinds, so that a row of the table of requests is the same in the code and in specs/. Words are counted from 1, the name being the first.
#![tactic(auto)]

mod fields;
mod kind;

ghost use Rattle.std.specs.Prelude.{◌≡◌, ◌+◌, ℕ, [], length};
ghost use Rattle.words.specs.Words.{words, further};
ghost use Rattle.shapes.specs.Shape.{MOST, parse, stop, counted, Reads, ReadsWords, ReadsWord};

use arrayvec::ArrayVec;
pub use fields::Fault;
use fields::field;
use kind::Kind;

// A word that is at fault, by its number.
#[derive(Clone, Copy)]
pub struct BadWord {
    pub word: u32,
    pub fault: Fault,
}

// Reads the words that a line has behind its first. Where one is at fault the row has the numbers before it.
pub fn read_shape(
    shape: &[u8],
    rest: Option<&[u8]>,
    numbers: &mut ArrayVec<u32, 160>,
) -> Result<(), BadWord>
    ensures { Reads (parse shape.now MOST 2 (further rest.entry)) numbers.new.items result }
{
    let read = read_all(shape, rest, numbers);
    let word = numbers.len() as u32 + 2;
    read.map_err(|fault| BadWord { word, fault })
}

// The same, without the number of the word that is at fault: it is the one behind those whose numbers are in the row.
fn read_all(
    shape: &[u8],
    rest: Option<&[u8]>,
    numbers: &mut ArrayVec<u32, 160>,
) -> Result<(), Fault>
    ensures { Reads (parse shape.now MOST 2 (further rest.entry)) numbers.new.items (counted (length numbers.new.items) result) }
{
    numbers.clear();
    let Some(line) = rest else {
        return at_end(shape);
    };
    let left = read_words(shape, line, numbers)?;
    at_end(left)
}

// The words of a line, and what is left of the shape behind them.
fn read_words<'a>(
    shape: &'a [u8],
    line: &[u8],
    numbers: &mut ArrayVec<u32, 160>,
) -> Result<&'a [u8], Fault>
    requires { numbers.old.items ≡ [] }
    ensures { ReadsWords shape.now (words line.now) numbers.new.items result }
{
    let mut left = shape;
    for word in line.split(|&byte| byte == b' ') {
        left = read_word(left, word, numbers)?;
    }
    Ok(left)
}

// Reads a word by the first byte of what is left of a shape, and answers what is left for the words behind it.
fn read_word<'a>(
    shape: &'a [u8],
    word: &[u8],
    numbers: &mut ArrayVec<u32, 160>,
) -> Result<&'a [u8], Fault>
    ensures { ReadsWord shape.now word.now numbers.old.items numbers.new.items result }
{
    let Some((&first, behind)) = shape.split_first() else {
        return Err(Fault::OneTooMany);
    };
    if numbers.is_full() {
        return Err(Fault::OneTooMany);
    }
    let kind = Kind::from(first);
    numbers.push(field(kind, word)?);
    match kind {
        Kind::Register => Ok(shape),
        _ => Ok(behind),
    }
}

// Only words of a register may be left of a shape where a line ends.
fn at_end(left: &[u8]) -> Result<(), Fault>
    ensures { (room n : ℕ) → parse left.now room (n + 2) [] ≡ stop (counted n result) }
{
    let Some(&first) = left.first() else {
        return Ok(());
    };
    match Kind::from(first) {
        Kind::Register => Ok(()),
        _ => Err(Fault::Missing),
    }
}
