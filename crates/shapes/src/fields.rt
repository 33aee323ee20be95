// One word, read by the kind that a shape asks for.
ghost use Rattle.std.specs.Prelude.{◌≡◌, ◌≤◌, length};
ghost use Rattle.words.specs.Words.{words};
ghost use Rattle.shapes.specs.Field.{number as number_of, register as register_of, name as name_of, field_of};
ghost use Rattle.shapes.specs.Fault.{of_number, of_hex};

use crate::kind::Kind;
use words::{HexError, NumberError, place, read_decimal, read_hex};

// What can be wrong with a word.
#[derive(Clone, Copy)]
pub enum Fault {
    Missing,
    Empty,
    NotANumber,
    TooLarge,
    NotEightDigits,
    OneTooMany,
    NoSuchName,
}

impl From<NumberError> for Fault {
    ghost from_gives = { λ e fault. fault ≡ of_number e };

    fn from(e: NumberError) -> Fault {
        match e {
            NumberError::Empty => Fault::Empty,
            NumberError::NotADigit => Fault::NotANumber,
            NumberError::TooLarge => Fault::TooLarge,
        }
    }
}

impl From<HexError> for Fault {
    ghost from_gives = { λ e fault. fault ≡ of_hex e };

    fn from(e: HexError) -> Fault {
        match e {
            HexError::Empty => Fault::Empty,
            HexError::NotEightDigits => Fault::NotEightDigits,
        }
    }
}

pub fn field(kind: Kind, word: &[u8]) -> Result<u32, Fault>
    ensures { result ≡ field_of kind word.now }
{
    match kind {
        Kind::Register => register(word),
        // A few names as one text, which is read as the words of a line are: specs/Field.antt has the same texts.
        Kind::Speed => name(word, b"normal fast"),
        Kind::Pll => name(word, b"arm ddr io"),
        Kind::Flag => number(word, 1),
        Kind::Byte => number(word, 255),
        Kind::HalfWord => number(word, 65535),
        Kind::Number => number(word, 4294967295),
    }
}

fn number(word: &[u8], most: u32) -> Result<u32, Fault>
    ensures { result ≡ number_of most word.now }
{
    let value = read_decimal(word)?;
    if most < value {
        return Err(Fault::TooLarge);
    }
    Ok(value)
}

fn register(word: &[u8]) -> Result<u32, Fault>
    ensures { result ≡ register_of word.now }
{
    Ok(read_hex(word)?)
}

fn name(word: &[u8], names: &[u8]) -> Result<u32, Fault>
    requires { length (words names.now) ≤ 3 }
    ensures { result ≡ name_of (words names.now) word.now }
{
    if word.is_empty() {
        return Err(Fault::Empty);
    }
    let place = place(word, names).ok_or(Fault::NoSuchName)?;
    Ok(place as u32)
}
