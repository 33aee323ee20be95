// The number that a word stands for.
ghost use Rattle.std.specs.Prelude.{◌≡◌, ◌+◌, ◌*◌, ◌≤◌, ◌<◌, Option, MatchOption};
ghost use Rattle.words.specs.Reading.{fitting, number_of, decimal_of, hex_of};

#[derive(Clone, Copy)]
pub enum NumberError {
    Empty,
    NotADigit,
    TooLarge,
}

#[derive(Clone, Copy)]
pub enum HexError {
    Empty,
    NotEightDigits,
}

// One or more decimal digits, with or without zeros in front: the value has to fit, not the word.
pub fn read_decimal(word: &[u8]) -> Result<u32, NumberError>
    ensures { result ≡ decimal_of word.now }
{
    number(word, 10)
}

// Eight hex digits, in either case.
pub fn read_hex(word: &[u8]) -> Result<u32, HexError>
    ensures { result ≡ hex_of word.now }
{
    match word.len() {
        0 => Err(HexError::Empty),
        8 => number(word, 16).map_err(|_| HexError::NotEightDigits),
        _ => Err(HexError::NotEightDigits),
    }
}

fn number(word: &[u8], radix: u32) -> Result<u32, NumberError>
    requires { (2 ≤ radix) × (radix ≤ 16) }
    ensures { result ≡ number_of radix word.now }
{
    if word.is_empty() {
        return Err(NumberError::Empty);
    }
    let mut value = Some(0);
    for &byte in word {
        let digit = char::from(byte)
            .to_digit(radix)
            .ok_or(NumberError::NotADigit)?;
        value = appended(value, digit, radix);
    }
    value.ok_or(NumberError::TooLarge)
}

// The value with one digit more, where it still fits.
fn appended(value: Option<u32>, digit: u32, radix: u32) -> Option<u32>
    ensures { MatchOption value (result ≡ None) (λ v. result ≡ fitting (v * radix + digit)) }
{
    value?.checked_mul(radix)?.checked_add(digit)
}
