// The words of a line, and the numbers that they stand for; and a part of a buffer that is kept for the next read.
#![tactic(auto)]

mod front;
mod read;
mod split;

pub use front::keep;
pub use read::{HexError, NumberError, read_decimal, read_hex};
pub use split::{first_word, place, until};
