// Reading a field of a 32-bit word and setting one, over any position and width: document 01, "The image and its fields".
// The crates that know a register name its fields; no field is read by a formula of its own.
#![tactic(auto)]

ghost use Rattle.std.specs.Prelude.{◌≡◌};
ghost use Rattle.fields.specs.Word.{read_field, set_field, inside};

// The `width` bits of a word from bit `lo` upwards. What runs past bit 31 is no part of the word: it reads as zeros, and setting it
// changes nothing.
#[derive(Clone, Copy)]
pub struct Field {
    pub lo: u32,
    pub width: u32,
}

// The field's bits as a number: word / 2^lo % 2^width.
#[tactic(auto, using(crate::proofs::Shifts::past, crate::proofs::Shifts::whole), unfolding(crate::specs::Word::read_field))]
pub fn read_field(word: u32, f: Field) -> u32
    ensures { result ≡ read_field word f }
{
    let lo = f.lo;
    let width = f.width;
    if lo >= 32 {
        return 0;
    }
    if width >= 32 {
        return word >> lo;
    }
    (word >> lo) % (1u32 << width)
}

// The word with the low bits of the value in the field's place, and every other bit as it was. A value too wide for the field never
// reaches the other bits.
#[tactic(auto, using(crate::proofs::Shifts::set_past, crate::proofs::Shifts::takes, crate::proofs::Shifts::gives, crate::proofs::Shifts::fits))]
pub fn set_field(word: u32, f: Field, value: u32) -> u32
    ensures { result ≡ set_field word (inside f) value }
{
    let lo = f.lo;
    if lo >= 32 {
        return word;
    }
    let was = read_field(word, f) << lo;
    let new = read_field(value << lo, f) << lo;
    word - was + new
}
