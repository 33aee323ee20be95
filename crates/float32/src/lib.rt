// Between whole numbers and f32, and the absolute value: what `as`, `libm::roundf` and `abs` do in the Rust.
#![tactic(auto)]

mod pattern;

ghost use Rattle.std.specs.Prelude.{◌≡◌};
ghost use Rattle.float32.specs.Whole.{of_whole, to_whole, abs};

pub use pattern::bits;

// The f32 nearest to n, ties to even.
pub fn of_whole(n: u32) -> f32
    ensures { result ≡ of_whole n }
{
    std::num::nearest_u32_to_f32(n)
}

// The whole number nearest to x, halves away from zero, up to 65,536. `f32::round` and a cast that saturates take four times the
// instructions, more than the Rust's search takes for a whole turn.
// From 0.5 on x is its 24 digits times 2 ^ (exponent - 150). Cut to whole halves, they are odd exactly where x is a half
// or more past a whole number.
// That 65,536 stands for all above is the definition in specs/Whole.antt; callers skip it.
pub fn to_whole(x: f32) -> u32
    ensures { result ≡ to_whole x }
{
    if x >= 0.5 {
        if x < 65535.5 {
            let bits = f32::to_bits(x);
            let exponent = bits >> 23;
            let digits = bits % 0x80_0000 + 0x80_0000;
            let halves = digits >> (149 - exponent);
            return (halves + 1) / 2;
        }
        return 65536;
    }
    0
}

// |x|. The sign is the highest bit. A pattern is defined only of a number: the test for that stands here and is not left to `f32::abs`, since
// the edit abs_of_nan turns it.
pub fn abs(x: f32) -> f32
    ensures { result ≡ abs x }
{
    if x.is_nan() {
        x
    } else {
        f32::from_bits(f32::to_bits(x) % 0x8000_0000)
    }
}
