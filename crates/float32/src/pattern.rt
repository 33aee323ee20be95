// The bits of an f32, for those who print it or hand it on as a number.
ghost use Rattle.std.specs.Prelude.{◌≡◌};
ghost use Rattle.float32.specs.Whole.{bits_of};

// The 32 bits of a float. What is no number has many patterns: the one with sign 0 and the quiet bit alone stands for all.
pub fn bits(x: f32) -> u32
    ensures { result ≡ bits_of x }
{
    if x.is_nan() {
        0x7fc0_0000
    } else {
        f32::to_bits(x)
    }
}
