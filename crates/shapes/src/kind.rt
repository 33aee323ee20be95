// What a byte of a shape asks for.
ghost use Rattle.std.specs.Prelude.{◌≡◌};
ghost use Rattle.shapes.specs.Kind.{kind_of};

#[derive(Clone, Copy)]
pub enum Kind {
    Register,
    Speed,
    Pll,
    Flag,
    Byte,
    HalfWord,
    Number,
}

impl From<u8> for Kind {
    ghost from_gives = { λ byte kind. kind ≡ kind_of byte };

    fn from(byte: u8) -> Kind {
        match byte {
            b'w' => Kind::Register,
            b's' => Kind::Speed,
            b'p' => Kind::Pll,
            b'f' => Kind::Flag,
            b'b' => Kind::Byte,
            b'h' => Kind::HalfWord,
            _ => Kind::Number,
        }
    }
}
