// What a byte of a form stands for.
ghost use Rattle.std.specs.Prelude.{◌≡◌};
ghost use Rattle.forms.specs.Form.{kind_of, width as width_of};

#[derive(Clone, Copy)]
pub enum Kind {
    Number,
    Hex,
    Option,
    Clock,
    Space,
    Itself,
}

impl From<u8> for Kind {
    ghost from_gives = { λ byte kind. kind ≡ kind_of byte };

    fn from(byte: u8) -> Kind {
        match byte {
            b'#' => Kind::Number,
            b'$' => Kind::Hex,
            b'?' => Kind::Option,
            b'~' => Kind::Clock,
            b'_' => Kind::Space,
            _ => Kind::Itself,
        }
    }
}

impl Kind {
    // How many bytes it prints at most.
    pub fn width(self) -> usize
        ensures { result ≡ width_of self }
    {
        match self {
            Kind::Number | Kind::Option | Kind::Clock => 10,
            Kind::Hex => 8,
            Kind::Space | Kind::Itself => 1,
        }
    }
}
