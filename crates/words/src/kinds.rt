// The kinds of words, by the number in the top four bits.
ghost use Rattle.std.specs.Prelude.{◌≡◌, ◌*◌, ◌^◌};
ghost use Rattle.words.specs.Kinds.{kind_in, kind_number};

use bits::Bits;

// Four bits have sixteen values, so the four kinds that no accepted program has are among them.
#[derive(Clone, Copy, Debug, PartialEq, Eq)]
pub enum Kind {
    End = 0,
    Put,
    Get,
    Trig,
    Freeze,
    If,
    Has,
    Start,
    Let,
    Loop,
    UnusedTen,
    UnusedEleven,
    UnusedTwelve,
    UnusedThirteen,
    Task,
    Head,
}

impl From<Bits<4>> for Kind {
    ghost from_gives = { λ bits kind. kind ≡ kind_in bits.value };

    // No derive leads from a number to a variant.
    fn from(bits: Bits<4>) -> Kind {
        match bits.get() {
            0 => Kind::End,
            1 => Kind::Put,
            2 => Kind::Get,
            3 => Kind::Trig,
            4 => Kind::Freeze,
            5 => Kind::If,
            6 => Kind::Has,
            7 => Kind::Start,
            8 => Kind::Let,
            9 => Kind::Loop,
            10 => Kind::UnusedTen,
            11 => Kind::UnusedEleven,
            12 => Kind::UnusedTwelve,
            13 => Kind::UnusedThirteen,
            14 => Kind::Task,
            _ => Kind::Head,
        }
    }
}

impl Kind {
    // The number of the kind where a word has it.
    pub(crate) fn bits(self) -> u32
        ensures { result ≡ kind_number self * 2 ^ 28 }
    {
        (self as u32) << 28
    }
}
