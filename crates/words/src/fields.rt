// The fields of a word.
ghost use Rattle.std.specs.Prelude.{◌≡◌, ◌<◌};
ghost use Rattle.words.specs.Fields.{clear as clear_of, field as field_of, flag as flag_of, kind as kind_of};
ghost use Rattle.words.specs.Kinds.{kind_number};

use crate::kinds::Kind;
use bits::Bits;

// The N bits of a word from bit `low` up.
pub(crate) fn field<const N: u32>(word: u32, low: u32) -> Bits<N>
    requires { low < 32 }
    ensures { result ≡ field_of low N word }
{
    Bits::low(word >> low)
}

// Whether the bit `at` of a word is set.
pub(crate) fn flag(word: u32, at: u32) -> bool
    requires { at < 32 }
    ensures { result ≡ flag_of at word }
{
    field::<1>(word, at).get() == 1
}

// Whether the N bits of a word from bit `low` up are 0.
pub(crate) fn clear<const N: u32>(word: u32, low: u32) -> bool
    requires { low < 32 }
    ensures { result ≡ clear_of low N word }
{
    field::<N>(word, low).get() == 0
}

// The kind of a word, whatever the rest of it says.
pub fn kind(word: u32) -> Kind
    ensures { kind_number result ≡ kind_of word }
{
    Kind::from(field::<4>(word, 28))
}

// Whether a word that goes by a code takes it from register R, whatever the rest of it says.
pub fn from_register(word: u32) -> bool
    ensures { result ≡ flag_of 26 word }
{
    flag(word, 26)
}
