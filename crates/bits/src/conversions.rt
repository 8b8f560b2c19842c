// A number of N bits as a plain one.
ghost use Rattle.std.specs.Prelude.{◌≡◌};

use crate::Bits;

impl<const N: u32> From<Bits<N>> for usize {
    ghost from_gives = { λ bits number. number ≡ bits.value };

    fn from(bits: Bits<N>) -> usize {
        bits.get() as usize
    }
}

impl From<Bits<8>> for u8 {
    ghost from_gives = { λ bits number. number ≡ bits.value };

    fn from(bits: Bits<8>) -> u8 {
        bits.get() as u8
    }
}
