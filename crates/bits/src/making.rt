// How a number of N bits is made, and read.
ghost use Rattle.std.specs.Prelude.{◌≡◌, ◌%◌, ◌^◌, nat_lt};
ghost use Rattle.bits.specs.Fits.{fitted, lowest};

use crate::Bits;

impl<const N: u32> Bits<N> {
    // The number, if N bits hold it.
    pub fn new(value: u32) -> Option<Bits<N>>
        ensures { result ≡ fitted N value }
    {
        if held(value, N) {
            Some(Bits { value })
        } else {
            None
        }
    }

    // The lowest N bits of a number.
    pub fn low(value: u32) -> Bits<N>
        ensures { result ≡ lowest N value }
    {
        Self::trimmed(value)
    }

    // `low` says as one value what this says of its number.
    fn trimmed(value: u32) -> Bits<N>
        ensures { result.value ≡ value % 2 ^ N }
    {
        Bits {
            value: masked(value, N),
        }
    }

    pub fn get(self) -> u32
        ensures { result ≡ self.entry.value }
    {
        self.value
    }
}

// Whether a number has no more than so many bits.
#[tactic(auto, using(crate::proofs::Same::held_wide))]
fn held(value: u32, bits: u32) -> bool
    ensures { result ≡ nat_lt value (2 ^ bits) }
{
    bits >= 32 || value < 1 << bits
}

// The lowest bits of a number.
#[tactic(auto, using(crate::proofs::Same::by_mask, crate::proofs::Same::all_wide))]
fn masked(value: u32, bits: u32) -> u32
    ensures { result ≡ value % 2 ^ bits }
{
    if bits >= 32 {
        value
    } else {
        value & ((1 << bits) - 1)
    }
}
