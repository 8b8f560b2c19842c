// Both: a value of one lattice beside a value of another.
#![tactic(auto)]

ghost use Rattle.std.specs.Prelude.{◌≡◌};
ghost use Rattle.meanings.specs.Pairs.{both_meaning, even, half as halved};
ghost use Rattle.meanings.proofs.BothLaws.{both_laws};
ghost use Rattle.both.specs.Means.{paired_by};

use bits::{Bits, Code};
use lattice::{Lattice, add_widths};

#[derive(Drop, Debug, PartialEq, Eq)]
pub struct Both<K, L>(K, L);

// Whether a code goes to the first lattice.
fn is_even(code: Code) -> bool
    ensures { result ≡ even code }
{
    code.get() % 2 == 0
}

// What of a code goes to its lattice.
fn half(code: Code) -> Code
    ensures { result ≡ halved code }
{
    Bits::low(code.get() / 2)
}

impl<K: Lattice + Drop, L: Lattice + Drop> Lattice for Both<K, L> {
    ghost meaning = { both_meaning K.Lattice.meaning L.Lattice.meaning };

    ghost means = { paired_by K.Lattice.means L.Lattice.means };

    ghost laws = { both_laws K.Lattice.meaning L.Lattice.meaning K.Lattice.laws L.Lattice.laws };

    fn bottom() -> Both<K, L> {
        Both(K::bottom(), L::bottom())
    }

    fn admits(code: Code) -> bool {
        if is_even(code) {
            K::admits(half(code))
        } else {
            L::admits(half(code))
        }
    }

    fn value(code: Code) -> Both<K, L> {
        if is_even(code) {
            Both(K::value(half(code)), L::bottom())
        } else {
            Both(K::bottom(), L::value(half(code)))
        }
    }

    fn clashes(&self, other: &Both<K, L>) -> bool {
        self.0.clashes(&other.0) || self.1.clashes(&other.1)
    }

    fn join(&mut self, other: Both<K, L>) {
        if !self.clashes(&other) {
            self.0.join(other.0);
            self.1.join(other.1);
        }
    }

    fn is_below(&self, other: &Both<K, L>) -> bool {
        self.0.is_below(&other.0) && self.1.is_below(&other.1)
    }

    fn label() -> u8 {
        u8::from(Bits::<8>::low(5 * u32::from(K::label()) + 3 * u32::from(L::label()) + 64))
    }

    fn width() -> u8 {
        add_widths(K::width(), L::width())
    }

    fn word(&self, i: u8) -> u32 {
        if i >= Self::width() {
            0
        } else if i < K::width() {
            self.0.word(i)
        } else {
            self.1.word(i - K::width())
        }
    }
}
