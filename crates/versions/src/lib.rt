// Versions: a count from 0 to 32,767 for each of eight slots.
#![tactic(auto)]

ghost use Rattle.std.specs.Prelude.{◌≡◌, ◌/◌, ◌%◌, nat_le, slice_index_or};
ghost use Rattle.bits.specs.Fits.{lowest};
ghost use Rattle.meanings.specs.Versions.{larger as largest, versions_meaning};
ghost use Rattle.meanings.proofs.VersionsLaws.{versions_laws};
ghost use Rattle.versions.specs.Means.{counted_by};

use bits::{Bits, Code};
use lattice::Lattice;
use std::array;

const SLOTS: usize = 8;

#[derive(Clone, Copy, Debug, PartialEq, Eq)]
pub struct Versions {
    counts: [Bits<15>; SLOTS],
}

fn slot_of(code: Code) -> usize
    ensures { result ≡ code.value % 8 }
{
    (code.get() % 8) as usize
}

fn count_of(code: Code) -> Bits<15>
    ensures { result ≡ lowest 15 (code.value / 8) }
{
    Bits::low(code.get() / 8)
}

// Named for its contract, which is in the meaning's words.
fn larger(first: Bits<15>, second: Bits<15>) -> Bits<15>
    ensures { result ≡ largest first second }
{
    first.max(second)
}

fn is_behind(first: Bits<15>, second: Bits<15>) -> bool
    ensures { result ≡ nat_le first.value second.value }
{
    first <= second
}

impl Versions {
    // The count of a slot, and 0 past the last.
    fn count(&self, slot: usize) -> Bits<15>
        ensures { result ≡ slice_index_or self.now.counts slot (lowest 15 0) }
    {
        self.counts.get(slot).copied().unwrap_or(Bits::low(0))
    }
}

impl Lattice for Versions {
    ghost meaning = { versions_meaning };

    ghost means = { counted_by };

    ghost laws = { versions_laws };

    fn bottom() -> Versions {
        Versions {
            counts: [Bits::low(0); SLOTS],
        }
    }

    fn admits(_code: Code) -> bool {
        true
    }

    fn value(code: Code) -> Versions {
        let mut counts = [Bits::low(0); SLOTS];
        counts[slot_of(code)] = count_of(code);
        Versions { counts }
    }

    fn clashes(&self, _other: &Versions) -> bool {
        false
    }

    // Set joins, compares and reads its words in such lines too: a function for both would take the closure, and be no shorter.
    fn join(&mut self, other: Versions) {
        self.counts = array::from_fn(|slot| larger(self.count(slot), other.count(slot)));
    }

    fn is_below(&self, other: &Versions) -> bool {
        (0..SLOTS).all(|slot| is_behind(self.count(slot), other.count(slot)))
    }

    fn label() -> u8 {
        4
    }

    fn width() -> u8 {
        8
    }

    fn word(&self, i: u8) -> u32 {
        self.count(usize::from(i)).get()
    }
}
