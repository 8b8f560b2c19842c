// Set: a set of the numbers below 256, held as eight words.
#![tactic(auto)]

ghost use Rattle.std.specs.Prelude.{◌≡◌, ◌/◌, ◌%◌, ◌^◌, ◌==◌, bit_or, slice_index};
ghost use Rattle.meanings.specs.Sets.{set_meaning};
ghost use Rattle.meanings.proofs.SetLaws.{set_laws};
ghost use Rattle.set.specs.Means.{members};

use bits::Code;
use lattice::Lattice;
use std::array;

const WORDS: usize = 8;

// Number e is bit e mod 32 of word e / 32.
#[derive(Clone, Copy, Debug, PartialEq, Eq)]
pub struct Set {
    words: [u32; WORDS],
}

// The word in which a number stands.
fn word_of(number: u32) -> usize
    ensures { result ≡ number / 32 }
{
    (number / 32) as usize
}

// The bit of a number in its word.
fn bit_of(number: u32) -> u32
    ensures { result ≡ 2 ^ (number % 32) }
{
    1 << (number % 32)
}

fn union(first: u32, second: u32) -> u32
    ensures { result ≡ bit_or first second }
{
    first | second
}

fn is_within(first: u32, second: u32) -> bool
    ensures { result ≡ (bit_or first second == second) }
{
    union(first, second) == second
}

impl Set {
    // A word, and 0 past the last.
    fn word_at(&self, i: usize) -> u32
        ensures { result ≡ slice_index self.now.words i }
    {
        self.words.get(i).copied().unwrap_or(0)
    }
}

impl Lattice for Set {
    ghost meaning = { set_meaning };

    ghost means = { members };

    ghost laws = { set_laws };

    fn bottom() -> Set {
        Set { words: [0; WORDS] }
    }

    fn admits(code: Code) -> bool {
        code.get() < 256
    }

    fn value(code: Code) -> Set {
        let mut words = [0; WORDS];
        if Self::admits(code) {
            words[word_of(code.get())] = bit_of(code.get());
        }
        Set { words }
    }

    fn clashes(&self, _other: &Set) -> bool {
        false
    }

    // Versions does the same with its counts; the line there says why each has its own.
    fn join(&mut self, other: Set) {
        self.words = array::from_fn(|i| union(self.word_at(i), other.word_at(i)));
    }

    fn is_below(&self, other: &Set) -> bool {
        (0..WORDS).all(|i| is_within(self.word_at(i), other.word_at(i)))
    }

    fn label() -> u8 {
        1
    }

    fn width() -> u8 {
        8
    }

    #[tactic(auto, using(crate::proofs::Members::word_held))]
    fn word(&self, i: u8) -> u32 {
        self.word_at(usize::from(i))
    }
}
