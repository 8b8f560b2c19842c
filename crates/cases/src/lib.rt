// The worked cases of the lattices: proved as rows of one table, and put to the code.
#![tactic(auto)]

ghost use Rattle.std.specs.Prelude.{◌≡◌, true, ◌&&◌, ◌==◌};
ghost use Rattle.std.specs.List.{AllByRecursion};
ghost use Rattle.bits.specs.Fits.{lowest};
ghost use Rattle.cases.specs.Worked.{Stands, table};

use bits::{Bits, Code};
use both::Both;
use lattice::Lattice;
use lift::Lift;
use once::Once;
use peak::Peak;
use set::Set;
use versions::Versions;

mod triggers;

pub use triggers::{END, ONCE_HEAD, SET_HEAD, TASK, trigger_cases};

type Two = Both<Versions, Versions>;

type Four = Both<Two, Two>;

// Eight times Versions, side by side: 64 words, and the label 64.
pub type Full = Both<Four, Four>;

// Every row of the table stands: a fact of the meanings, which the lattices' own contracts tie to their code.
// The body puts most rows to the code as well. A body that only said `true` would meet the second clause, so only a run shows that.
#[tactic(auto, using(crate::proofs::Table::table_stands))]
pub fn worked_cases() -> bool
    ensures rows { AllByRecursion Stands table }
    ensures answered { result ≡ true }
{
    set_rows() && peak_rows() && once_rows() && versions_rows() && layer_rows() && wide_rows()
}

#[tactic(auto, unfolding(meanings::specs::Packed::packed))]
fn set_rows() -> bool
    ensures { result ≡ true }
{
    admits::<Set>(255)
        && !admits::<Set>(256)
        && has_word::<Set>(40, 1, 256)
        && has_word::<Set>(40, 8, 0)
        && tells::<Set>(1, 8)
}

fn peak_rows() -> bool
    ensures { result ≡ true }
{
    admits::<Peak>(1_600)
        && !admits::<Peak>(1_601)
        && has_word::<Peak>(399, 0, 399)
        && tells::<Peak>(2, 1)
}

fn once_rows() -> bool
    ensures { result ≡ true }
{
    admits::<Once>(65_535)
        && !admits::<Once>(65_536)
        && !clash::<Once>(7, 7)
        && clash::<Once>(7, 8)
        && has_word::<Once>(7, 0, 1)
        && has_word::<Once>(7, 1, 7)
        && tells::<Once>(3, 2)
}

fn versions_rows() -> bool
    ensures { result ≡ true }
{
    admits::<Versions>(262_143) && has_word::<Versions>(19, 3, 2) && tells::<Versions>(4, 8)
}

fn layer_rows() -> bool
    ensures { result ≡ true }
{
    clash::<Both<Set, Once>>(15, 17)
        && tells::<Both<Set, Once>>(78, 10)
        && tells::<Lift<Peak>>(34, 2)
        && has_word::<Lift<Peak>>(0, 0, 1)
        && has_word::<Lift<Peak>>(1_601, 0, 0)
        && tells::<Lift<Lift<Peak>>>(66, 3)
}

fn wide_rows() -> bool
    ensures { result ≡ true }
{
    tells::<Full>(64, 64)
        && tells::<Lift<Full>>(96, 65)
        && tells::<Lift<Lift<Full>>>(128, 65)
        && tells::<Both<Lift<Full>, Lift<Full>>>(64, 65)
        && has_word::<Full>(191, 63, 2)
        && has_word::<Lift<Full>>(191, 64, 2)
        && has_word::<Lift<Full>>(191, 65, 0)
}

fn code(number: u32) -> Code
    ensures { result ≡ lowest 18 number }
{
    Bits::low(number)
}

fn admits<L: Lattice>(number: u32) -> bool
    ensures { result ≡ L.meaning.admits (lowest 18 number) }
{
    L::admits(code(number))
}

fn clash<L: Lattice + Drop>(first: u32, second: u32) -> bool
    ensures { result ≡ L.meaning.clash (L.meaning.value (lowest 18 first)) (L.meaning.value (lowest 18 second)) }
{
    L::value(code(first)).clashes(&L::value(code(second)))
}

fn has_word<L: Lattice + Drop>(number: u32, i: u8, word: u32) -> bool
    ensures { result ≡ ((L.meaning.word (L.meaning.value (lowest 18 number)) i).value == word) }
{
    L::value(code(number)).word(i) == word
}

fn tells<L: Lattice>(label: u8, width: u8) -> bool
    ensures { result ≡ (L.meaning.label.value == label && L.meaning.width == width) }
{
    L::label() == label && L::width() == width
}
