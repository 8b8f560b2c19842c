// The TRIG words behind a GET.
ghost use Rattle.std.specs.Prelude.{◌≡◌, ◌<◌, ◌≤◌, length};
ghost use Rattle.rulebook.specs.Programs.{counted_by, is_trigger, row_behind, run};
ghost use Rattle.rulebook.specs.Rules.{clashes_with_all, good_row, is_counted, pairs_clash, none_from_register, trigger_value};

use crate::program::Program;
use bits::Bits;
use lattice::Lattice;
use words::{Instruction, Kind, from_register, kind};

// The most words that the four bits of a GET can count.
const MOST_COUNTED: usize = 15;

impl<'a> Program<'a> {
    // The TRIG words right behind a place.
    pub(crate) fn row_behind(&self, place: usize) -> &'a [u32]
        requires { place < length self.now.words.now }
        ensures { result.now ≡ row_behind self.now.words.now place }
    {
        let behind = &self.words[place + 1..];
        &behind[..run(behind)]
    }

    // Whether some GET counts the word at a place among its triggers. None can from more than fifteen words away.
    pub(crate) fn is_within_row(&self, place: usize) -> bool
        ensures { result ≡ is_counted self.now.words.now place }
    {
        (place.saturating_sub(MOST_COUNTED)..place)
            .rev()
            .any(|get| place - get <= counted(self.code_at(get)))
    }
}

fn is_trig(word: u32) -> bool
    ensures { result ≡ is_trigger word }
{
    kind(word) == Kind::Trig
}

// How many TRIG words come first.
fn run(words: &[u32]) -> usize
    ensures is { result ≡ run words.now }
    ensures within { result ≤ length words.now }
{
    words.iter().take_while(|word| is_trig(**word)).count()
}

// How many words behind it a word of code counts as its triggers.
fn counted(code: Option<Instruction>) -> usize
    ensures { result ≡ counted_by code }
{
    match code {
        Some(Instruction::Get(_, count)) => usize::from(count),
        _ => 0,
    }
}

// Whether no trigger of a row takes its code from R.
fn all_written_out(row: &[u32]) -> bool
    ensures { result ≡ none_from_register row.now }
{
    row.iter().all(|trigger| !from_register(*trigger))
}

// Whether the TRIG words behind a GET are those that it counts, 1 to 8, and one from R stands alone.
pub(crate) fn is_good_row(count: usize, row: &[u32]) -> bool
    ensures { result ≡ good_row count row.now }
{
    (1..=8).contains(&count) && row.len() == count && (count == 1 || all_written_out(row))
}

fn value_of<L: Lattice>(trigger: u32) -> L
    ensures { L.means result ≡ trigger_value L.meaning trigger }
{
    L::value(Bits::low(trigger))
}

fn clash_with<L: Lattice + Drop>(value: &L, others: &[u32]) -> bool
    ensures { result ≡ clashes_with_all L.meaning (L.means value.now) others.now }
{
    others
        .iter()
        .all(|other| value.clashes(&value_of::<L>(*other)))
}

// Whether each two triggers of a row clash.
pub(crate) fn clash_in_pairs<L: Lattice + Drop>(row: &[u32]) -> bool
    ensures { result ≡ pairs_clash L.meaning row.now }
{
    row.iter().enumerate().all(|(i, trigger)| clash_with(&value_of::<L>(*trigger), &row[i + 1..]))
}
