// The row of codes that a GET line ends with.
ghost use Rattle.std.specs.Prelude.{◌≡◌, ℕ, ◌+◌, ◌<◌, ◌≤◌, [], ◌∷◌, ◌++◌, IfSome};
ghost use Rattle.lines.specs.Lines.{told};
ghost use Rattle.lines.specs.Forms.{row, row_words, stored};
ghost use Rattle.lines.specs.Rows.{words_of, words_in, row_told, get_told};

use crate::LineWords;
use crate::triggers::Triggers;
use lexer::fields::{Cursor, Field, Fitting};
use words::{Bits, CellOperand, CodeOperand, Instruction, Word};

impl Triggers {
    fn none() -> Triggers
        ensures { words_of result ≡ [] }
    {
        Triggers {
            words: [0; 8],
            count: 0,
        }
    }

    // One word more.
    fn with(self, word: u32) -> Triggers
        requires { self.count < 8 }
        ensures more { words_of result ≡ words_of self ++ (word ∷ []) }
        ensures count { result.count ≡ self.count + 1 }
    {
        let mut words = self.words;
        words[self.count] = word;
        Triggers {
            words,
            count: self.count + 1,
        }
    }

    // The words of a GET of this cell, with these triggers.
    pub(crate) fn behind(self, cell: CellOperand) -> LineWords
        ensures { told result ≡ get_told (cell, words_of self) }
    {
        // Eight at most, so the count loses nothing.
        let count = Bits::low(self.count as u32);
        LineWords::with_triggers(Instruction::Get(cell, count).encode(), self)
    }
}

// Codes in a row, one to eight.
pub(crate) fn row(cursor: &mut Cursor<'_>) -> Option<Fitting<Triggers>>
    ensures is { row_told result cursor.new.at ≡ row_words (row cursor.old.line.now cursor.old.at) }
    ensures line { cursor.new.line.now ≡ cursor.old.line.now }
{
    let mut words = stored(Some(Triggers::none()), CodeOperand::read(cursor)?);
    // Seven more at most.
    for _turn in 1..8_usize {
        if !cursor.is_at(b' ') {
            break;
        }
        words = stored(words, CodeOperand::read(cursor)?);
    }
    Some(words)
}

// One trigger more, if its code fits.
fn stored(words: Fitting<Triggers>, code: Fitting<CodeOperand>) -> Fitting<Triggers>
    requires { IfSome words (λ ws. ws.count < 8) }
    ensures is { words_in result ≡ stored (words_in words) code }
    ensures few { (n : ℕ) → IfSome words (λ ws. ws.count ≤ n) → IfSome result (λ ws. ws.count ≤ n + 1) }
{
    let words = words?;
    Some(words.with(Instruction::Trig(code?).encode()))
}
