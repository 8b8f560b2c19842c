// How the words of a line are made, and read.
ghost use Rattle.std.specs.Prelude.{◌≡◌, [], ◌∷◌, length, drop, slice_index};
ghost use Rattle.lines.specs.Lines.{told};
ghost use Rattle.lines.specs.Rows.{words_of};

use crate::LineWords;
use crate::triggers::Triggers;

impl LineWords {
    pub fn single(first: u32) -> LineWords
        ensures { told result ≡ first ∷ [] }
    {
        LineWords {
            first,
            triggers: [0; 8],
            count: 0,
        }
    }

    pub(crate) fn with_triggers(first: u32, triggers: Triggers) -> LineWords
        ensures { told result ≡ first ∷ words_of triggers }
    {
        let count = triggers.count;
        let triggers = triggers.words;
        LineWords {
            first,
            triggers,
            count,
        }
    }

    pub fn first(&self) -> u32
        ensures { result ≡ slice_index (told self.now) 0 }
    {
        self.first
    }

    pub fn len(&self) -> usize
        ensures { result ≡ length (told self.now) }
    {
        self.count + 1
    }

    // The words behind the first.
    pub fn triggers(&self) -> &[u32]
        ensures { result.now ≡ drop 1 (told self.now) }
    {
        &self.triggers[0..self.count]
    }
}
