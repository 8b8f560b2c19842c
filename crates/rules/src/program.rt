// What stands where in a program.
ghost use Rattle.std.specs.Prelude.{◌≡◌, ◌-◌, ◌<◌, length, OnSome};
ghost use Rattle.rulebook.specs.Programs.{code_at, counts_of, entry_at, head_of, in_code, in_tasks, is_instruction};
ghost use Rattle.rulebook.specs.Rules.{is_end};

use crate::Counts;
use words::{Entry, Head, Instruction, Word};

// A program's words, with its counts read once.
#[derive(Clone, Copy, Debug, PartialEq, Eq)]
pub(crate) struct Program<'a> {
    pub(crate) words: &'a [u32],
    // None of either where it has no HEAD, so that no rule needs a case for that.
    pub(crate) counts: Counts,
    ghost counted: { counts ≡ counts_of words.now },
    ghost few: { counts.tasks < 1024 },
}

impl<'a> Program<'a> {
    pub(crate) fn new(words: &'a [u32]) -> Program<'a>
        ensures { result.words.now ≡ words.now }
    {
        let counts = match head(words) {
            Some(head) => Counts {
                cells: usize::from(head.cells),
                tasks: usize::from(head.tasks),
            },
            None => Counts { cells: 0, tasks: 0 },
        };
        Program { words, counts }
    }
}

impl Program<'_> {
    // Whether a place is that of a TASK word.
    pub(crate) fn in_tasks(&self, place: usize) -> bool
        ensures { result ≡ in_tasks self.now.words.now place }
    {
        (1..=self.counts.tasks).contains(&place) && place < self.words.len()
    }

    // Whether a place is one of the code, behind the TASK words.
    pub(crate) fn in_code(&self, place: usize) -> bool
        ensures { result ≡ in_code self.now.words.now place }
    {
        self.counts.tasks < place && place < self.words.len()
    }

    // What a TASK word says. A function for this and `code_at` would take the test and the type, and be no shorter.
    #[tactic(auto, unfolding(rulebook::specs::Programs::entry_at))]
    pub(crate) fn entry_at(&self, place: usize) -> Option<Entry>
        ensures { result ≡ entry_at self.now.words.now place }
    {
        if self.in_tasks(place) {
            Entry::decode(self.words[place])
        } else {
            None
        }
    }

    // What a word of code says; none outside the code, and for a word that breaks its own form.
    #[tactic(auto, unfolding(rulebook::specs::Programs::code_at))]
    pub(crate) fn code_at(&self, place: usize) -> Option<Instruction>
        ensures is { result ≡ code_at self.now.words.now place }
        ensures within { OnSome result (place < length self.now.words.now) }
    {
        if self.in_code(place) {
            Instruction::decode(self.words[place])
        } else {
            None
        }
    }

    // Whether an instruction stands at a place: a word of code that is no TRIG.
    pub(crate) fn is_instruction(&self, place: usize) -> bool
        ensures { result ≡ is_instruction self.now.words.now place }
    {
        !matches!(self.code_at(place), None | Some(Instruction::Trig(_)))
    }

    // Whether a program's last word is END.
    pub(crate) fn ends(&self) -> bool
        ensures { result ≡ is_end (code_at self.now.words.now (length self.now.words.now - 1)) }
    {
        let last = self.words.len().saturating_sub(1);
        matches!(self.code_at(last), Some(Instruction::End))
    }
}

// What the first word says, if it is a HEAD.
#[tactic(auto, unfolding(rulebook::specs::Programs::head_of))]
pub(crate) fn head(words: &[u32]) -> Option<Head>
    ensures { result ≡ head_of words.now }
{
    Head::decode(*words.first()?)
}
