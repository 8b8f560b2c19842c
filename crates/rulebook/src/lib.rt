// The rules that a program is held to before it may run: their numbers, and why a program is refused.
#![tactic(auto)]

ghost use Rattle.std.specs.Prelude.{◌≡◌};
ghost use Rattle.rulebook.specs.Refusals.{number as number_of};

// The most words that a program has.
pub const MOST_WORDS: usize = 8_192;

// A rule that a program can break. Each has the number behind that of the one above it.
#[derive(Clone, Copy, Debug, PartialEq, Eq, Hash)]
pub enum Rule {
    // A program has 1 to 8,192 words.
    WordCount = 4,
    // Word 0 is a HEAD with 1 to 256 cells and 1 to 512 tasks.
    Head,
    // The label is the lattice's, and its values have at most 64 words.
    Lattice,
    // A TASK word for each task, and at least one word behind them.
    Tasks,
    // Each word of code has its form, and the last one is END.
    Form,
    // The places, tasks and cells that a program names are there.
    Targets,
    // The codes that a program writes out are admitted.
    Codes,
    // The triggers of a GET clash in pairs.
    Triggers,
}

// The first rule that a program breaks, and the first place where it does.
#[derive(Clone, Copy, Debug, PartialEq, Eq, Hash)]
pub struct Refusal {
    pub rule: Rule,
    pub place: usize,
}

// How many cells and tasks a program has.
#[derive(Clone, Copy, Debug, PartialEq, Eq, Hash)]
pub struct Counts {
    pub cells: usize,
    pub tasks: usize,
}

impl Rule {
    // A name of the subject says more than a conversion.
    pub fn number(self) -> u32
        ensures { result ≡ number_of self }
    {
        self as u32
    }
}
