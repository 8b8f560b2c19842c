// The check of a program, before it may run: no rule is broken, or which one is, and where.
#![tactic(auto)]

ghost use Rattle.std.specs.Prelude.{◌≡◌, OnOk};
ghost use Rattle.rulebook.specs.Sound.{Sound};
ghost use Rattle.rulebook.specs.Judgement.{first_broken, judged, judged_by, Judgement};

use crate::program::Program;
use lattice::Lattice;

mod breach;
mod program;
mod triggers;

pub use rulebook::{Counts, Refusal, Rule};

// The rules in their order: each covers the whole program before the next.
const TABLE: [Rule; 8] = [
    Rule::WordCount,
    Rule::Head,
    Rule::Lattice,
    Rule::Tasks,
    Rule::Form,
    Rule::Targets,
    Rule::Codes,
    Rule::Triggers,
];

// How many cells and tasks a program has, or the first rule that it breaks and the first place where it does.
#[tactic(auto, using(rulebook::proofs::Judges::judgement, rulebook::proofs::Facts::sound_made))]
pub fn check<L: Lattice + Drop>(words: &[u32]) -> Result<Counts, Refusal>
    ensures is { result ≡ judged L.meaning words.now }
    ensures law { Judgement L.meaning words.now result }
    ensures sound { OnOk result (Sound L.meaning words.now) }
{
    Program::new(words).judge_by::<L>(&TABLE)
}

impl Program<'_> {
    // What some rules, in turn, make of it.
    #[tactic(auto, using(rulebook::proofs::Judges::rules_left, rulebook::proofs::Judges::rules_end))]
    fn judge_by<L: Lattice + Drop>(&self, rules: &[Rule]) -> Result<Counts, Refusal>
        ensures { result ≡ judged_by L.meaning self.now.words.now rules.now }
    {
        for rule in rules {
            if let Some(place) = self.first_broken::<L>(*rule) {
                return Err(Refusal { rule: *rule, place });
            }
        }
        Ok(self.counts)
    }

    // The first place where it breaks a rule. What is missing at its end is told at the place behind the last word.
    fn first_broken<L: Lattice + Drop>(&self, rule: Rule) -> Option<usize>
        ensures { result ≡ first_broken L.meaning self.now.words.now rule }
    {
        (0..=self.words.len()).find(|place| self.breaks::<L>(rule, *place))
    }
}
