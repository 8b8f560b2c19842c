// The worked cases of the rules: programs with one task that waits for one of two codes.
ghost use Rattle.std.specs.Prelude.{◌≡◌, true};
ghost use Rattle.std.specs.List.{AllByRecursion};
ghost use Rattle.rulebook.specs.Judgement.{judged};
ghost use Rattle.cases.specs.Triggers.{Judges, programs};
ghost use Rattle.cases.specs.Answers.{accepted_with, refused_with};

use lattice::Lattice;
use once::Once;
use rulebook::Counts;
use rules::check;
use set::Set;

// One cell and one task, over Set and over Once.
pub const SET_HEAD: u32 = 0xF010_0401;

pub const ONCE_HEAD: u32 = 0xF030_0401;

// The task is started at place 2.
pub const TASK: u32 = 0xE800_8000;

// It waits for code 7 or another one in cell 0.
const GET: u32 = 0x2000_0002;

const SEVEN: u32 = 0x3000_0007;

const EIGHT: u32 = 0x3000_0008;

pub const END: u32 = 0;

// Every program is judged as its row says: a fact of the definitions, which the contract of `check` ties to the code.
// The body puts the rows to the code as well. A body that only said `true` would meet the second clause, so only a run shows that.
#[tactic(auto, using(crate::proofs::Programs::programs_judged), unfolding(rulebook::specs::Programs::head_of, rulebook::specs::Programs::entry_at, rulebook::specs::Programs::code_at, rulebook::specs::Programs::run, rulebook::specs::Rules::some_below, rulebook::specs::Judgement::judged_by, rulebook::specs::Judgement::first_broken, rulebook::specs::Judgement::first_from))]
pub fn trigger_cases() -> bool
    ensures rows { AllByRecursion Judges programs }
    ensures answered { result ≡ true }
{
    accepts::<Once>(&[ONCE_HEAD, TASK, GET, SEVEN, EIGHT, END], 1, 1)
        && refuses::<Set>(&[SET_HEAD, TASK, GET, SEVEN, EIGHT, END], 11, 2)
        && refuses::<Set>(&[SET_HEAD, TASK, GET, SEVEN, SEVEN, END], 11, 2)
        && refuses::<Once>(&[ONCE_HEAD, TASK, GET, SEVEN, SEVEN, END], 11, 2)
}

fn accepts<L: Lattice + Drop>(words: &[u32], cells: usize, tasks: usize) -> bool
    ensures { result ≡ accepted_with cells tasks (judged L.meaning words.now) }
{
    check::<L>(words) == Ok(Counts { cells, tasks })
}

// The table tells refusals by their numbers, so the rows do too.
fn refuses<L: Lattice + Drop>(words: &[u32], number: u32, place: usize) -> bool
    ensures { result ≡ refused_with number place (judged L.meaning words.now) }
{
    check::<L>(words).is_err_and(|refusal| refusal.rule.number() == number
        && refusal.place == place)
}
