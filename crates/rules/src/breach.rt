// Whether a program breaks a rule at a place.
ghost use Rattle.std.specs.Prelude.{◌≡◌, ◌<◌, length};
ghost use Rattle.rulebook.specs.Programs.{code_at, head_of};
ghost use Rattle.rulebook.specs.Rules.{ambiguous, bad_head, breaks, fits_lattice, ill_formed, lacks_form, lacks_target, lacks_task, lost_cell, lost_target, unknown_code};

use crate::Rule;
use crate::program::{Program, head};
use crate::triggers::{clash_in_pairs, is_good_row};
use lattice::Lattice;
use rulebook::MOST_WORDS;
use words::{CellOperand, CodeOperand, Instruction};

const MOST_CELLS: u32 = 256;

const MOST_TASKS: u32 = 512;

const MOST_WIDTH: u8 = 64;

impl Program<'_> {
    // What is missing at the end of a program is told at the place behind the last word. A match, so that no rule can lack its test.
    pub(crate) fn breaks<L: Lattice + Drop>(&self, rule: Rule, place: usize) -> bool
        ensures { result ≡ breaks L.meaning rule self.now.words.now place }
    {
        match rule {
            Rule::WordCount => place == 0 && !(1..=MOST_WORDS).contains(&self.words.len()),
            Rule::Head => place == 0 && self.has_bad_head(),
            Rule::Lattice => place == 0 && !self.fits_lattice::<L>(),
            Rule::Tasks => self.lacks_task(place),
            Rule::Form => self.lacks_form(place),
            Rule::Targets => self.lacks_target(place),
            Rule::Codes => self.has_unknown_code::<L>(place),
            Rule::Triggers => self.is_ambiguous::<L>(place),
        }
    }

    fn has_bad_head(&self) -> bool
        ensures { result ≡ bad_head (head_of self.now.words.now) }
    {
        head(self.words).is_none_or(|head| {
            !((1..=MOST_CELLS).contains(&head.cells.get())
                && (1..=MOST_TASKS).contains(&head.tasks.get()))
        })
    }

    // Whether it has the lattice's label, and the lattice's values have few enough words.
    fn fits_lattice<L: Lattice>(&self) -> bool
        ensures { result ≡ fits_lattice L.meaning (head_of self.now.words.now) }
    {
        head(self.words).is_some_and(|head| u8::from(head.label) == L::label())
            && L::width() <= MOST_WIDTH
    }

    // Whether a place has no TASK word where one is due, or there is no word behind them all.
    fn lacks_task(&self, place: usize) -> bool
        ensures { result ≡ lacks_task self.now.words.now place }
    {
        (self.in_tasks(place) && self.entry_at(place).is_none())
            || (place == self.words.len() && self.words.len() < self.counts.tasks + 2)
    }

    // Whether a word of code breaks its form, or the last word is no END.
    fn lacks_form(&self, place: usize) -> bool
        ensures { result ≡ lacks_form self.now.words.now place }
    {
        (self.in_code(place) && self.is_ill_formed(place))
            || (place == self.words.len() && !self.ends())
    }

    fn is_ill_formed(&self, place: usize) -> bool
        ensures { result ≡ ill_formed self.now.words.now place (code_at self.now.words.now place) }
    {
        match self.code_at(place) {
            None => true,
            Some(Instruction::Get(_, count)) => !is_good_row(count.into(), self.row_behind(place)),
            Some(Instruction::Trig(_)) => !self.is_within_row(place),
            Some(_) => false,
        }
    }

    // Whether an entry, or a place, a task or a cell of an instruction, is not there.
    fn lacks_target(&self, place: usize) -> bool
        ensures { result ≡ lacks_target self.now.words.now place }
    {
        matches!(self.entry_at(place), Some(entry) if !self.is_instruction(entry.place.into()))
            || self.has_lost_target(place)
    }

    fn has_lost_target(&self, place: usize) -> bool
        ensures { result ≡ lost_target self.now.words.now (code_at self.now.words.now place) }
    {
        match self.code_at(place) {
            Some(
                Instruction::Put(cell, _)
                | Instruction::Get(cell, _)
                | Instruction::Freeze(cell)
                | Instruction::Has(cell, _),
            ) => self.is_lost_cell(cell),
            Some(Instruction::If(_, target) | Instruction::Loop(_, target)) => {
                !self.is_instruction(target.into())
            }
            Some(Instruction::Start(task)) => self.counts.tasks <= usize::from(task),
            _ => false,
        }
    }

    // A cell that R is added to is looked at when it is met.
    fn is_lost_cell(&self, cell: CellOperand) -> bool
        ensures { result ≡ lost_cell self.now.words.now cell }
    {
        match cell {
            CellOperand::Fixed(cell) => self.counts.cells <= usize::from(cell),
            CellOperand::Moved(_) => false,
        }
    }

    // A code that is taken from R is looked at when it is met.
    fn has_unknown_code<L: Lattice>(&self, place: usize) -> bool
        ensures { result ≡ unknown_code L.meaning (code_at self.now.words.now place) }
    {
        match self.code_at(place) {
            Some(
                Instruction::Put(_, CodeOperand::Fixed(code))
                | Instruction::Has(_, CodeOperand::Fixed(code))
                | Instruction::Trig(CodeOperand::Fixed(code)),
            ) => !L::admits(code),
            _ => false,
        }
    }

    // Whether two triggers of the GET at a place do not clash.
    fn is_ambiguous<L: Lattice + Drop>(&self, place: usize) -> bool
        ensures { result ≡ ambiguous L.meaning self.now.words.now place (code_at self.now.words.now place) }
    {
        match self.code_at(place) {
            Some(Instruction::Get(_, _)) => !clash_in_pairs::<L>(self.row_behind(place)),
            _ => false,
        }
    }
}
