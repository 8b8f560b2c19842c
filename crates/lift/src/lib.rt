// Lift: the values of a lattice, and "nothing yet" below them all.
#![tactic(auto)]

ghost use Rattle.meanings.specs.Lifts.{lift_meaning};
ghost use Rattle.meanings.proofs.LiftLaws.{lift_laws};
ghost use Rattle.lift.specs.Means.{lifted_by};

use bits::Code;
use lattice::{Lattice, add_widths};

#[derive(Drop, Debug, PartialEq, Eq)]
pub struct Lift<L> {
    // None stands for "nothing yet".
    pub told: Option<L>,
}

impl<L: Lattice + Drop> Lattice for Lift<L> {
    ghost meaning = { lift_meaning L.Lattice.meaning };

    ghost means = { lifted_by L.Lattice.means };

    ghost laws = { lift_laws L.Lattice.meaning L.Lattice.laws };

    fn bottom() -> Lift<L> {
        Lift { told: None }
    }

    fn admits(code: Code) -> bool {
        L::admits(code)
    }

    fn value(code: Code) -> Lift<L> {
        Lift {
            told: L::admits(code).then(|| L::value(code)),
        }
    }

    fn clashes(&self, other: &Lift<L>) -> bool {
        match (&self.told, &other.told) {
            (Some(a), Some(b)) => a.clashes(b),
            _ => false,
        }
    }

    fn join(&mut self, other: Lift<L>) {
        match (&mut self.told, other.told) {
            (Some(content), Some(value)) => content.join(value),
            (None, told) => self.told = told,
            (Some(_), None) => {}
        }
    }

    fn is_below(&self, other: &Lift<L>) -> bool {
        match (&self.told, &other.told) {
            (None, _) => true,
            (Some(_), None) => false,
            (Some(a), Some(b)) => a.is_below(b),
        }
    }

    fn label() -> u8 {
        L::label().wrapping_add(32)
    }

    fn width() -> u8 {
        add_widths(1, L::width())
    }

    fn word(&self, i: u8) -> u32 {
        if i >= Self::width() {
            return 0;
        }
        match (&self.told, i.checked_sub(1)) {
            (told, None) => u32::from(told.is_some()),
            (Some(content), Some(i)) => content.word(i),
            (None, Some(i)) => L::bottom().word(i),
        }
    }
}
