// Once: a number below 65,536, written once.
#![tactic(auto)]

ghost use Rattle.meanings.specs.Onces.{once_meaning};
ghost use Rattle.meanings.proofs.OnceLaws.{once_laws};
ghost use Rattle.once.specs.Means.{written_on};

use bits::{Bits, Code};
use lattice::Lattice;

#[derive(Clone, Copy, Debug, PartialEq, Eq)]
pub struct Once {
    number: Option<Bits<16>>,
}

impl Lattice for Once {
    ghost meaning = { once_meaning };

    ghost means = { written_on };

    ghost laws = { once_laws };

    fn bottom() -> Once {
        Once { number: None }
    }

    fn admits(code: Code) -> bool {
        code.get() < 65_536
    }

    fn value(code: Code) -> Once {
        Once {
            number: Bits::new(code.get()),
        }
    }

    fn clashes(&self, other: &Once) -> bool {
        match (self.number, other.number) {
            (Some(first), Some(second)) => first != second,
            _ => false,
        }
    }

    fn join(&mut self, other: Once) {
        self.number = self.number.or(other.number);
    }

    fn is_below(&self, other: &Once) -> bool {
        self.number.is_none() || self.number == other.number
    }

    fn label() -> u8 {
        3
    }

    fn width() -> u8 {
        2
    }

    fn word(&self, i: u8) -> u32 {
        match (self.number, i) {
            (Some(_), 0) => 1,
            (Some(number), 1) => number.get(),
            _ => 0,
        }
    }
}
