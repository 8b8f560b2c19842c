// HEAD, a program's first word: its lattice's label, and how many cells and tasks it has.
ghost use Rattle.words.specs.Heads.{head_in, head_word};
ghost use Rattle.words.specs.Inverses.{head_of};

use crate::fields::{field, kind};
use crate::kinds::Kind;
use crate::word::Word;
use bits::Bits;

#[derive(Clone, Copy, Debug, PartialEq, Eq)]
pub struct Head {
    pub label: Bits<8>,
    pub cells: Bits<10>,
    pub tasks: Bits<10>,
}

impl Word for Head {
    ghost spelled = { head_word };

    ghost read = { head_in };

    ghost inverse = { head_of };

    fn from_word(word: u32) -> Option<Self> {
        match kind(word) {
            Kind::Head => Some(Self {
                label: field(word, 20),
                cells: field(word, 10),
                tasks: field(word, 0),
            }),
            _ => None,
        }
    }

    fn to_word(self) -> u32 {
        Kind::Head.bits() + (self.label.get() << 20) + (self.cells.get() << 10) + self.tasks.get()
    }
}
