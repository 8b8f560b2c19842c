// TASK, a word for each task behind HEAD: whether load starts it, where its code begins, and its argument.
ghost use Rattle.words.specs.Entries.{entry_in, entry_word};
ghost use Rattle.words.specs.Inverses.{entry_of};

use crate::Place;
use crate::fields::{field, flag, kind};
use crate::kinds::Kind;
use crate::word::Word;
use bits::Bits;

#[derive(Clone, Copy, Debug, PartialEq, Eq)]
pub struct Entry {
    pub started: bool,
    pub place: Place,
    pub argument: Bits<14>,
}

impl Word for Entry {
    ghost spelled = { entry_word };

    ghost read = { entry_in };

    ghost inverse = { entry_of };

    fn from_word(word: u32) -> Option<Self> {
        match kind(word) {
            Kind::Task => Some(Self {
                started: flag(word, 27),
                place: field(word, 14),
                argument: field(word, 0),
            }),
            _ => None,
        }
    }

    fn to_word(self) -> u32 {
        Kind::Task.bits()
            + (u32::from(self.started) << 27)
            + (self.place.get() << 14)
            + self.argument.get()
    }
}
