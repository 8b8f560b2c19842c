// Why a text is refused.
ghost use Rattle.std.specs.Prelude.{◌≡◌};
ghost use Rattle.text.specs.Reading.{caused, number};

use lines::LineError;

#[derive(Clone, Copy, Debug, PartialEq, Eq)]
pub enum Cause {
    // The line does not fit the grammar, or the text ends early.
    Grammar = 1,
    // A number does not fit its field's bits.
    Range,
    // The word buffer is too short.
    Room,
}

// A cause, and the line that it was met at, from 1.
#[derive(Clone, Copy, Debug, PartialEq, Eq)]
pub struct Refusal {
    pub cause: Cause,
    pub line: usize,
}

impl Cause {
    // A name of the subject says more than a conversion.
    pub fn number(self) -> u32
        ensures { result ≡ number self }
    {
        self as u32
    }
}

impl From<LineError> for Cause {
    ghost from_gives = { λ error cause. cause ≡ caused error };

    fn from(error: LineError) -> Cause {
        match error {
            LineError::Grammar => Cause::Grammar,
            LineError::Range => Cause::Range,
        }
    }
}
