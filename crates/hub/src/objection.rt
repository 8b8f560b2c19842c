// Why a session lists no words.
ghost use Rattle.std.specs.Prelude.{◌≡◌, Some};
ghost use Rattle.hub.specs.declared.objection.Objection.TheVariants.{Text};
ghost use Rattle.hub.specs.Objections.{objected, refusal_text};

use rulebook::Rule;
use std::fmt;
use text::{Cause, Refusal};

#[derive(Clone, Copy, Debug, PartialEq, Eq)]
pub(crate) enum Objection {
    // There are more bytes than a session reads.
    Size,
    // The text is refused.
    Text(Refusal),
    // No lattice that is served has the program's label.
    Label,
}

impl Objection {
    // The number that is printed, and the line, or 0 where it is no line's.
    fn number_and_line(self) -> (u32, usize)
        ensures { result ≡ objected self }
    {
        match self {
            Objection::Size => (Cause::Grammar.number(), 0),
            Objection::Text(refusal) => (refusal.cause.number(), refusal.line),
            Objection::Label => (Rule::Lattice.number(), 0),
        }
    }
}

impl From<Refusal> for Objection {
    ghost from_gives = { λ refusal objection. objection ≡ Text refusal };

    fn from(refusal: Refusal) -> Objection {
        Objection::Text(refusal)
    }
}

impl fmt::Display for Objection {
    ghost output = { λ objection. Some (refusal_text (objected objection)) };

    fn fmt<W: fmt::Write>(&self, f: &mut fmt::Formatter<W>) -> fmt::Result {
        let (number, line) = self.number_and_line();
        write!(f, "refused {number} at {line}")
    }
}
