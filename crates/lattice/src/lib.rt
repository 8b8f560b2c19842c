// A lattice: what every part of the machine knows of its values.
#![tactic(auto)]

ghost use Rattle.std.specs.Prelude.{◌≡◌};
ghost use Rattle.lattice.specs.Meaning.{Meaning, Laws};

use bits::Code;

mod gathering;
mod widths;

pub use gathering::gather;
pub use widths::add_widths;

pub trait Lattice: Sized {
    // The values, apart from the type that represents them, and the nine answers.
    ghost meaning: { Meaning };

    // What a value of the type stands for.
    ghost means: { Self → meaning.Value };

    ghost laws: { Laws meaning };

    fn bottom() -> Self
        ensures { means result ≡ meaning.bottom };

    fn admits(code: Code) -> bool
        ensures { result ≡ meaning.admits code };

    fn value(code: Code) -> Self
        ensures { means result ≡ meaning.value code };

    fn clashes(&self, other: &Self) -> bool
        ensures { result ≡ meaning.clash (means self.now) (means other.now) };

    // The join comes to stand where the first value stood.
    fn join(&mut self, other: Self)
        ensures { means self.new ≡ meaning.join (means self.old) (means other) };

    fn is_below(&self, other: &Self) -> bool
        ensures { result ≡ meaning.below (means self.now) (means other.now) };

    fn label() -> u8
        ensures { result ≡ meaning.label.value };

    fn width() -> u8
        ensures { result ≡ meaning.width };

    fn word(&self, i: u8) -> u32
        ensures { result ≡ (meaning.word (means self.now) i).value };
}
