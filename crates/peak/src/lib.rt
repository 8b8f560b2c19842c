// Peak: the highest reading of a thermometer, in tenths of a degree from -400 to 1,200.
#![tactic(auto)]

ghost use Rattle.std.specs.Prelude.{pos, negsuc, ◌≤ℤ◌};

#[derive(Clone, Copy, Debug, PartialEq, Eq, PartialOrd, Ord)]
pub struct Peak {
    tenths: i16,
    ghost low: { negsuc 399 ≤ℤ tenths },
    ghost high: { tenths ≤ℤ pos 1200 },
}

mod reading;
