// Numbers that cannot hold more than N bits, so that a field's width is part of its type.
#![tactic(auto)]

ghost use Rattle.std.specs.Prelude.{◌^◌, ◌<◌};

#[derive(Clone, Copy, Debug, PartialEq, Eq, PartialOrd, Ord)]
pub struct Bits<const N: u32> {
    value: u32,
    ghost fits: { value < 2 ^ N },
}

// What names a value of a lattice.
pub type Code = Bits<18>;

mod conversions;
mod making;
