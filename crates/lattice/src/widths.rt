// Widths of stacked lattices.
ghost use Rattle.std.specs.Prelude.{◌≡◌};
ghost use Rattle.lattice.specs.Widths.{wide};

// A width of more than 64 words is told as this one.
const TOO_WIDE: u8 = 65;

// The width of two parts side by side.
pub fn add_widths(first: u8, second: u8) -> u8
    ensures { result ≡ wide first second }
{
    first.saturating_add(second).min(TOO_WIDE)
}
