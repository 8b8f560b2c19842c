// The words of one line: an instruction's, and those of its triggers.
ghost use Rattle.std.specs.Prelude.{◌≡◌, ℕ, ◌≤◌, slice_index};

// An array with its count, as `Triggers` is. The array stands first: otherwise it is copied in pieces that overlap, and the
// processor waits for each.
#[derive(Clone, Copy, Debug, PartialEq, Eq)]
pub struct LineWords {
    pub(crate) triggers: [u32; 8],
    pub(crate) count: usize,
    pub(crate) first: u32,
    ghost few: { count ≤ 8 },
    ghost blank: { (k : ℕ) → count ≤ k → slice_index triggers k ≡ 0 },
}
