// The words of a GET's triggers, eight at most. An array with its count: no `ArrayVec` can be copied, and the words of a line can.
ghost use Rattle.std.specs.Prelude.{◌≡◌, ℕ, ◌≤◌, slice_index};

// What is not counted is 0, so that equal words are equal values.
#[derive(Clone, Copy, Debug, PartialEq, Eq)]
pub(crate) struct Triggers {
    pub(crate) count: usize,
    pub(crate) words: [u32; 8],
    ghost few: { count ≤ 8 },
    ghost blank: { (k : ℕ) → count ≤ k → slice_index words k ≡ 0 },
}
