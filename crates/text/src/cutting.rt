// A text cut into its lines, each with its LF; what stands behind the last LF is a line that never ended.
// The library's `split_inclusive` cuts alike, but tells of its lines by a closure; here a contract names those that are left.
ghost use Rattle.std.specs.Prelude.{◌≡◌, ◌≤◌, length};
ghost use Rattle.std.specs.Iterator.{YieldsFirstRef, item_count};
ghost use Rattle.std.specs.List.{position};
ghost use Rattle.text.specs.Reading.{ends_line, line_len, lines_of};

#[derive(Drop)]
pub(crate) struct TextLines<'a>(&'a [u8]);

impl<'a> TextLines<'a> {
    pub(crate) fn new(text: &'a [u8]) -> TextLines<'a>
        ensures { result.0.now ≡ text.now }
    {
        TextLines(text)
    }
}

impl<'a> Iterator for TextLines<'a> {
    type Item = &'a [u8];

    ghost next_gives = { YieldsFirstRef (λ s. lines_of s.0.now) };

    ghost remaining = { item_count (λ s. lines_of s.0.now) };

    #[tactic(auto, using(crate::proofs::Cuts::lines_cut))]
    fn next(&mut self) -> Option<&'a [u8]> {
        if self.0.is_empty() {
            return None;
        }
        let (line, rest) = self.0.split_at(line_len(self.0));
        self.0 = rest;
        Some(line)
    }
}

// How long the first line is.
fn line_len(text: &[u8]) -> usize
    ensures is { result ≡ line_len text.now }
    ensures within { result ≤ length text.now }
{
    match first_end(text) {
        Some(end) => end + 1,
        None => text.len(),
    }
}

// The place of the first LF.
fn first_end(text: &[u8]) -> Option<usize>
    ensures { result ≡ position ends_line text.now }
{
    text.iter().position(|byte| *byte == b'\n')
}
