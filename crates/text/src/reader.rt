// Reads the lines of a text one after the other. The first pass judges and counts, the second writes.
ghost use Rattle.std.specs.Prelude.{◌≡◌, ◌+◌, ◌≤◌, true, length, is_ok};
ghost use Rattle.lines.specs.Lines.{told};
ghost use Rattle.text.specs.Reading.{reading, counted, written, pasted, answered, read_text};
ghost use Rattle.text.specs.Law.{Grammar};

use crate::cutting::TextLines;
use crate::section::{Section, read_line};
use crate::{Cause, Refusal};
use lines::LineWords;

// Reads a text into the front of the buffer, and answers how many words it has. A refusal leaves the buffer as it was.
pub fn read(text: &[u8], words: &mut [u32]) -> Result<usize, Refusal>
    ensures answer { answered result ≡ counted (read_text (length words.old) text.now) }
    ensures after { words.new ≡ written (read_text (length words.old) text.now) words.old }
    ensures grammar { Grammar text.now words.old words.new result }
{
    read_words(text, words)
}

// Nothing is written before the whole text is judged. Apart from `read`, so that a wrong body is refused here.
fn read_words(text: &[u8], words: &mut [u32]) -> Result<usize, Refusal>
    ensures answer { result ≡ counted (reading (length words.old) text.now) }
    ensures after { words.new ≡ written (reading (length words.old) text.now) words.old }
{
    let count = measure(text, words.len())?;
    write(text, words);
    Ok(count)
}

// How many words the text has, or why it is refused.
fn measure(text: &[u8], room: usize) -> Result<usize, Refusal>
    ensures { result ≡ counted (reading room text.now) }
{
    // No text is so long that its lines cannot be numbered.
    prove!(text.len() < usize::MAX);
    let mut section = Section::Head;
    let mut number = 1;
    let mut count = 0;
    for line in TextLines::new(text) {
        let (words, next) = read_line(section, line).map_err(|cause| Refusal {
            cause,
            line: number,
        })?;
        if words.len() > room - count {
            return Err(Refusal {
                cause: Cause::Room,
                line: number,
            });
        }
        count += words.len();
        section = next;
        // Told behind the last line too, where `enumerate` would have no number.
        number += 1;
    }
    match section {
        Section::Code => Ok(count),
        _ => Err(Refusal {
            cause: Cause::Grammar,
            line: number,
        }),
    }
}

// Writes the words of a line into the buffer.
#[tactic(auto, using(crate::proofs::Cuts::stored_words))]
fn store(words: &mut [u32], at: usize, line: &LineWords)
    requires { at + length (told line.now) ≤ length words.old }
    ensures { words.new ≡ pasted words.old at (told line.now) }
{
    words[at] = line.first();
    let triggers = line.triggers();
    let end = at + 1 + triggers.len();
    words[at + 1..end].copy_from_slice(triggers);
}

// Writes the words of a text that can be read.
fn write(text: &[u8], words: &mut [u32])
    requires { is_ok (reading (length words.old) text.now) ≡ true }
    ensures { words.new ≡ written (reading (length words.old) text.now) words.old }
{
    let mut section = Section::Head;
    let mut count = 0;
    for line in TextLines::new(text) {
        let Ok((read, next)) = read_line(section, line) else {
            unreachable!()
        };
        // By the words so far: what is promised is of the whole buffer that was lent.
        store(words, count, &read);
        count += read.len();
        section = next;
    }
}
