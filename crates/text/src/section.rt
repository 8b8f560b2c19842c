// The parts of a text: its first line, its task lines and its code.
ghost use Rattle.std.specs.Prelude.{◌≡◌, ◌-◌};
ghost use Rattle.text.specs.Reading.{tasks_left, head_in, entry_in, code_in, line_in, told_line};

use crate::Cause;
use lines::{LineWords, code_line, entry_line, head_line};
use words::Word;

#[derive(Clone, Copy, Debug, PartialEq, Eq)]
pub enum Section {
    Head,
    Tasks(u32),
    Code,
}

// The words of a line, and the section of the line behind it. A match, so that no section can lack its reader.
#[tactic(auto, unfolding(crate::specs::Reading::line_in))]
pub(crate) fn read_line(section: Section, line: &[u8]) -> Result<(LineWords, Section), Cause>
    ensures { told_line result ≡ line_in section line.now }
{
    match section {
        Section::Head => read_head(line),
        Section::Tasks(left) => read_entry(left, line),
        Section::Code => read_code(line),
    }
}

fn tasks_left(left: u32) -> Section
    ensures { result ≡ tasks_left left }
{
    if left == 0 {
        Section::Code
    } else {
        Section::Tasks(left)
    }
}

// A function for a head and an entry would take the word and what is left, and be no shorter.
fn read_head(line: &[u8]) -> Result<(LineWords, Section), Cause>
    ensures { told_line result ≡ head_in line.now }
{
    let head = head_line(line)?;
    Ok((
        LineWords::single(head.encode()),
        tasks_left(head.tasks.get()),
    ))
}

fn read_entry(left: u32, line: &[u8]) -> Result<(LineWords, Section), Cause>
    ensures { told_line result ≡ entry_in left line.now }
{
    let entry = entry_line(line)?;
    Ok((
        LineWords::single(entry.encode()),
        tasks_left(left.saturating_sub(1)),
    ))
}

fn read_code(line: &[u8]) -> Result<(LineWords, Section), Cause>
    ensures { told_line result ≡ code_in line.now }
{
    let words = code_line(line)?;
    Ok((words, Section::Code))
}
