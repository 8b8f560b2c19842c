// The lines of a text, one at a time: what each says, and the words it gives.
#![tactic(auto)]

ghost use Rattle.std.specs.Prelude.{◌≡◌, [], ◌∷◌};
ghost use Rattle.std.specs.Option.{option_map};
ghost use Rattle.words.specs.Instructions.{instruction_word};
ghost use Rattle.lexer.specs.Fields.{both, then, cell_field};
ghost use Rattle.lines.specs.Forms.{lastly};
ghost use Rattle.lines.specs.Rows.{trigger_field, words_in, get_told};
ghost use Rattle.lines.specs.Lines.{inside, judged, unjudged, head_of, head_fields, head_line, started_by, entry_of, number_pair, entry_line, keyword_in, told, words_told, statement_words, statement_by, code_line};

use crate::trigger_row::row;
use crate::triggers::Triggers;
use lexer::fields::{Cursor, Field, Fitting, first_word, spells};
use words::{Bits, CellOperand, Entry, Head, Instruction, Word};

mod accessors;
mod trigger_row;
mod triggers;
pub mod wording;

pub use wording::LineWords;

// Why a line is refused. One that breaks the grammar is refused for that, whatever its numbers are.
#[derive(Clone, Copy, Debug, PartialEq, Eq)]
pub enum LineError {
    // The line breaks the grammar.
    Grammar,
    // A number does not fit its field's bits.
    Range,
}

// The first word of a line of code.
#[derive(Clone, Copy, Debug, PartialEq, Eq)]
pub enum Keyword {
    End,
    Put,
    Get,
    Freeze,
    If,
    Has,
    Start,
    Let,
    Loop,
}

// `lattice L cells N tasks T`
pub fn head_line(line: &[u8]) -> Result<Head, LineError>
    ensures { result ≡ judged (head_line line.now) }
{
    judged(head_in(line))
}

// `task P N` or `idle P N`
pub fn entry_line(line: &[u8]) -> Result<Entry, LineError>
    ensures { result ≡ judged (entry_line line.now) }
{
    judged(entry_in(line))
}

// A line of code.
pub fn code_line(line: &[u8]) -> Result<LineWords, LineError>
    ensures { words_told result ≡ judged (inside statement_words (code_line line.now)) }
{
    let (word, cursor) = first_word(line).ok_or(LineError::Grammar)?;
    let keyword = Keyword::named(word).ok_or(LineError::Grammar)?;
    statement(keyword, cursor)
}

fn judged<T: Drop>(said: Option<Fitting<T>>) -> Result<T, LineError>
    ensures { result ≡ judged said }
{
    said.ok_or(LineError::Grammar)?.ok_or(LineError::Range)
}

fn head_in(line: &[u8]) -> Option<Fitting<Head>>
    ensures { result ≡ head_line line.now }
{
    let (word, cursor) = first_word(line)?;
    // A pattern was tried here, and its proof stayed open.
    if spells(word, b"lattice") {
        head_fields(cursor)
    } else {
        None
    }
}

// The first line behind its first word.
#[tactic(auto, using(crate::proofs::Heads::closed_beside))]
fn head_fields(mut cursor: Cursor<'_>) -> Option<Fitting<Head>>
    ensures { result ≡ inside head_of (lastly head_fields cursor.entry.line.now cursor.entry.at) }
{
    let label = Bits::read(&mut cursor)?;
    cursor.word(b"cells")?;
    let cells = Bits::read(&mut cursor)?;
    cursor.word(b"tasks")?;
    let tasks = last(cursor)?;
    Some(head_of(label, cells, tasks))
}

fn head_of(
    label: Fitting<Bits<8>>,
    cells: Fitting<Bits<10>>,
    tasks: Fitting<Bits<10>>,
) -> Fitting<Head>
    ensures { result ≡ option_map head_of (both label (both cells tasks)) }
{
    Some(Head {
        label: label?,
        cells: cells?,
        tasks: tasks?,
    })
}

fn entry_in(line: &[u8]) -> Option<Fitting<Entry>>
    ensures { result ≡ entry_line line.now }
{
    let (word, cursor) = first_word(line)?;
    let started = started_by(word)?;
    entry_of(started, cursor)
}

// A task's line behind its first word.
fn entry_of(started: bool, cursor: Cursor<'_>) -> Option<Fitting<Entry>>
    ensures { result ≡ inside (entry_of started) (number_pair 13 14 cursor.entry.line.now cursor.entry.at) }
{
    Some(last(cursor)?.map(|(place, argument)| Entry {
        started,
        place,
        argument,
    }))
}

fn started_by(word: &[u8]) -> Option<bool>
    ensures { result ≡ started_by word.now }
{
    match word {
        b"task" => Some(true),
        b"idle" => Some(false),
        _ => None,
    }
}

impl Keyword {
    fn named(word: &[u8]) -> Option<Keyword>
        ensures { result ≡ keyword_in word.now }
    {
        match word {
            b"end" => Some(Keyword::End),
            b"put" => Some(Keyword::Put),
            b"get" => Some(Keyword::Get),
            b"freeze" => Some(Keyword::Freeze),
            b"if" => Some(Keyword::If),
            b"has" => Some(Keyword::Has),
            b"start" => Some(Keyword::Start),
            b"let" => Some(Keyword::Let),
            b"loop" => Some(Keyword::Loop),
            _ => None,
        }
    }
}

// A field with which the line ends.
fn last<F: Field>(mut cursor: Cursor<'_>) -> Option<Fitting<F>>
    ensures { result ≡ lastly F.reads cursor.entry.line.now cursor.entry.at }
{
    let said = F::read(&mut cursor)?;
    cursor.is_done().then_some(said)
}

// The fields with which a line ends, or why the line is refused.
#[tactic(auto, using(crate::proofs::Verdicts::said_again))]
fn fields<F: Field>(cursor: Cursor<'_>) -> Result<F, LineError>
    ensures { unjudged result ≡ lastly F.reads cursor.entry.line.now cursor.entry.at }
{
    judged(last(cursor))
}

// A line of code behind its first word: its fields are cells C, codes V, numbers N, places P and tasks T. A match, so that no keyword can lack its fields.
#[tactic(auto, using(crate::proofs::Gets::get_words, crate::proofs::Verdicts::refused_still))]
fn statement(keyword: Keyword, cursor: Cursor<'_>) -> Result<LineWords, LineError>
    ensures { words_told result ≡ judged (inside statement_words (statement_by keyword cursor.entry.line.now cursor.entry.at)) }
{
    match keyword {
        Keyword::End => fields(cursor).map(|()| single(Instruction::End)),
        Keyword::Put => fields(cursor).map(|(c, v)| single(Instruction::Put(c, v))),
        Keyword::Get => get_line(cursor),
        Keyword::Freeze => fields(cursor).map(|c| single(Instruction::Freeze(c))),
        Keyword::If => fields(cursor).map(|(n, p)| single(Instruction::If(n, p))),
        Keyword::Has => fields(cursor).map(|(c, v)| single(Instruction::Has(c, v))),
        Keyword::Start => fields(cursor).map(|t| single(Instruction::Start(t))),
        Keyword::Let => fields(cursor).map(|v| single(Instruction::Let(v))),
        Keyword::Loop => fields(cursor).map(|(n, p)| single(Instruction::Loop(n, p))),
    }
}

// `get C V` with one to eight codes. Not inlined, since a row is made word by word: where its words and those of a single
// instruction are one variable, both are copied in pieces.
#[inline(never)]
fn get_line(mut cursor: Cursor<'_>) -> Result<LineWords, LineError>
    ensures { words_told result ≡ judged (inside get_told (lastly (then cell_field trigger_field) cursor.entry.line.now cursor.entry.at)) }
{
    let cell = CellOperand::read(&mut cursor).ok_or(LineError::Grammar)?;
    let triggers = row(&mut cursor).ok_or(LineError::Grammar)?;
    if !cursor.is_done() {
        return Err(LineError::Grammar);
    }
    let cell = cell.ok_or(LineError::Range)?;
    let triggers = triggers.ok_or(LineError::Range)?;
    Ok(triggers.behind(cell))
}

// The words of an instruction that has no triggers.
fn single(instruction: Instruction) -> LineWords
    ensures { told result ≡ instruction_word instruction ∷ [] }
{
    LineWords::single(instruction.encode())
}
