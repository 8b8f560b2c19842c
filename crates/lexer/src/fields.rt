// The fields of a line: each stands behind one space. A field that cannot be read breaks the grammar, and answers none.
ghost use Rattle.std.specs.Prelude.{◌≡◌, ℕ, ◌+◌, List, IfSome, IfNone};
ghost use Rattle.std.specs.Str.{bytes_eq};
ghost use Rattle.lexer.specs.Fields.{Field as FieldOf, stands, ends, field_at, first_word, word_field, reached, kept, nothing, then, number_field, cell_field, code_field};
ghost use Rattle.lexer.specs.Reading.{begun};
ghost use Rattle.lexer.specs.Tokens.{placed, spoken, between};

use crate::{Lexeme, Token, next_token};
use words::{Bits, CellOperand, CodeOperand};

// What a field or a line says, if its numbers fit their bits. It waits until the grammar of the whole line is known.
pub type Fitting<T> = Option<T>;

// A line, and how far it has been read. The line never changes, and where a field cannot be read the place does not either: each
// contract here that lends a cursor says so.
#[derive(Clone, Copy, Debug, PartialEq, Eq)]
pub struct Cursor<'a> {
    line: &'a [u8],
    at: usize,
}

// The word that a line begins with, and a cursor behind it.
pub fn first_word<'a>(line: &'a [u8]) -> Option<(&'a [u8], Cursor<'a>)>
    ensures is { begun result ≡ first_word line.now }
    ensures line { IfSome result (λ p. p.1.line.now ≡ line.now) }
{
    let lexeme = next_token(line, 0)?;
    match lexeme.token {
        Token::Word(word) => Some((word, Cursor::new(line, lexeme.next))),
        _ => None,
    }
}

// Whether a word is spelt as a name is, in the words of a contract.
pub fn spells(word: &[u8], name: &[u8]) -> bool
    ensures { result ≡ bytes_eq word.now name.now }
{
    word == name
}

impl<'a> Cursor<'a> {
    // A line that has been read up to a place.
    pub fn new(line: &'a [u8], at: usize) -> Cursor<'a>
        ensures line { result.line.now ≡ line.now }
        ensures place { result.at ≡ at }
    {
        Cursor { line, at }
    }

    // How far the line has been read.
    pub fn place(&self) -> usize
        ensures { result ≡ self.now.at }
    {
        self.at
    }

    // Whether a byte stands here.
    pub fn is_at(&self, byte: u8) -> bool
        ensures { result ≡ stands self.now.line.now self.now.at byte }
    {
        self.line.len() > self.at && self.line[self.at] == byte
    }

    // Whether the line ends here: its LF stands here, and nothing after it.
    pub fn is_done(&self) -> bool
        ensures { result ≡ ends self.now.line.now self.now.at }
    {
        self.is_at(b'\n') && self.line.len() - self.at == 1
    }

    // The field that follows one space.
    pub fn token(&mut self) -> Option<Token<'a>>
        ensures is { between (self.old.at + 1) self.new.at (spoken result) ≡ field_at self.old.line.now self.old.at }
        ensures line { self.new.line.now ≡ self.old.line.now }
        ensures stays { IfNone result (self.new.at ≡ self.old.at) }
    {
        let Lexeme { token, next, .. } = self.ahead()?;
        *self = Cursor::new(self.line, next);
        Some(token)
    }

    // A field that is the word `name`.
    pub fn word(&mut self, name: &[u8]) -> Option<()>
        ensures is { reached result self.new.at ≡ word_field name.now self.old.line.now self.old.at }
        ensures line { self.new.line.now ≡ self.old.line.now }
        ensures stays { IfNone result (self.new.at ≡ self.old.at) }
    {
        let lexeme = self.ahead()?;
        match lexeme.token {
            Token::Word(word) if spells(word, name) => {
                *self = Cursor::new(self.line, lexeme.next);
                Some(())
            }
            _ => None,
        }
    }

    // The field that follows one space, while the cursor stays.
    fn ahead(&self) -> Option<Lexeme<'a>>
        ensures is { placed result ≡ field_at self.now.line.now self.now.at }
        ensures begins { IfSome result (λ x. x.place ≡ self.now.at + 1) }
    {
        if self.is_at(b' ') {
            next_token(self.line, self.at + 1)
        } else {
            None
        }
    }
}

// What can stand in a line, and how it is read.
pub trait Field: Drop {
    ghost reads: { List ℕ → ℕ → FieldOf Self };

    fn read(cursor: &mut Cursor<'_>) -> Option<Fitting<Self>>
        ensures is { kept cursor.new.at result ≡ reads cursor.old.line.now cursor.old.at }
        ensures line { cursor.new.line.now ≡ cursor.old.line.now }
        ensures stays { IfNone result (cursor.new.at ≡ cursor.old.at) };
}

// A number for a field of N bits.
impl<const N: u32> Field for Bits<N> {
    ghost reads = { number_field N };

    fn read(cursor: &mut Cursor<'_>) -> Option<Fitting<Bits<N>>> {
        let lexeme = cursor.ahead()?;
        let number = match lexeme.token {
            Token::Number(n) => Bits::new(n),
            _ => return None,
        };
        cursor.at = lexeme.next;
        Some(number)
    }
}

// A cell: a number, or `+` joined to one.
impl Field for CellOperand {
    ghost reads = { cell_field };

    fn read(cursor: &mut Cursor<'_>) -> Option<Fitting<CellOperand>> {
        let lexeme = cursor.ahead()?;
        let cell = match lexeme.token {
            Token::Number(n) => Bits::new(n).map(CellOperand::Fixed),
            Token::PlusCell(n) => Bits::new(n).map(CellOperand::Moved),
            _ => return None,
        };
        cursor.at = lexeme.next;
        Some(cell)
    }
}

// A code: a number, or `r` for register R.
impl Field for CodeOperand {
    ghost reads = { code_field };

    fn read(cursor: &mut Cursor<'_>) -> Option<Fitting<CodeOperand>> {
        let lexeme = cursor.ahead()?;
        let code = match lexeme.token {
            Token::Number(n) => Bits::new(n).map(CodeOperand::Fixed),
            Token::Register => Some(CodeOperand::Register),
            _ => return None,
        };
        cursor.at = lexeme.next;
        Some(code)
    }
}

// A field, and the one after it.
impl<X: Field, Y: Field> Field for (X, Y) {
    ghost reads = { then X.reads Y.reads };

    fn read(cursor: &mut Cursor<'_>) -> Option<Fitting<(X, Y)>> {
        let start = cursor.at;
        let first = X::read(cursor)?;
        let Some(second) = Y::read(cursor) else {
            cursor.at = start;
            return None;
        };
        Some(first.zip(second))
    }
}

// No field.
impl Field for () {
    ghost reads = { nothing };

    fn read(_cursor: &mut Cursor<'_>) -> Option<Fitting<()>> {
        Some(Some(()))
    }
}
