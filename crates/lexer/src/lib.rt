// The fields of a text's lines, cut out of the text one by one.
#![tactic(auto)]

ghost use Rattle.std.specs.Prelude.{◌≡◌, ◌+◌, ◌-◌, ◌<◌, ◌≤◌, length, drop, slice_index, IfSome};
ghost use Rattle.std.specs.Str.Parse.{AllDigits, digits_value};
ghost use Rattle.lexer.specs.Numbers.{digits_at, number_at};
ghost use Rattle.lexer.specs.Tokens.{placed, spoken, in_field, said_by, whole, token_at};
ghost use Rattle.std.specs.List.{prefix_len};
ghost use Rattle.std.specs.Char.{is_ascii_digit};

pub mod fields;

// What a field says. A word is a part of the text.
#[derive(Clone, Copy, Debug, PartialEq, Eq)]
pub enum Token<'a> {
    Word(&'a [u8]),
    Number(u32),
    PlusCell(u32),
    Register,
}

// A token with the place where it begins and the place after it.
#[derive(Clone, Copy, Debug, PartialEq, Eq)]
pub struct Lexeme<'a> {
    pub token: Token<'a>,
    pub place: usize,
    pub next: usize,
}

// The number that stands at a place, together with the place after it, where whoever reads on begins.
pub fn number(text: &[u8], at: usize) -> Option<(u32, usize)>
    ensures { result ≡ number_at text.now at }
{
    match digits_at(text, at) {
        [] | [b'0', _, ..] => None,
        digits if digits.len() > 9 => None,
        digits => Some((digits_value(digits), at + digits.len())),
    }
}

// The token that begins at a place. Text and place are parameters together in this file: what stands there is a part of the text, and its place is told.
pub fn next_token<'a>(text: &'a [u8], at: usize) -> Option<Lexeme<'a>>
    ensures is { placed result ≡ token_at text.now at }
    ensures begins { IfSome result (λ x. x.place ≡ at) }
{
    let width = field_width(text, at);
    if width == 0 {
        return None;
    }
    let token = token_of(text, at, width)?;
    Some(Lexeme {
        token,
        place: at,
        next: at + width,
    })
}

// The text from a place on.
fn rest<'a>(text: &'a [u8], at: usize) -> &'a [u8]
    ensures { result.now ≡ drop at text.now }
{
    text.get(at..).unwrap_or(&[])
}

// The digits that stand at a place.
#[tactic(auto, using(crate::proofs::Scans::digits_leading))]
fn digits_at<'a>(text: &'a [u8], at: usize) -> &'a [u8]
    ensures is { result.now ≡ digits_at text.now at }
    ensures within { 0 < length result.now → at + length result.now ≤ length text.now }
    ensures all { AllDigits 10 result.now }
{
    let rest = rest(text, at);
    let count = digit_count(rest);
    &rest[..count]
}

// How many digits stand at the front.
fn digit_count(text: &[u8]) -> usize
    ensures is { result ≡ prefix_len is_ascii_digit text.now }
    ensures within { result ≤ length text.now }
{
    text.iter().take_while(|byte| byte.is_ascii_digit()).count()
}

// The number that nine digits or fewer write; the library parses a `str`, and would look at each byte again.
#[tactic(auto, using(crate::proofs::Scans::digit_value, crate::proofs::Scans::value_bound, std::proofs::lemmas::Int::Digits::digits_value_more))]
fn digits_value(digits: &[u8]) -> u32
    requires few { length digits.now ≤ 9 }
    requires all { AllDigits 10 digits.now }
    ensures { result ≡ digits_value 10 digits.now }
{
    let mut value = 0;
    for digit in digits {
        value = value * 10 + u32::from(*digit - b'0');
    }
    value
}

// How long the field is that begins at `at`.
fn field_width(text: &[u8], at: usize) -> usize
    ensures is { result ≡ prefix_len in_field (drop at text.now) }
    ensures within { 0 < result → at + result ≤ length text.now }
{
    rest(text, at)
        .iter()
        .take_while(|byte| **byte != b' ' && **byte != b'\n')
        .count()
}

// What a field of some width says.
fn token_of<'a>(text: &'a [u8], at: usize, width: usize) -> Option<Token<'a>>
    requires some { 0 < width }
    requires within { at + width ≤ length text.now }
    ensures { spoken result ≡ said_by text.now at width (slice_index text.now at) }
{
    let end = at + width;
    match text[at] {
        b'+' => Some(Token::PlusCell(number_up_to(text, at + 1, end)?)),
        b'0'..=b'9' => Some(Token::Number(number_up_to(text, at, end)?)),
        b'r' if width == 1 => Some(Token::Register),
        _ => Some(Token::Word(&text[at..end])),
    }
}

// The number that goes from one place to another.
fn number_up_to(text: &[u8], at: usize, end: usize) -> Option<u32>
    ensures { result ≡ whole (λ v. v) end (number_at text.now at) }
{
    let (value, next) = number(text, at)?;
    (next == end).then_some(value)
}
