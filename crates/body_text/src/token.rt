//! The tokens of an expression's text, which the reader goes over.
ghost use Rattle.std.specs.Prelude.{◌≡◌, ◌+◌, ◌<◌, ◌≤◌, length, map, IfOk, option_map};
ghost use Rattle.syn_base.specs.Name.{is_digit, is_name_byte, is_name, begins_name};
ghost use Rattle.std.specs.List.{list_all};
ghost use Rattle.body_text.specs.Tokens.{front, len_by, mark_of, word_token, placed};
ghost use Rattle.body_text.specs.Cut.{mark_view, token_view, placed_view, token_in, IsNext};

use std::alloc::Global;
use syn_base::{OutOfMemory, read_int};
use text_lines::{Span, is_blank_byte};

/// The most bytes of a name.
const LONGEST_NAME: usize = 32;

/// A mark of the grammar.
#[derive(Clone, Copy, Debug, Drop, PartialEq, Eq)]
pub enum Mark {
    OpenRound,
    CloseRound,
    OpenSquare,
    CloseSquare,
    Comma,
}

/// A token of an expression's text.
#[derive(Clone, Copy, Drop)]
pub enum Token<'a> {
    Number(i64),
    Name(&'a [u8]),
    Mark(Mark),
    /// Another byte, a `-` without digits, or a number that 64 bits do not hold.
    Bad,
}

/// A token, and the place of its first byte.
#[derive(Clone, Copy, Drop)]
pub struct Placed<'a> {
    pub token: Token<'a>,
    pub place: usize,
}

/// The number of tokens of a text. It takes no memory.
pub fn count(text: &[u8]) -> usize
    ensures { result ≡ length (placed text.now) }
{
    let mut count = 0;
    let mut at = 0;
    while let Some(span) = next(text, at) {
        count += 1;
        at = span.to;
    }
    count
}

/// The tokens of a text, in order.
pub fn tokens(alloc: Global, text: &[u8]) -> Result<Vec<Placed<'_>>, OutOfMemory>
    ensures { IfOk result (λ v. map placed_view v.items ≡ placed text.now) }
{
    let mut tokens = Vec::new(alloc);
    let mut at = 0;
    while let Some(span) = next(text, at) {
        let token = token_of(&text[span.from..span.to]);
        tokens.push(Placed {
            token,
            place: span.from,
        })?;
        at = span.to;
    }
    Ok(tokens)
}

/// Where the next token stands.
fn next(text: &[u8], from: usize) -> Option<Span>
    requires { from ≤ length text.now }
    ensures { IsNext text.now from result }
{
    for at in from..text.len() {
        if !is_blank_byte(text[at]) {
            return Some(Span {
                from: at,
                to: at + token_len(text[at], &text[at + 1..]),
            });
        }
    }
    None
}

/// The length of the token that begins with a byte, where these follow it. Of a long run of letters it
/// looks at no more than one name, so that a whole text is cut in linear time.
#[tactic(auto, using(crate::proofs::Cuts::name_length))]
fn token_len(first: u8, rest: &[u8]) -> usize
    ensures len { result ≡ len_by first rest.now }
    ensures within { result ≤ length rest.now + 1 }
    ensures some { 0 < result }
{
    if first.is_ascii_digit() || first == b'-' {
        1 + digits(rest)
    } else if is_part(first) {
        1 + parts(&rest[..rest.len().min(LONGEST_NAME - 1)])
    } else {
        1
    }
}

/// How many bytes at the front are digits.
fn digits(bytes: &[u8]) -> usize
    ensures front { result ≡ front is_digit bytes.now }
    ensures within { result ≤ length bytes.now }
{
    for (i, byte) in bytes.iter().enumerate() {
        if !byte.is_ascii_digit() {
            return i;
        }
    }
    bytes.len()
}

/// How many bytes at the front may stand in a name.
fn parts(bytes: &[u8]) -> usize
    ensures front { result ≡ front is_name_byte bytes.now }
    ensures within { result ≤ length bytes.now }
{
    for (i, byte) in bytes.iter().enumerate() {
        if !is_part(*byte) {
            return i;
        }
    }
    bytes.len()
}

/// What the bytes of one token are.
fn token_of(word: &[u8]) -> Token<'_>
    ensures { token_view result ≡ token_in word.now }
{
    match word {
        [] => Token::Bad,
        [first, ..] => match mark_of(*first) {
            Some(mark) => Token::Mark(mark),
            None => name_or_number(word),
        },
    }
}

/// The mark that a byte is.
fn mark_of(byte: u8) -> Option<Mark>
    ensures { option_map mark_view result ≡ mark_of byte }
{
    match byte {
        b'(' => Some(Mark::OpenRound),
        b')' => Some(Mark::CloseRound),
        b'[' => Some(Mark::OpenSquare),
        b']' => Some(Mark::CloseSquare),
        b',' => Some(Mark::Comma),
        _ => None,
    }
}

/// The token of bytes that are no mark: a name, a number, or neither.
fn name_or_number(word: &[u8]) -> Token<'_>
    ensures { token_view result ≡ word_token word.now }
{
    if is_name(word) {
        return Token::Name(word);
    }
    match read_int(word) {
        Ok(number) => Token::Number(number),
        Err(_) => Token::Bad,
    }
}

/// Whether bytes are a name.
fn is_name(text: &[u8]) -> bool
    ensures { result ≡ is_name text.now }
{
    begins_name(text) && text.len() <= LONGEST_NAME && has_parts(text)
}

/// Whether bytes are not empty and begin with no digit.
fn begins_name(text: &[u8]) -> bool
    ensures { result ≡ begins_name text.now }
{
    match text {
        [] => false,
        [first, ..] => !first.is_ascii_digit(),
    }
}

/// Whether each of these bytes may stand in a name.
fn has_parts(text: &[u8]) -> bool
    ensures { result ≡ list_all is_name_byte text.now }
{
    text.iter().all(|byte| is_part(*byte))
}

/// Whether a byte may stand in a name: a letter, a digit or `_`.
fn is_part(byte: u8) -> bool
    ensures { result ≡ is_name_byte byte }
{
    byte.is_ascii_alphabetic() || byte.is_ascii_digit() || byte == b'_'
}
