//! Splits a text into lines, and a line into words, and keeps names in first-seen order, each once. The readers
//! of algorithm, architecture and macro-code texts begin with it.
//!
//! Lines end at a line feed; the last line may lack one. Tab, carriage return and space are blanks
//! (`is_blank_byte`). From `#` on a line is comment. `line_end` finds the end of a line, `code` cuts off its
//! comment, `foreign` finds a byte that may not stand there, `Words` are its words, `read_name` reads a word as
//! a name, and `check_limit` refuses a quantity above its bound. `TextError` is the error of all readers of such texts,
//! with the causes of its own text in each.
//!
//! `Names` are found by hash, with `add` and `find`. The readers of texts and whoever looks up definitions by
//! name use them.
#![tactic(auto)]

mod fault;
mod key;
mod limit;
mod names;
mod words;

ghost use Rattle.std.specs.Prelude.{◌≡◌, ◌+◌, ◌<◌, ◌≤◌, length, drop, map, None, Some, IfOk, All, position};
ghost use Rattle.std.specs.List.{position_or_len};
ghost use Rattle.text_lines.specs.Text.{is_feed, is_blank, is_foreign, is_hash, code_of, foreign_place, words_of, text_at, IsWithin};

pub use fault::{TextError, TextFault, refused_at};
pub use key::TableKey;
pub use limit::check_limit;
pub use names::Names;
use std::alloc::Global;
use syn_base::OutOfMemory;
pub use words::{Words, read_name};

/// A part of a line, from a place up to another.
#[derive(Clone, Copy, Drop)]
pub struct Span {
    pub from: usize,
    pub to: usize,
}

/// The place of the next line feed, or the end.
#[tactic(auto, using(crate::proofs::Places::found_at, crate::proofs::Places::missing_at))]
pub fn line_end(bytes: &[u8], from: usize) -> usize
    requires { from ≤ length bytes.now }
    ensures next { result ≡ from + position_or_len is_feed (drop from bytes.now) }
    ensures within { result ≤ length bytes.now }
{
    match feed_in(&bytes[from..]) {
        Some(n) => from + n,
        None => bytes.len(),
    }
}

/// Whether a byte is a blank: tab, carriage return or space.
pub fn is_blank_byte(b: u8) -> bool
    ensures { result ≡ is_blank b }
{
    b == b'\t' || b == b'\r' || b == b' '
}

/// Whether a byte may not stand in a line: it is neither a blank nor a printable character.
fn is_foreign_byte(b: u8) -> bool
    ensures { result ≡ is_foreign b }
{
    !(is_blank_byte(b) || (33 <= b && b <= 126))
}

/// The place of the `#` with which the comment of a line begins, or the end of the line.
#[tactic(auto, using(crate::proofs::Places::found_at, crate::proofs::Places::missing_at))]
fn code_end(line: &[u8]) -> usize
    ensures place { result ≡ position_or_len is_hash line.now }
    ensures within { result ≤ length line.now }
{
    match hash_in(line) {
        Some(n) => n,
        None => line.len(),
    }
}

/// The place of the next blank from a place on, or the end.
#[tactic(auto, using(crate::proofs::Places::found_at, crate::proofs::Places::missing_at))]
fn word_end(code: &[u8], from: usize) -> usize
    requires { from ≤ length code.now }
    ensures next { result ≡ from + position_or_len is_blank (drop from code.now) }
    ensures within { result ≤ length code.now }
{
    match blank_in(&code[from..]) {
        Some(n) => from + n,
        None => code.len(),
    }
}

/// The place of the first line feed.
fn feed_in(bytes: &[u8]) -> Option<usize>
    ensures { result ≡ position is_feed bytes.now }
{
    bytes.iter().position(|b| *b == b'\n')
}

/// The place of the first `#`.
fn hash_in(bytes: &[u8]) -> Option<usize>
    ensures { result ≡ position is_hash bytes.now }
{
    bytes.iter().position(|b| *b == b'#')
}

/// The place of the first blank.
fn blank_in(bytes: &[u8]) -> Option<usize>
    ensures { result ≡ position is_blank bytes.now }
{
    bytes.iter().position(|b| is_blank_byte(*b))
}

/// The place of the first byte that may not stand in a line.
fn foreign_in(code: &[u8]) -> Option<usize>
    ensures { result ≡ position is_foreign code.now }
{
    code.iter().position(|b| is_foreign_byte(*b))
}

/// A line up to its comment.
pub fn code(line: &[u8]) -> &[u8]
    ensures { result.now ≡ code_of line.now }
{
    &line[..code_end(line)]
}

/// The place of the first byte before the comment of a line that may not stand there.
pub fn foreign(line: &[u8]) -> Option<usize>
    ensures { result ≡ foreign_place line.now }
{
    foreign_in(code(line))
}

/// Where the words of a line without comment stand.
fn spans(alloc: Global, code: &[u8]) -> Result<Vec<Span>, OutOfMemory>
    ensures read { IfOk result (λ v. map (text_at code.now) v.items ≡ words_of code.now) }
    ensures within { IfOk result (λ v. All (IsWithin (length code.now)) v.items) }
{
    let mut spans = Vec::new(alloc);
    let mut at = 0;
    while at < code.len() {
        if is_blank_byte(code[at]) {
            at += 1;
            continue;
        }
        let to = word_end(code, at);
        spans.push(Span { from: at, to })?;
        at = to;
    }
    Ok(spans)
}
