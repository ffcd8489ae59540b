//! The words of a line: `Words`, which the readers go through line by line, and the name that a word is.
ghost use Rattle.std.specs.Prelude.{◌≡◌, ◌<◌, List, ℕ, map, length, slice_index_or, [], All, IfOk, MatchOption, true, false};
ghost use Rattle.std.specs.Str.{bytes_eq};
ghost use Rattle.syn_base.specs.Name.{is_name};
ghost use Rattle.text_lines.specs.Text.{text_at, IsWithin, words_of, some_name};

use crate::{Span, spans};
use std::alloc::Global;
use std::marker::Model;
use syn_base::{Name, NameFault, OutOfMemory};

/// The words of a line, seen as their bytes.
#[derive(Drop)]
pub struct Words<'a> {
    line: &'a [u8],
    spans: Vec<Span>,
}

impl<'a> Model for Words<'a> {
    ghost use Rattle.std.specs.Prelude.{List, ℕ, map, length as len_of, All};
    ghost use Rattle.text_lines.specs.Text.{text_at, IsWithin};

    ghost Value = { List (List ℕ) };

    ghost view = { λ w. map (text_at w.line.now) w.spans.items };

    ghost invariant = { λ w. All (IsWithin (len_of w.line.now)) w.spans.items };
}

impl<'a> Words<'a> {
    /// The words of a line without comment.
    pub fn of(alloc: Global, code: &'a [u8]) -> Result<Words<'a>, OutOfMemory>
        ensures { IfOk result (λ words. words ≡ words_of code.now) }
    {
        Ok(Words {
            line: code,
            spans: spans(alloc, code)?,
        })
    }

    /// How many words there are.
    pub fn len(&self) -> usize
        ensures { result ≡ length self.now }
    {
        self.spans.len()
    }

    /// A word.
    pub fn get(&self, k: usize) -> &'a [u8]
        requires { k < length self.now }
        ensures { result.now ≡ slice_index_or self.now k [] }
    {
        let span = self.spans[k];
        &self.line[span.from..span.to]
    }

    /// Whether the line begins with this word.
    pub fn begins(&self, key: &[u8]) -> bool
        requires { 0 < length self.now }
        ensures { result ≡ bytes_eq (slice_index_or self.now 0 []) key.now }
    {
        self.get(0) == key
    }
}

/// The name that a word is, or none where it is no name.
pub fn read_name(alloc: Global, word: &[u8]) -> Result<Option<Name>, OutOfMemory>
    ensures name { IfOk result (λ name. name ≡ some_name word.now) }
    ensures is { IfOk result (λ name. MatchOption name (is_name word.now ≡ false) (λ _. is_name word.now ≡ true)) }
{
    match Name::new(alloc, word) {
        Ok(name) => Ok(Some(name)),
        Err(NameFault::BadName) => Ok(None),
        Err(NameFault::OutOfMemory) => Err(OutOfMemory),
    }
}
