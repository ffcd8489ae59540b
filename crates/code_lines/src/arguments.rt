//! The arguments of a line, which stand between parentheses: words, numbers and buffers.
ghost use Rattle.std.specs.Prelude.{◌≡◌, ◌+◌, ◌≤◌, None, Some, IfOk, MatchOption, drop, is_none, length, map, position};
ghost use Rattle.std.specs.List.{position_or_len, slice_split};
ghost use Rattle.executive_program.specs.Archi.{ascends_from};
ghost use Rattle.macro_code.specs.Forms.{arguments_of, buffer_in, declared_by, declaration_in, each_in, is_comma, number_in};
ghost use Rattle.macro_code.specs.ReadText.{one_of, two_of};
ghost use Rattle.code_lines.specs.Views.{AreTwo, HasNumbers, HasWords, IsDeclaration, IsWord, texts_of};

use crate::form::cut_at;
use crate::word::{read_buffer, read_length, read_number, read_places};
use macro_code::CodeError;
use std::alloc::{AllocError, Global};
use std::marker::Model;

/// The arguments of a line, or that it has no parentheses. Contracts see the words, where there are parentheses.
#[derive(Drop)]
pub struct Arguments<'a> {
    list: Option<&'a [u8]>,
}

impl<'a> Model for Arguments<'a> {
    ghost use Rattle.std.specs.Prelude.{List, ℕ, Option, option_map};
    ghost use Rattle.macro_code.specs.Forms.{arguments_of};

    ghost Value = { Option (List (List ℕ)) };

    ghost view = { λ s. option_map (λ l. arguments_of l.now) s.list };
}

/// What commas separate; nothing is no argument.
pub fn cut_list<'a>(alloc: Global, list: &'a [u8]) -> Result<Vec<&'a [u8]>, CodeError>
    ensures { HasWords result (arguments_of list.now) }
{
    if list.is_empty() {
        return Ok(Vec::new(alloc));
    }
    let pieces = cut_pieces(alloc, list)?;
    Ok(pieces)
}

/// What commas separate, which is one piece at least.
fn cut_pieces(alloc: Global, list: &[u8]) -> Result<Vec<&[u8]>, AllocError>
    ensures { IfOk result (λ v. map (λ w. w.now) v.items ≡ slice_split is_comma list.now) }
{
    list.split(|byte| *byte == b',').collect(alloc)
}

impl<'a> Arguments<'a> {
    /// The line has no parentheses.
    pub fn none() -> Self
        ensures { result ≡ None }
    {
        Arguments { list: None }
    }

    /// What stands between the parentheses of a line.
    pub fn of(list: &'a [u8]) -> Self
        ensures { result ≡ Some (arguments_of list.now) }
    {
        Arguments { list: Some(list) }
    }

    /// There are no parentheses.
    pub fn is_absent(&self) -> bool
        ensures { result ≡ is_none self.now }
    {
        self.list.is_none()
    }

    /// What stands between the parentheses.
    pub fn list(&self) -> Option<&'a [u8]>
        ensures { MatchOption result (self.now ≡ None) (λ l. self.now ≡ Some (arguments_of l.now)) }
    {
        self.list
    }

    /// The one argument.
    pub fn one(&self) -> Option<&'a [u8]>
        ensures { IsWord result (one_of self.now) }
    {
        match self.list() {
            Some(list) => one_word(list),
            None => None,
        }
    }

    /// The two arguments.
    pub fn two(&self) -> Option<(&'a [u8], &'a [u8])>
        ensures { AreTwo result (two_of self.now) }
    {
        match self.list() {
            Some(list) => two_words(list),
            None => None,
        }
    }
}

/// The one word of a list.
fn one_word(list: &[u8]) -> Option<&[u8]>
    ensures { IsWord result (one_of (Some (arguments_of list.now))) }
{
    if list.is_empty() {
        return None;
    }
    match cut_at(list, b',') {
        None => Some(list),
        Some(_) => None,
    }
}

/// The two words of a list.
fn two_words(list: &[u8]) -> Option<(&[u8], &[u8])>
    ensures { AreTwo result (two_of (Some (arguments_of list.now))) }
{
    let Some((first, second)) = cut_at(list, b',') else {
        return None;
    };
    match cut_at(second, b',') {
        None => Some((first, second)),
        Some(_) => None,
    }
}

/// The numbers that these words are, if each is one.
pub fn numbers(alloc: Global, words: &[&[u8]]) -> Result<Option<Vec<u64>>, CodeError>
    ensures { HasNumbers result (each_in number_in (texts_of words.now)) }
{
    let mut numbers = Vec::new(alloc);
    for word in words {
        match read_number(word) {
            Some(number) => numbers.push(number)?,
            None => return Ok(None),
        }
    }
    Ok(Some(numbers))
}

/// The numbers of the buffers that the words of a list name, if each names one.
pub fn buffers(alloc: Global, list: &[u8]) -> Result<Option<Vec<u64>>, CodeError>
    ensures { HasNumbers result (each_in buffer_in (arguments_of list.now)) }
{
    if list.is_empty() {
        return Ok(Some(Vec::new(alloc)));
    }
    piece_buffers(alloc, list)
}

/// The numbers of the buffers that what commas separate names, if each piece names one.
fn piece_buffers(alloc: Global, list: &[u8]) -> Result<Option<Vec<u64>>, CodeError>
    ensures { HasNumbers result (each_in buffer_in (slice_split is_comma list.now)) }
{
    let mut numbers = Vec::with_capacity(alloc, commas(list) + 1)?;
    let mut from = 0;
    while from <= list.len() {
        let to = piece_end(list, from);
        match read_buffer(&list[from..to]) {
            Some(number) => numbers.push(number)?,
            None => return Ok(None),
        }
        from = to + 1;
    }
    Ok(Some(numbers))
}

/// How many commas stand in a list.
fn commas(list: &[u8]) -> usize
    ensures { result ≤ length list.now }
{
    let mut commas = 0;
    for byte in list {
        commas += usize::from(*byte == b',');
    }
    commas
}

/// The place of the next comma, or the end.
#[tactic(auto, using(text_lines::proofs::Places::found_at, text_lines::proofs::Places::missing_at))]
fn piece_end(list: &[u8], from: usize) -> usize
    requires { from ≤ length list.now }
    ensures next { result ≡ from + position_or_len is_comma (drop from list.now) }
    ensures within { result ≤ length list.now }
{
    match comma_in(&list[from..]) {
        Some(n) => from + n,
        None => list.len(),
    }
}

/// The place of the first comma.
fn comma_in(list: &[u8]) -> Option<usize>
    ensures { result ≡ position is_comma list.now }
{
    list.iter().position(|byte| *byte == b',')
}

/// Each number is above the one before it.
pub fn ascends(numbers: &[u64]) -> bool
    ensures { result ≡ ascends_from 0 numbers.now }
{
    let mut least = 0;
    for number in numbers {
        if u128::from(*number) < least {
            return false;
        }
        least = u128::from(*number) + 1;
    }
    true
}

/// A buffer as its line declares it: its number, its length, at least 1, and its places, 1 to 4.
#[derive(Clone, Copy, Drop)]
pub struct Declaration {
    pub number: u64,
    pub len: u64,
    pub depth: u32,
}

/// bN,LEN or bN,LEN,PLACES
pub fn read_declaration(list: &[u8]) -> Option<Declaration>
    ensures { IsDeclaration result (declaration_in (arguments_of list.now)) }
{
    let Some((buffer, rest)) = cut_at(list, b',') else {
        return None;
    };
    let Some((len, places)) = cut_at(rest, b',') else {
        return make_declaration(read_buffer(buffer), read_length(rest), Some(1));
    };
    match cut_at(places, b',') {
        None => make_declaration(read_buffer(buffer), read_length(len), read_places(places)),
        Some(_) => None,
    }
}

/// The buffer with these numbers, if each is there.
fn make_declaration(
    number: Option<u64>,
    len: Option<u64>,
    depth: Option<u32>,
) -> Option<Declaration>
    ensures { IsDeclaration result (declared_by number len depth) }
{
    match (number, len, depth) {
        (Some(number), Some(len), Some(depth)) => Some(Declaration { number, len, depth }),
        _ => None,
    }
}
