//! The names that a text may use: operations, operators and media, each with its number.
ghost use Rattle.std.specs.Prelude.{◌≡◌, IfOk, IfSome, ◌<◌, length, map, position, true};
ghost use Rattle.std.specs.Str.{bytes_eq};
ghost use Rattle.executive_program.specs.FlatValid.{are_named_apart};
ghost use Rattle.macro_code.specs.ReadText.{is_among, medium_names, medium_of, name_of, operation_names, known, operator_of, place_in, processor_of, thread_of};
ghost use Rattle.text_lines.specs.Refusals.{Gives};
ghost use Rattle.code_lines.specs.Views.{GivesJoined, GivesWord};
ghost use Rattle.code_lines.specs.Setting.{Setting};

use crate::arguments::Arguments;
use crate::fault::{bad_argument, unknown_name};
use crate::word::is_name;
use executive_program::{Archi, Flat, Medium, Vertex};
use macro_code::{CodeError, are_followed_by, follows};
use std::alloc::Global;
use std::marker::Model;
use syn_base::{Name, OutOfMemory};
use text_lines::{Names, TableKey};

/// The names of the operations of a flat graph, by hash, and an architecture. Contracts see both.
#[derive(Drop)]
pub struct Known<'a> {
    operations: Names<'a>,
    archi: &'a Archi,
}

impl<'a> Model for Known<'a> {
    ghost use Rattle.std.specs.Prelude.{◌≤◌, length};
    ghost use Rattle.syn_base.specs.Limits.{most_operations};
    ghost use Rattle.code_lines.specs.Setting.{Setting};

    ghost Value = { Setting };

    ghost view = { λ s. record { operations = s.operations; archi = s.archi.now } };

    ghost invariant = { λ s. length s.operations ≤ most_operations };
}

/// A medium, by its name in a line and by its number.
#[derive(Clone, Copy)]
pub struct Joined<'a> {
    pub word: &'a [u8],
    pub medium: u32,
}

/// The names of operations, each at the place of its operation.
fn operations_of<'a>(alloc: Global, vertices: &'a [Vertex]) -> Result<Names<'a>, OutOfMemory>
    requires { are_named_apart vertices.now ≡ true }
    ensures { IfOk result (λ names. names ≡ map (λ x. x.name) vertices.now) }
{
    let key = TableKey::of_names(vertices.iter().map(|vertex| vertex.name.as_slice()));
    let mut names = Names::new(alloc, key);
    for vertex in vertices {
        names.add(vertex.name.as_slice())?;
    }
    Ok(names)
}

/// The place of the operator of a name.
fn operator_at(operators: &[Name], word: &[u8]) -> Option<usize>
    ensures place { result ≡ place_in operators.now word.now }
    ensures within { IfSome result (λ k. k < length operators.now) }
{
    operators
        .iter()
        .position(|operator| word == operator.as_bytes())
}

/// The place of the medium of a name. That it is one among the names of the media takes a lemma.
fn medium_named(media: &[Medium], word: &[u8]) -> Option<usize>
    ensures place { result ≡ position (λ m. bytes_eq word.now m.name) media.now }
    ensures within { IfSome result (λ k. k < length media.now) }
{
    media
        .iter()
        .position(|medium| word == medium.name.as_bytes())
}

/// The place of the medium of a name, among the names of the media.
fn medium_at(media: &[Medium], word: &[u8]) -> Option<usize>
    ensures place { result ≡ place_in (map (λ m. m.name) media.now) word.now }
    ensures within { IfSome result (λ k. k < length media.now) }
{
    medium_named(media, word)
}

/// Whether a medium is among these.
fn has(media: &[u32], medium: u32) -> bool
    ensures { result ≡ is_among media.now medium }
{
    media.iter().any(|known| *known == medium)
}

impl<'a> Known<'a> {
    /// What a flat graph and an architecture have.
    pub fn of(alloc: Global, flat: &'a Flat, archi: &'a Archi) -> Result<Known<'a>, OutOfMemory>
        ensures { IfOk result
            (λ k. k ≡ record { operations = operation_names flat.now; archi = archi.now }) }
    {
        let operations = operations_of(alloc, flat.vertices())?;
        Ok(Known { operations, archi })
    }

    /// How many media there are.
    pub fn media(&self) -> u32
        ensures { result ≡ length self.now.archi.media }
    {
        self.archi.media().len() as u32
    }

    /// The number of an operation.
    pub fn operation(&self, word: &[u8]) -> Option<u32>
        ensures { result ≡ place_in self.now.operations word.now }
    {
        match self.operations.find(word) {
            Some(place) => Some(place as u32),
            None => None,
        }
    }

    /// The number of an operator.
    pub fn operator(&self, alloc: Global, line: u32, word: &[u8]) -> Result<u32, CodeError>
        ensures { Gives result (operator_of self.now.archi line word.now) }
    {
        match operator_at(self.archi.operators(), word) {
            Some(place) => Ok(place as u32),
            None => Err(unknown_name(alloc, line, word)),
        }
    }

    /// processor_(OPERATOR), above the last one.
    pub fn processor(
        &self,
        alloc: Global,
        line: u32,
        last: Option<u32>,
        arguments: &Arguments,
    ) -> Result<u32, CodeError>
        ensures { Gives result (processor_of self.now.archi line last arguments.now) }
    {
        let word = name_of(line, arguments)?;
        let operator = self.operator(alloc, line, word)?;
        if follows(last, operator) {
            Ok(operator)
        } else {
            Err(bad_argument(line))
        }
    }

    /// The number of a medium.
    fn medium(&self, alloc: Global, line: u32, word: &[u8]) -> Result<u32, CodeError>
        ensures { Gives result
            (known line word.now (place_in (medium_names self.now.archi) word.now)) }
    {
        match medium_at(self.archi.media(), word) {
            Some(place) => Ok(place as u32),
            None => Err(unknown_name(alloc, line, word)),
        }
    }

    /// A medium that is above the last one of these.
    pub fn next_medium<'b>(
        &self,
        alloc: Global,
        line: u32,
        media: &[u32],
        arguments: &Arguments<'b>,
    ) -> Result<Joined<'b>, CodeError>
        ensures { GivesJoined result (medium_of self.now.archi line media.now arguments.now) }
    {
        let word = name_of(line, arguments)?;
        let medium = self.medium(alloc, line, word)?;
        if are_followed_by(media, medium) {
            Ok(Joined { word, medium })
        } else {
            Err(bad_argument(line))
        }
    }

    /// A medium that is above the last one of these, and at which the processor has one of these threads.
    pub fn thread(
        &self,
        alloc: Global,
        line: u32,
        threads: &[u32],
        media: &[u32],
        arguments: &Arguments,
    ) -> Result<u32, CodeError>
        ensures { Gives result (thread_of self.now.archi line threads.now media.now arguments.now) }
    {
        let joined = self.next_medium(alloc, line, media, arguments)?;
        if has(threads, joined.medium) {
            Ok(joined.medium)
        } else {
            Err(unknown_name(alloc, line, joined.word))
        }
    }
}

/// The one argument of a line, which is a name.
fn name_of<'a>(line: u32, arguments: &Arguments<'a>) -> Result<&'a [u8], CodeError>
    ensures { GivesWord result (name_of line arguments.now) }
{
    let Some(word) = arguments.one() else {
        return Err(bad_argument(line));
    };
    if !is_name(word) {
        return Err(bad_argument(line));
    }
    Ok(word)
}
