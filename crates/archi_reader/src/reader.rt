//! The reader of a text, line by line; `read_archi` is the call of the commands.
ghost use Rattle.std.specs.Prelude.{◌<◌, ◌≤◌, length};
ghost use Rattle.syn_base.specs.Limits.{most_in_text};
ghost use Rattle.text_lines.specs.Text.{lines_of};
ghost use Rattle.archi_defs.specs.Text.{description_of, start, version_line, operator_line, medium_line, connect_line, duration_line, depth_line, connected, described_line, next_line};
ghost use Rattle.archi_reader.specs.Given.{Gives, MakesReader};
ghost use Rattle.text_lines.specs.Refusals.{Steps};
ghost use Rattle.archi_reader.specs.Views.{reading, IsSound};

use crate::durations::Durations;
use crate::fault::{bad_line, bad_name, bad_number, duplicate, not_text, unknown};
use crate::names::{is_taken, medium_at, operator_at};
use crate::word::{is_kind, kind_of, read_depth, read_up_to, read_version};
use archi_defs::{ArchiError, ArchiText, Medium, has_stand, with_stand};
use std::alloc::Global;
use syn_base::{Items, LimitKind, Name};
use text_lines::{TableKey, Words, check_limit, read_name};

/// The most ticks of a transfer, fixed and for each element.
const MOST_TRANSFER_TICKS: u32 = 1_000_000;
/// The most ticks of a duration.
const MOST_TICKS: u32 = 1_000_000_000;

/// What was read so far.
#[derive(Drop)]
pub struct Reader<'a> {
    /// The version, once its line was read.
    pub version: Option<u32>,
    /// The depth, once its line was read.
    pub depth: Option<u32>,
    pub operators: Vec<Name>,
    pub media: Vec<Medium>,
    /// The lines of the media.
    pub lines: Vec<u32>,
    pub connections: usize,
    pub durations: Durations<'a>,
}

impl<'a> Reader<'a> {
    /// Nothing was read yet of the text with this key.
    pub fn new(alloc: Global, key: TableKey) -> Result<Reader<'a>, ArchiError>
        ensures { MakesReader result start }
    {
        Ok(Reader {
            version: None,
            depth: None,
            operators: Vec::new(alloc),
            media: Vec::new(alloc),
            lines: Vec::new(alloc),
            connections: 0,
            durations: Durations::new(alloc, key)?,
        })
    }

    /// architecture 1 and architecture 2
    fn version_line(&mut self, number: u32, words: &Words) -> Result<(), ArchiError>
        requires { 0 < length words.now }
        ensures { Steps result (reading self.new) (version_line (reading self.old) number words.now) }
    {
        if words.len() != 2 {
            return Err(bad_line(number));
        }
        if !words.begins(b"architecture") {
            return Err(bad_line(number));
        }
        let Some(version) = read_version(words.get(1)) else {
            return Err(bad_line(number));
        };
        self.version = Some(version);
        Ok(())
    }

    /// operator NAME
    fn operator_line(&mut self, alloc: Global, number: u32, words: &Words) -> Result<(), ArchiError>
        ensures { Steps result (reading self.new) (operator_line (reading self.old) number words.now) }
    {
        if words.len() != 2 {
            return Err(bad_line(number));
        }
        let word = words.get(1);
        let Some(name) = read_name(alloc, word)? else {
            return Err(bad_name(alloc, number, word));
        };
        if is_taken(&self.operators, &self.media, word) {
            return Err(duplicate(alloc, number, word));
        }
        let count = self.operators.len() as u128 + 1;
        check_limit(LimitKind::Operators, count)?;
        self.operators.push(name)?;
        Ok(())
    }

    /// medium NAME p2p FIXED PER and medium NAME multi FIXED PER
    fn medium_line(&mut self, alloc: Global, number: u32, words: &Words) -> Result<(), ArchiError>
        ensures { Steps result (reading self.new) (medium_line (reading self.old) number words.now) }
    {
        if words.len() != 5 {
            return Err(bad_line(number));
        }
        if !is_kind(words.get(2)) {
            return Err(bad_line(number));
        }
        let word = words.get(1);
        let Some(name) = read_name(alloc, word)? else {
            return Err(bad_name(alloc, number, word));
        };
        let Some(fixed) = read_up_to(MOST_TRANSFER_TICKS, words.get(3)) else {
            return Err(bad_number(alloc, number, words.get(3)));
        };
        let Some(per) = read_up_to(MOST_TRANSFER_TICKS, words.get(4)) else {
            return Err(bad_number(alloc, number, words.get(4)));
        };
        if is_taken(&self.operators, &self.media, word) {
            return Err(duplicate(alloc, number, word));
        }
        let count = self.media.len() as u128 + 1;
        check_limit(LimitKind::Media, count)?;
        let medium = Medium {
            name,
            kind: kind_of(words.get(2)),
            fixed,
            per,
            stands: Items::new(Vec::new(alloc)),
        };
        self.media.push(medium)?;
        self.lines.push(number)?;
        Ok(())
    }

    /// Connects an operator to a medium, both by number.
    fn connect(
        &mut self,
        alloc: Global,
        number: u32,
        word: &[u8],
        medium: usize,
        operator: u32,
    ) -> Result<(), ArchiError>
        requires medium { medium < length self.old.media.items }
        ensures { Steps result (reading self.new) (connected (reading self.old) number word.now medium operator) }
    {
        if has_stand(&self.media[medium], operator) {
            return Err(duplicate(alloc, number, word));
        }
        let count = self.connections as u128 + 1;
        check_limit(LimitKind::Connections, count)?;
        let stands = with_stand(alloc, operator, self.media[medium].stands.as_slice())?;
        self.media[medium].stands = stands;
        self.connections += 1;
        Ok(())
    }

    /// connect MEDIUM OPERATOR
    fn connect_line(&mut self, alloc: Global, number: u32, words: &Words) -> Result<(), ArchiError>
        requires { IsSound (reading self.old) }
        ensures { Steps result (reading self.new) (connect_line (reading self.old) number words.now) }
    {
        if words.len() != 3 {
            return Err(bad_line(number));
        }
        if read_name(alloc, words.get(1))?.is_none() {
            return Err(bad_name(alloc, number, words.get(1)));
        }
        if read_name(alloc, words.get(2))?.is_none() {
            return Err(bad_name(alloc, number, words.get(2)));
        }
        let Some(medium) = medium_at(&self.media, words.get(1)) else {
            return Err(unknown(alloc, number, words.get(1)));
        };
        let Some(operator) = operator_at(&self.operators, words.get(2)) else {
            return Err(unknown(alloc, number, words.get(2)));
        };
        self.connect(alloc, number, words.get(2), medium, operator as u32)
    }

    /// duration DEF OPERATOR TICKS
    fn duration_line(
        &mut self,
        alloc: Global,
        number: u32,
        words: &Words<'a>,
    ) -> Result<(), ArchiError>
        requires { IsSound (reading self.old) }
        ensures { Steps result (reading self.new) (duration_line (reading self.old) number words.now) }
    {
        if words.len() != 4 {
            return Err(bad_line(number));
        }
        let word = words.get(1);
        let Some(def) = read_name(alloc, word)? else {
            return Err(bad_name(alloc, number, word));
        };
        if read_name(alloc, words.get(2))?.is_none() {
            return Err(bad_name(alloc, number, words.get(2)));
        }
        let Some(ticks) = read_up_to(MOST_TICKS, words.get(3)) else {
            return Err(bad_number(alloc, number, words.get(3)));
        };
        let Some(operator) = operator_at(&self.operators, words.get(2)) else {
            return Err(unknown(alloc, number, words.get(2)));
        };
        if self.durations.has(word, operator as u32) {
            return Err(duplicate(alloc, number, word));
        }
        self.durations.add(def, word, operator as u32, ticks)?;
        Ok(())
    }

    /// depth D, once, and not in version 1
    fn depth_line(
        &mut self,
        alloc: Global,
        number: u32,
        version: u32,
        words: &Words,
    ) -> Result<(), ArchiError>
        ensures { Steps result (reading self.new) (depth_line (reading self.old) number version words.now) }
    {
        if words.len() != 2 || version == 1 || self.depth.is_some() {
            return Err(bad_line(number));
        }
        let Some(depth) = read_depth(words.get(1)) else {
            return Err(bad_number(alloc, number, words.get(1)));
        };
        self.depth = Some(depth);
        Ok(())
    }

    /// A line after the version line.
    fn described_line(
        &mut self,
        alloc: Global,
        number: u32,
        version: u32,
        words: &Words<'a>,
    ) -> Result<(), ArchiError>
        requires some { 0 < length words.now }
        requires sound { IsSound (reading self.old) }
        ensures { Steps result (reading self.new) (described_line (reading self.old) number version words.now) }
    {
        if words.begins(b"operator") {
            return self.operator_line(alloc, number, words);
        }
        if words.begins(b"medium") {
            return self.medium_line(alloc, number, words);
        }
        if words.begins(b"connect") {
            return self.connect_line(alloc, number, words);
        }
        if words.begins(b"duration") {
            return self.duration_line(alloc, number, words);
        }
        if words.begins(b"depth") {
            return self.depth_line(alloc, number, version, words);
        }
        Err(bad_line(number))
    }

    /// Reads the next line.
    pub fn next_line(
        &mut self,
        alloc: Global,
        number: u32,
        line: &'a [u8],
    ) -> Result<(), ArchiError>
        requires { IsSound (reading self.old) }
        ensures { Steps result (reading self.new) (next_line (reading self.old) number line.now) }
    {
        if let Some(place) = text_lines::foreign(line) {
            return Err(not_text(number, place));
        }
        let words = Words::of(alloc, text_lines::code(line))?;
        if words.len() == 0 {
            return Ok(());
        }
        match self.version {
            Some(version) => self.described_line(alloc, number, version, &words),
            None => self.version_line(number, &words),
        }
    }
}

/// The architecture and the durations of a text, or its first refusal: in the order of its lines
/// Refused with the line and the cause, or Limit; then Refused for the whole. OutOfMemory may come in
/// place of any answer.
pub fn read_archi(alloc: Global, bytes: &[u8]) -> Result<ArchiText, ArchiError>
    requires { length (lines_of bytes.now) ≤ most_in_text }
    ensures { Gives result (description_of bytes.now) }
{
    let mut reader = Reader::new(alloc, TableKey::of_text(bytes))?;
    let mut from = 0;
    let mut number = 1;
    while from < bytes.len() {
        let to = text_lines::line_end(bytes, from);
        reader.next_line(alloc, number, &bytes[from..to])?;
        number += 1;
        from = to + 1;
    }
    reader.whole(alloc, number)
}
