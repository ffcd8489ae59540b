//! In which lines of a text of macro-code the instructions of its program stand.
ghost use Rattle.std.specs.Prelude.{◌≡◌, IfOk, OnOk, position, slice_get};
ghost use Rattle.std.specs.Str.{bytes_eq};
ghost use Rattle.macro_code.specs.Forms.{before, is_open};
ghost use Rattle.why_text.specs.Lines.{begun_at, head_at, head_of, is_instruction, line_at, lines_in, lines_of_part, nothing, seen};
ghost use Rattle.executive_program.specs.Instructions.{number_or};

use check_places::{Part, Spot};
use std::alloc::Global;
use std::mem;
use syn_base::{Items, OutOfMemory};
use text_lines::{Words, code, line_end};

/// What a line is, by the name with which it begins.
#[derive(Clone, Copy, Drop)]
pub enum Head {
    /// A thread or the main part begins.
    Begin,
    /// Its loop begins.
    Loop,
    /// An instruction, before a loop or in it.
    Instruction,
    /// A thread ends.
    EndThread,
    /// The main part ends, and with it the processor.
    EndMain,
    /// A declaration, the start of a thread and the like, and a line without words.
    Other,
}

/// The lines of a sequence, from 1: the one at which it begins, and those of its instructions.
#[derive(Drop)]
pub struct SequenceLines {
    pub begin: usize,
    pub prologue: Items<usize>,
    pub turn: Items<usize>,
}

/// Whether a name is this word.
fn is(name: &[u8], word: &[u8]) -> bool
    ensures { result ≡ bytes_eq name.now word.now }
{
    name == word
}

/// Whether an instruction begins with a name.
fn is_instruction(name: &[u8]) -> bool
    ensures { result ≡ is_instruction name.now }
{
    is(name, b"op")
        || is(name, b"Suc0_")
        || is(name, b"Suc1_")
        || is(name, b"Pre0_")
        || is(name, b"Pre1_")
        || is(name, b"send_")
        || is(name, b"recv_")
        || is(name, b"sync_")
}

/// What a line is that begins with a name.
fn head_of(name: &[u8]) -> Head
    ensures { result ≡ head_of name.now }
{
    if is(name, b"thread_") || is(name, b"main_") {
        Head::Begin
    } else if is(name, b"loop_") {
        Head::Loop
    } else if is_instruction(name) {
        Head::Instruction
    } else if is(name, b"endthread_") {
        Head::EndThread
    } else if is(name, b"endmain_") {
        Head::EndMain
    } else {
        Head::Other
    }
}

/// The place of the first opening parenthesis of a word.
fn open_in(word: &[u8]) -> Option<usize>
    ensures { result ≡ position is_open word.now }
{
    word.iter().position(|b| *b == b'(')
}

/// A word up to its opening parenthesis.
fn name_of(word: &[u8]) -> &[u8]
    ensures { result.now ≡ before is_open word.now }
{
    match open_in(word) {
        Some(place) => &word[..place],
        None => word,
    }
}

/// What a line is.
fn head_at(alloc: Global, line: &[u8]) -> Result<Head, OutOfMemory>
    ensures { IfOk result (λ head. head ≡ head_at line.now) }
{
    let words = Words::of(alloc, code(line))?;
    if words.len() == 0 {
        return Ok(Head::Other);
    }
    Ok(head_of(name_of(words.get(0))))
}

/// What was seen of a text so far.
#[derive(Drop)]
pub struct Seen {
    pub alloc: Global,
    pub in_loop: bool,
    /// Of the sequence that began last.
    pub begin: usize,
    pub prologue: Vec<usize>,
    pub turn: Vec<usize>,
    /// The threads that ended of the processor that has not, and the sequences of those that have.
    pub threads: Vec<SequenceLines>,
    pub done: Vec<SequenceLines>,
}

impl Seen {
    ghost use Rattle.why_text.specs.Views.{view};

    /// Nothing yet.
    fn new(alloc: Global) -> Seen
        ensures { view result ≡ nothing }
    {
        Seen {
            alloc,
            in_loop: false,
            begin: 0,
            prologue: Vec::new(alloc),
            turn: Vec::new(alloc),
            threads: Vec::new(alloc),
            done: Vec::new(alloc),
        }
    }

    /// A sequence begins at a line.
    fn begin_at(&mut self, line: usize)
        ensures { view self.new ≡ seen (view self.old) line Head.Begin }
    {
        self.in_loop = false;
        self.begin = line;
        self.prologue = Vec::new(self.alloc);
        self.turn = Vec::new(self.alloc);
    }

    /// An instruction more.
    fn add(&mut self, line: usize) -> Result<(), OutOfMemory>
        ensures { OnOk result (view self.new ≡ seen (view self.old) line Head.Instruction) }
    {
        if self.in_loop {
            self.turn.push(line)?;
        } else {
            self.prologue.push(line)?;
        }
        Ok(())
    }

    /// The lines of the sequence that began last, which are taken away.
    fn take_here(&mut self) -> SequenceLines
        ensures here { result ≡ (view self.old).here }
        ensures left { view self.new ≡ record (view self.old) { here = begun_at 0 } }
    {
        let begin = mem::replace(&mut self.begin, 0);
        let prologue = mem::replace(&mut self.prologue, Vec::new(self.alloc));
        let turn = mem::replace(&mut self.turn, Vec::new(self.alloc));
        SequenceLines {
            begin,
            prologue: Items::new(prologue),
            turn: Items::new(turn),
        }
    }

    /// A thread ends.
    fn end_thread(&mut self, line: usize) -> Result<(), OutOfMemory>
        ensures { OnOk result (view self.new ≡ seen (view self.old) line Head.EndThread) }
    {
        let here = self.take_here();
        self.threads.push(here)?;
        Ok(())
    }

    /// A main part ends.
    fn end_main(&mut self, line: usize) -> Result<(), OutOfMemory>
        ensures { OnOk result (view self.new ≡ seen (view self.old) line Head.EndMain) }
    {
        let here = self.take_here();
        self.done.push(here)?;
        self.done.append(&mut self.threads)?;
        Ok(())
    }

    /// A line more.
    fn see(&mut self, line: usize, head: Head) -> Result<(), OutOfMemory>
        ensures { OnOk result (view self.new ≡ seen (view self.old) line head) }
    {
        match head {
            Head::Begin => {
                self.begin_at(line);
                Ok(())
            }
            Head::Loop => {
                self.in_loop = true;
                Ok(())
            }
            Head::Instruction => self.add(line),
            Head::EndThread => self.end_thread(line),
            Head::EndMain => self.end_main(line),
            Head::Other => Ok(()),
        }
    }
}

/// The lines of each sequence of a text of macro-code, in the order of its program.
pub fn find_lines(alloc: Global, text: &[u8]) -> Result<Vec<SequenceLines>, OutOfMemory>
    ensures { IfOk result (λ found. found.items ≡ lines_in text.now) }
{
    let mut seen = Seen::new(alloc);
    let mut from = 0;
    let mut number = 1;
    while from < text.len() {
        let to = line_end(text, from);
        let head = head_at(alloc, &text[from..to])?;
        seen.see(number, head)?;
        number += 1;
        from = to + 1;
    }
    let Seen { done, .. } = seen;
    Ok(done)
}

/// The lines of a part of a sequence.
fn lines_of_part(part: Part, lines: &SequenceLines) -> &[usize]
    ensures { result.now ≡ lines_of_part part lines.now }
{
    match part {
        Part::Prologue => lines.prologue.as_slice(),
        Part::Loop => lines.turn.as_slice(),
    }
}

/// A line at a place, or another one past the end.
fn line_or(begin: usize, lines: &[usize], at: usize) -> usize
    ensures { result ≡ number_or begin (slice_get lines.now at) }
{
    match lines.get(at) {
        Some(line) => *line,
        None => begin,
    }
}

/// The line of an instruction; that at which its sequence begins where it is past the last one.
pub fn line_at(all: &[SequenceLines], spot: Spot) -> Option<usize>
    ensures { result ≡ line_at all.now spot }
{
    match all.get(spot.sequence) {
        Some(lines) => Some(line_or(lines.begin, lines_of_part(spot.part, lines), spot.at)),
        None => None,
    }
}
