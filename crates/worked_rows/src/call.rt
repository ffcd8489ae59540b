//! The call of the program, and what the transcript has of it. `player` makes it.

use crate::conditions::{Conditions, Sweep};
use crate::cuts::call_cuts;
use crate::faults::call_faults;
use crate::file::{File, bytes_of};
use crate::gate::CallGate;
use crate::shelf::PacedShelf;
use crate::spoilt::call_spoilt;
use lab_program::syndex_lab;
use std::alloc::{AllocError, Global};
use std::io::Write;
use std::rt::Files;
use std::sync::Wait;
use std::thread::Threads;
use std::{io, str};
use syn_base::Items;
use syndex_program::{plain_command, syndex};
use word_table::Driven;
use worked_parts::{ShelfMem, SinkMem};

/// What a call reads and writes, and what it drives.
#[derive(Drop)]
pub struct Outside {
    pub shelf: PacedShelf,
    pub out: SinkMem,
    pub err: SinkMem,
    driven: Driven,
}

/// Calls the program with these words, and writes the call and its answers into the transcript. What is to be kept of a
/// call that is made once is returned as a file.
pub fn call<R: Files + Print + AllocGlobal + Threads + Wait + Sync>(
    rt: &R,
    files: &[File],
    words: &str,
    holds: &Conditions,
) -> io::Result<Option<File>> {
    println!(rt; "$ {words}")?;
    let given = words_of(rt.alloc(), words)?;
    match &holds.sweep {
        Sweep::Once => return call_once(rt, files, &given, holds),
        Sweep::Cuts(name) => call_cuts(rt, files, &given, holds, name.as_str())?,
        Sweep::Spoilt(name) => call_spoilt(rt, files, &given, holds, name.as_str())?,
        Sweep::Faults => call_faults(rt, files, &given, holds)?,
    }
    Ok(None)
}

/// Calls the program with these words, and writes its answers into the transcript.
fn call_once<R: Files + Print + AllocGlobal + Threads + Wait + Sync>(
    rt: &R,
    files: &[File],
    words: &[String],
    holds: &Conditions,
) -> io::Result<Option<File>> {
    let mut outside = outside_for(rt, files, words, holds)?;
    let gate = CallGate::new(holds.gate);
    let number = answered(rt, words, &mut outside, &gate);
    write_answers(rt, files, holds, &outside, number)?;
    gate.seen().write(rt)?;
    match &holds.keep {
        Some(name) => Ok(Some(kept_as(rt.alloc(), name.as_str(), outside.out.bytes())?)),
        None => Ok(None),
    }
}

/// A file of this name with these bytes.
fn kept_as(alloc: Global, name: &str, bytes: &[u8]) -> Result<File, AllocError> {
    let mut file = File::new(alloc, name)?;
    file.bytes.extend_from_slice(bytes)?;
    Ok(file)
}

/// The files that the words name, and sinks of which this is said.
pub fn outside_for<R: Files + AllocGlobal>(
    rt: &R,
    files: &[File],
    words: &[String],
    holds: &Conditions,
) -> io::Result<Outside> {
    let alloc = rt.alloc();
    let out = holds.out.sink(alloc)?;
    let err = holds.err.sink(alloc)?;
    let shelf = shelf_for(rt, files, words, holds)?;
    Ok(Outside {
        shelf,
        out,
        err,
        driven: Driven::new(alloc),
    })
}

/// The number of the status with which the program answers these words, where this gate is asked before each
/// step. It stands by itself, so that whoever calls it has no clause of the top call to carry along.
pub fn answered<R: AllocGlobal + Threads + Wait + Sync>(
    rt: &R,
    words: &[String],
    outside: &mut Outside,
    gate: &CallGate,
) -> u8 {
    let alloc = rt.alloc();
    if is_called(words, "syndex_plain") {
        return answered_plainly(alloc, words, outside);
    }
    let Outside {
        shelf,
        out,
        err,
        driven,
    } = outside;
    if is_called(words, "syndex_lab") {
        return syndex_lab(alloc, words, shelf, out, err).number();
    }
    syndex(rt, alloc, words, shelf, out, err, gate, driven).number()
}

/// Whether the first word, which names the program, is this one.
fn is_called(words: &[String], name: &str) -> bool {
    words.first().is_some_and(|word| word.as_str() == name)
}

/// What stands in the transcript for a command that `plain_command` leaves, which is the number of no status.
const LEFT: u8 = 255;

/// The number of the status that `plain_command` answers.
fn answered_plainly(alloc: Global, words: &[String], outside: &mut Outside) -> u8 {
    let Outside {
        shelf,
        out,
        err,
        ..
    } = outside;
    match plain_command(alloc, words, shelf, out, err) {
        Some(status) => status.number(),
        None => LEFT,
    }
}

/// Writes the output of a call, its line, its status, and what else is asked for.
fn write_answers<R: Files + Print + AllocGlobal>(
    rt: &R,
    files: &[File],
    holds: &Conditions,
    outside: &Outside,
    number: u8,
) -> io::Result<()> {
    if holds.sum {
        write_sum(rt, outside.out.bytes())?;
    } else {
        write_output(rt, files, holds, outside.out.bytes())?;
    }
    write_line(rt, outside.err.bytes())?;
    println!(rt; "= {number}")?;
    if holds.counts {
        write_counts(rt, &outside.shelf.files, &outside.out)?;
    }
    if holds.driven {
        write_driven(rt, &outside.driven)?;
    }
    if holds.words {
        write_words(rt, &outside.driven)?;
    }
    Ok(())
}

/// The words of a call. `''` is the empty word.
fn words_of(alloc: Global, words: &str) -> Result<Vec<String>, AllocError> {
    let mut given = Vec::new(alloc);
    for word in words.split_whitespace() {
        let word = if word == "''" { "" } else { word };
        given.push(String::from_str(alloc, word)?)?;
    }
    Ok(given)
}

/// A shelf with the files that the words name.
fn shelf_for<R: Files + AllocGlobal>(
    rt: &R,
    files: &[File],
    words: &[String],
    holds: &Conditions,
) -> io::Result<PacedShelf> {
    let mut held = Vec::new(rt.alloc());
    for word in words {
        if let Some(bytes) = bytes_of(rt, files, word.as_str())? {
            let name = Vec::from_slice(rt.alloc(), word.as_bytes())?;
            held.push((Items::new(name), Items::new(bytes)))?;
        }
    }
    let fails = Vec::from_slice(rt.alloc(), &holds.shelf_fails)?;
    Ok(PacedShelf {
        files: ShelfMem::new(Items::new(held), Items::new(fails)),
        pace: holds.shelf_pace,
    })
}

/// Writes the output, or the name of the file that holds it.
pub fn write_output<R: Files + Print + AllocGlobal>(
    rt: &R,
    files: &[File],
    holds: &Conditions,
    output: &[u8],
) -> io::Result<()> {
    if let Some(name) = &holds.keep {
        let name = name.as_str();
        return println!(rt; "(kept as {name})");
    }
    if let Some(name) = &holds.output {
        if let Some(wanted) = bytes_of(rt, files, name.as_str())? {
            if wanted.as_slice() == output {
                return println!(rt; "({name})");
            }
        }
    }
    if let Some(name) = &holds.has {
        if let Some(wanted) = bytes_of(rt, files, name.as_str())? {
            if has_lines(output, &wanted) {
                return println!(rt; "(has {name})");
            }
        }
    }
    write_ended(rt, output)
}

/// Whether these lines are among those of the output, in the same order.
fn has_lines(output: &[u8], wanted: &[u8]) -> bool {
    match (str::from_utf8(output), str::from_utf8(wanted)) {
        (Ok(output), Ok(wanted)) => are_among(output, wanted),
        _ => false,
    }
}

/// Whether these lines are among those of the output, in the same order.
fn are_among(output: &str, wanted: &str) -> bool {
    let mut left = wanted.lines();
    let mut next = left.next();
    for line in output.lines() {
        if next == Some(line) {
            next = left.next();
        }
    }
    next.is_none()
}

/// Writes what stands on the error stream after `! `, where anything does.
fn write_line(rt: &impl Print, line: &[u8]) -> io::Result<()> {
    if line.is_empty() {
        return Ok(());
    }
    print!(rt; "! ")?;
    write_ended(rt, line)
}

/// Writes bytes as they are, and `\c` with a line feed where they end with none.
pub fn write_ended(rt: &impl Print, bytes: &[u8]) -> io::Result<()> {
    io::writer(rt).write_all(bytes)?;
    match bytes.last() {
        None | Some(b'\n') => Ok(()),
        Some(_) => println!(rt; "\\c"),
    }
}

/// Writes how many calls were made on the shelf and on the output.
fn write_counts(rt: &impl Print, shelf: &ShelfMem, out: &SinkMem) -> io::Result<()> {
    let shelf = shelf.calls;
    let out = out.calls();
    println!(rt; "calls: shelf {shelf}, out {out}")
}

/// Writes what was driven: the number of micro-steps, and the counts of the last table.
fn write_driven(rt: &impl Print, driven: &Driven) -> io::Result<()> {
    print!(rt; "driven: {}, counts", driven.number())?;
    for count in driven.counts() {
        print!(rt; " {count}")?;
    }
    println!(rt; ", words {}", driven.words().len())
}

/// Writes the words of the last table that was driven.
fn write_words(rt: &impl Print, driven: &Driven) -> io::Result<()> {
    print!(rt; "words:")?;
    for word in driven.words() {
        print!(rt; " {word}")?;
    }
    println!(rt; "")
}

/// Writes the sum of all values that the lines of an output have after a number and a name, brought back to
/// 64 bits.
fn write_sum(rt: &impl Print, output: &[u8]) -> io::Result<()> {
    let mut sum = 0i64;
    if let Ok(text) = str::from_utf8(output) {
        for line in text.lines() {
            sum = sum.wrapping_add(sum_of(line));
        }
    }
    println!(rt; "sum {sum}")
}

/// The sum of the values of a line, brought back to 64 bits.
fn sum_of(line: &str) -> i64 {
    let mut sum = 0i64;
    let mut place = 0usize;
    for word in line.split_whitespace() {
        if place >= 2 {
            sum = sum.wrapping_add(word.parse::<i64>().unwrap_or(0));
        }
        place = place.saturating_add(1);
    }
    sum
}
