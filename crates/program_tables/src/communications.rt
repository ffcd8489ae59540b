//! The communications of each sequence, and the communicators of each medium, for the table of transfers.
ghost use Rattle.std.specs.Prelude.{◌≡◌, ℕ, ◌<◌, length, slice_get, slice_index, IfOk};
ghost use Rattle.executive_program.specs.Instructions.{communications, number_or, turn};
ghost use Rattle.executive_program.specs.Places.{communication_at};
ghost use Rattle.program_tables.specs.MarkRows.{row};
ghost use Rattle.program_tables.specs.Communications.{communicators_from, communicators_of, numbers_from, numbers_of, places_from, places_of};

use crate::mark_table::{Mark, MarkTable};
use executive_program::{Instr, Program};
use program_walks::{is_communication, turn_of};
use std::alloc::Global;
use syn_base::{Items, OutOfMemory};

/// For each place of a loop, how many communications stand before it.
fn numbers_in(alloc: Global, list: &[Instr]) -> Result<Vec<usize>, OutOfMemory>
    ensures { IfOk result (λ row. row.items ≡ numbers_from 0 list.now) }
{
    let mut row = Vec::new(alloc);
    let mut number: usize = 0;
    for instr in list {
        row.push(number)?;
        if is_communication(instr) {
            number += 1;
        }
    }
    Ok(row)
}

/// The places of the communications of a loop.
fn places_in(alloc: Global, list: &[Instr]) -> Result<Vec<usize>, OutOfMemory>
    ensures { IfOk result (λ row. row.items ≡ places_from 0 list.now) }
{
    let mut row = Vec::new(alloc);
    for (at, instr) in list.iter().enumerate() {
        if is_communication(instr) {
            row.push(at)?;
        }
    }
    Ok(row)
}

/// For each sequence and each place of its loop, how many communications stand before it.
pub fn communication_numbers(
    alloc: Global,
    program: &Program,
) -> Result<Vec<Items<usize>>, OutOfMemory>
    ensures { IfOk result (λ rows. rows.items ≡ numbers_of program.now) }
{
    let mut rows = Vec::new(alloc);
    for code in program.seqs.as_slice() {
        let row = numbers_in(alloc, code.turn.as_slice())?;
        rows.push(Items::new(row))?;
    }
    Ok(rows)
}

/// For each sequence the places of its communications.
pub fn communication_places(
    alloc: Global,
    program: &Program,
) -> Result<Vec<Items<usize>>, OutOfMemory>
    ensures { IfOk result (λ rows. rows.items ≡ places_of program.now) }
{
    let mut rows = Vec::new(alloc);
    for code in program.seqs.as_slice() {
        let row = places_in(alloc, code.turn.as_slice())?;
        rows.push(Items::new(row))?;
    }
    Ok(rows)
}

/// How many communications stand before a place of a sequence's loop.
pub fn number_at(program: &Program, numbers: &[Items<usize>], sequence: usize, at: usize) -> usize
    requires table { numbers.now ≡ numbers_of program.now }
    requires within { at < length (turn program.now sequence) }
    ensures { result ≡ communications program.now sequence at }
{
    match numbers.get(sequence) {
        Some(row) => in_row(row.as_slice(), at),
        None => 0,
    }
}

/// The number at a place, 0 past the end.
fn in_row(row: &[usize], at: usize) -> usize
    ensures { result ≡ slice_index row.now at }
{
    match row.get(at) {
        Some(number) => *number,
        None => 0,
    }
}

/// The place of a communication of a sequence, by its number; the length of the loop where there is none.
pub fn place_of_communication(
    program: &Program,
    places: &[Items<usize>],
    sequence: usize,
    number: usize,
) -> usize
    requires { places.now ≡ places_of program.now }
    ensures { result ≡ communication_at (turn program.now sequence) number }
{
    match places.get(sequence) {
        Some(row) => entry_or(row.as_slice(), number, turn_of(program, sequence).len()),
        None => 0,
    }
}

/// The entry at a place, or this number past the end.
fn entry_or(row: &[usize], at: usize, beyond: usize) -> usize
    ensures { result ≡ number_or beyond (slice_get row.now at) }
{
    match row.get(at) {
        Some(entry) => *entry,
        None => beyond,
    }
}

/// The communicators of a program, each by the number of its medium.
fn all_communicators(alloc: Global, program: &Program) -> Result<Vec<Mark>, OutOfMemory>
    ensures { IfOk result (λ marks. marks.items ≡ communicators_from 0 program.now.seqs) }
{
    let mut marks = Vec::new(alloc);
    for (sequence, code) in program.seqs.as_slice().iter().enumerate() {
        if let Some(medium) = code.seq.medium {
            marks.push(Mark {
                number: medium as usize,
                sequence,
                at: 0,
                port: 0,
            })?;
        }
    }
    Ok(marks)
}

/// For each medium below `media` its communicators, by number.
pub fn find_communicators(
    alloc: Global,
    program: &Program,
    media: usize,
) -> Result<MarkTable, OutOfMemory>
    ensures { IfOk result (λ t. (m : ℕ) → m < media → row t m ≡ communicators_of program.now m) }
{
    let all = all_communicators(alloc, program)?;
    MarkTable::new(alloc, all.as_slice(), media)
}
