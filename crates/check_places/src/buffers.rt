//! Where single buffers are wrong: their writes, reads and places.
ghost use Rattle.std.specs.Prelude.{◌≡◌, ℕ, ◌<◌, [], ◌∷◌, length, nat_eq, slice_get};
ghost use Rattle.std.specs.List.{list_all, list_any};
ghost use Rattle.program_walks.specs.Buffers.{has_places, is_operator};
ghost use Rattle.sequence_build_laws.specs.Instructions.{is_guarded};
ghost use Rattle.program_tables.specs.MarkRows.{row};
ghost use Rattle.program_tables.specs.declared.roles.Role.TheVariants.{Read, Written};
ghost use Rattle.program_tables.specs.Marks.{marks_of};
ghost use Rattle.check_places.specs.First.{first_below, first_failing};
ghost use Rattle.check_places.specs.Buffers.{buffer_place, buffer_place_by, is_near_at, is_not_before};

use crate::first::{broken, broken_at, first_of, in_loop, unless};
use crate::place::{Place, Rule, Subject};
use program_tables::{Mark, MarkTable, is_in};
use program_walks::{depth_of, operator_of};
use sequence_build_laws::Program;

/// Whether a buffer is there and belongs to an operator.
fn is_on_operator(program: &Program, buffer: usize, operator: u32) -> bool
    ensures { result ≡ is_operator (slice_get program.now.buffers buffer) operator }
{
    match program.buffers.as_slice().get(buffer) {
        Some(found) => found.operator == operator,
        None => false,
    }
}

/// Whether a place is on the operator of a buffer.
fn is_near_at(program: &Program, buffer: usize, mark: Mark) -> bool
    ensures { result ≡ is_near_at program.now buffer mark }
{
    is_on_operator(program, buffer, operator_of(program, mark.sequence))
}

/// The first of these places that is on another operator than a buffer.
fn first_far(program: &Program, buffer: usize, marks: &[Mark]) -> Option<Mark>
    ensures { result ≡ first_failing (is_near_at program.now buffer) marks.now }
{
    for mark in marks {
        if !is_near_at(program, buffer, *mark) {
            return Some(*mark);
        }
    }
    None
}

/// The write of a buffer where it is on another operator, or else the first of these reads that is.
fn first_touch_far(program: &Program, buffer: usize, write: Mark, reads: &[Mark]) -> Option<Mark>
    ensures { result ≡ first_failing (is_near_at program.now buffer) (write ∷ reads.now) }
{
    if !is_near_at(program, buffer, write) {
        return Some(write);
    }
    first_far(program, buffer, reads)
}

/// Whether a read is not in the loop of a write, or stands after it.
fn is_not_before(write: Mark, read: Mark) -> bool
    ensures { result ≡ is_not_before write read }
{
    read.sequence != write.sequence || write.at < read.at
}

/// The first of these reads in the loop of a write that does not stand after it.
fn first_early(write: Mark, reads: &[Mark]) -> Option<Mark>
    ensures { result ≡ first_failing (is_not_before write) reads.now }
{
    for read in reads {
        if !is_not_before(write, *read) {
            return Some(*read);
        }
    }
    None
}

/// Whether each sequence that reads a buffer writes it as well.
fn are_own(writes: &[Mark], reads: &[Mark]) -> bool
    ensures { result ≡ list_all (λ r. list_any (λ w. nat_eq w.sequence r.sequence) writes.now) reads.now }
{
    reads.iter().all(|read| is_in(writes, read.sequence))
}

/// Whether a sequence reads a buffer that it does not write.
fn is_guarded(program: &Program, buffer: usize, writes: &[Mark], reads: &[Mark]) -> bool
    requires writes { writes.now ≡ marks_of program.now Written buffer }
    requires reads { reads.now ≡ marks_of program.now Read buffer }
    ensures { result ≡ is_guarded program.now buffer }
{
    !are_own(writes, reads)
}

/// Whether a buffer has one to four places, and one where no other sequence reads it.
fn has_places(program: &Program, buffer: usize, writes: &[Mark], reads: &[Mark]) -> bool
    requires writes { writes.now ≡ marks_of program.now Written buffer }
    requires reads { reads.now ≡ marks_of program.now Read buffer }
    ensures { result ≡ has_places program.now buffer }
{
    let depth = depth_of(program, buffer);
    1 <= depth && depth <= 4 && (depth == 1 || is_guarded(program, buffer, writes, reads))
}

/// Where a buffer is wrong that is written there alone: touched on another operator, read too early, or too deep.
fn place_of_one(
    program: &Program,
    buffer: usize,
    write: Mark,
    writes: &[Mark],
    reads: &[Mark],
) -> Option<Place>
    requires one { writes.now ≡ write ∷ [] }
    requires writes { writes.now ≡ marks_of program.now Written buffer }
    requires reads { reads.now ≡ marks_of program.now Read buffer }
    ensures { result ≡ buffer_place_by program.now buffer (write ∷ []) reads.now }
{
    let subject = Subject::Buffer(buffer);
    let elsewhere = broken_at(
        Rule::TouchedElsewhere,
        subject,
        first_touch_far(program, buffer, write, reads),
    );
    let early = broken_at(Rule::ReadTooEarly, subject, first_early(write, reads));
    let too_deep = unless(
        has_places(program, buffer, writes, reads),
        broken(
            Rule::WrongPlaces,
            subject,
            in_loop(write.sequence, write.at),
        ),
    );
    first_of(elsewhere, first_of(early, too_deep))
}

/// Where a buffer is wrong, which is written and read at these places.
fn buffer_place(program: &Program, buffer: usize, writes: &[Mark], reads: &[Mark]) -> Option<Place>
    requires writes { writes.now ≡ marks_of program.now Written buffer }
    requires reads { reads.now ≡ marks_of program.now Read buffer }
    ensures { result ≡ buffer_place program.now buffer }
{
    match writes {
        [] => broken(Rule::NotWritten, Subject::Buffer(buffer), None),
        [write] => place_of_one(program, buffer, *write, writes, reads),
        [_, again, ..] => broken(
            Rule::WrittenAgain,
            Subject::Buffer(buffer),
            in_loop(again.sequence, again.at),
        ),
    }
}

/// The first buffer that is not written once on its operator, before its writer reads it and as deep as it may be. The
/// tables have the places at which each buffer is written and read.
pub fn written_place(program: &Program, writes: &MarkTable, reads: &MarkTable) -> Option<Place>
    requires writes { (b : ℕ) → b < length program.now.buffers → row writes.now b ≡ marks_of program.now Written b }
    requires reads { (b : ℕ) → b < length program.now.buffers → row reads.now b ≡ marks_of program.now Read b }
    ensures { result ≡ first_below (buffer_place program.now) (length program.now.buffers) }
{
    for buffer in 0..program.buffers.as_slice().len() {
        if let Some(place) = buffer_place(program, buffer, writes.of(buffer), reads.of(buffer)) {
            return Some(place);
        }
    }
    None
}
