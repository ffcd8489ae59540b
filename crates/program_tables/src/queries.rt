//! Questions to the places that name a number: where an operation is called, where a buffer is written, and whether
//! one instruction alone names it.
ghost use Rattle.std.specs.Prelude.{◌≡◌, ◌&&◌, nat_eq};
ghost use Rattle.std.specs.List.{list_all, position_or_len};
ghost use Rattle.executive_program.specs.Instructions.{turn};
ghost use Rattle.executive_program.specs.Places.{caller_of, calls, writer_of, writing, written_at};
ghost use Rattle.program_tables.specs.Marks.{first_at, lone, marks_of};

use crate::mark_table::Mark;
use crate::roles::Role;
use executive_program::Program;
use program_walks::Stand;

/// Where a buffer is written: its sequence, its place there, and the number of the output.
#[derive(Clone, Copy, Drop)]
pub struct Write {
    pub writer: usize,
    pub at: usize,
    pub port: usize,
}

/// The first call of an operation; a place past the last sequence where it is not called. `marks` are the
/// places at which it is.
pub fn call_of(program: &Program, operation: usize, marks: &[Mark]) -> Stand
    requires { marks.now ≡ marks_of program.now Role.Called operation }
    ensures sequence { result.sequence ≡ caller_of program.now operation }
    ensures at { result.at ≡ position_or_len (calls operation) (turn program.now (caller_of program.now operation)) }
{
    match marks.first() {
        Some(mark) => Stand {
            sequence: mark.sequence,
            at: mark.at,
        },
        None => Stand {
            sequence: program.seqs.as_slice().len(),
            at: 0,
        },
    }
}

/// The first write of a buffer; a place past the last sequence where nothing writes it. `marks` are the
/// places at which it is written.
pub fn write_of(program: &Program, buffer: usize, marks: &[Mark]) -> Write
    requires { marks.now ≡ marks_of program.now Role.Written buffer }
    ensures writer { result.writer ≡ writer_of program.now buffer }
    ensures at { result.at ≡ written_at program.now buffer }
    ensures port { result.port ≡ (writing program.now buffer).port }
{
    match marks.first() {
        Some(mark) => Write {
            writer: mark.sequence,
            at: mark.at,
            port: mark.port,
        },
        None => Write {
            writer: program.seqs.as_slice().len(),
            at: 0,
            port: 0,
        },
    }
}

/// Whether all these places are this one.
pub fn are_at(marks: &[Mark], sequence: usize, at: usize) -> bool
    ensures { result ≡ list_all (λ u. nat_eq u.sequence sequence && nat_eq u.at at) marks.now }
{
    marks
        .iter()
        .all(|mark| mark.sequence == sequence && mark.at == at)
}

/// Whether there are places, and all are one instruction of this sequence.
pub fn is_lone(marks: &[Mark], sequence: usize) -> bool
    ensures { result ≡ lone sequence marks.now }
{
    match marks.first() {
        Some(mark) => are_at(marks, sequence, mark.at),
        None => false,
    }
}

/// The place of the first, 0 where there is none.
pub fn first_at(marks: &[Mark]) -> usize
    ensures { result ≡ first_at marks.now }
{
    match marks.first() {
        Some(mark) => mark.at,
        None => 0,
    }
}
