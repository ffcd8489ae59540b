//! The places at which numbers are named, found in one walk over a program and grouped by number.
ghost use Rattle.std.specs.Prelude.{◌≡◌, ℕ, ◌<◌, ◌++◌, IfOk, OnOk};
ghost use Rattle.program_tables.specs.MarkRows.{row};
ghost use Rattle.program_tables.specs.Marks.{marks_at, marks_from, marks_in, marks_of};

use crate::mark_table::{Mark, MarkTable};
use crate::roles::{Role, numbers_named};
use executive_program::{Instr, Program};
use std::alloc::Global;
use syn_base::OutOfMemory;

/// Adds the place of an instruction for each number that it names.
fn push_named(
    out: &mut Vec<Mark>,
    numbers: &[u32],
    sequence: usize,
    at: usize,
) -> Result<(), OutOfMemory>
    ensures { OnOk result (out.new.items ≡ out.old.items ++ marks_at sequence at 0 numbers.now) }
{
    for (port, number) in numbers.iter().enumerate() {
        out.push(Mark {
            number: *number as usize,
            sequence,
            at,
            port,
        })?;
    }
    Ok(())
}

/// Adds the places of a loop at which its instructions name numbers in a role.
fn push_loop(
    out: &mut Vec<Mark>,
    role: Role,
    list: &[Instr],
    sequence: usize,
) -> Result<(), OutOfMemory>
    ensures { OnOk result (out.new.items ≡ out.old.items ++ marks_in role sequence 0 list.now) }
{
    for (at, instr) in list.iter().enumerate() {
        push_named(out, numbers_named(role, instr), sequence, at)?;
    }
    Ok(())
}

/// The places at which the loops of a program name numbers in a role, by sequence and then by place.
fn all_marks(alloc: Global, program: &Program, role: Role) -> Result<Vec<Mark>, OutOfMemory>
    ensures { IfOk result (λ marks. marks.items ≡ marks_from role 0 program.now.seqs) }
{
    let mut marks = Vec::new(alloc);
    for (sequence, code) in program.seqs.as_slice().iter().enumerate() {
        push_loop(&mut marks, role, code.turn.as_slice(), sequence)?;
    }
    Ok(marks)
}

/// For each number below `count` the places at which the loops of a program name it in a role, by sequence
/// and then by place.
pub fn find_marks(
    alloc: Global,
    program: &Program,
    role: Role,
    count: usize,
) -> Result<MarkTable, OutOfMemory>
    ensures { IfOk result (λ t. (n : ℕ) → n < count → row t n ≡ marks_of program.now role n) }
{
    let all = all_marks(alloc, program, role)?;
    MarkTable::new(alloc, all.as_slice(), count)
}
