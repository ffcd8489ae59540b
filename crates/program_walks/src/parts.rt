//! The parts of a program, by the number of the sequence or of the buffer.
ghost use Rattle.std.specs.Prelude.{◌≡◌};
ghost use Rattle.executive_program.specs.Instructions.{depth_of, len_of, medium, operator, turn};

use executive_program::{Instr, Program};

/// The loop of a sequence, empty for one that is not there.
pub fn turn_of(program: &Program, sequence: usize) -> &[Instr]
    ensures { result.now ≡ turn program.now sequence }
{
    match program.seqs.as_slice().get(sequence) {
        Some(code) => code.turn.as_slice(),
        None => &[],
    }
}

/// The medium of a communicator.
pub fn medium_of(program: &Program, sequence: usize) -> Option<u32>
    ensures { result ≡ medium program.now sequence }
{
    match program.seqs.as_slice().get(sequence) {
        Some(code) => code.seq.medium,
        None => None,
    }
}

/// The operator of a sequence, 0 for one that is not there.
pub fn operator_of(program: &Program, sequence: usize) -> u32
    ensures { result ≡ operator program.now sequence }
{
    match program.seqs.as_slice().get(sequence) {
        Some(code) => code.seq.operator,
        None => 0,
    }
}

/// The number of elements of a buffer, 0 for one that is not there.
pub fn len_of(program: &Program, buffer: usize) -> u32
    ensures { result ≡ len_of program.now buffer }
{
    match program.buffers.as_slice().get(buffer) {
        Some(found) => found.len,
        None => 0,
    }
}

/// The number of places of a buffer, 1 for one that is not there.
pub fn depth_of(program: &Program, buffer: usize) -> u32
    ensures { result ≡ depth_of program.now buffer }
{
    match program.buffers.as_slice().get(buffer) {
        Some(found) => found.depth,
        None => 1,
    }
}
