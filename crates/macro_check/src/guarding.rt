//! The check of pairs: there is one for each buffer and each other sequence that reads it, and each stands round the
//! write and the reads.
ghost use Rattle.std.specs.Prelude.{◌≡◌, ◌&&◌, length, nat_eq};
ghost use Rattle.program_walks.specs.Walks.{all_at};
ghost use Rattle.check_laws.specs.Tests.{are_guarded};
ghost use Rattle.macro_check.specs.Tabled.{AreTables, guards_by};

use crate::tables::Tables;
use program_tables::{Reading, guards};
use sequence_build_laws::Program;

/// Whether a pair guards the buffer of a reading for its sequence.
fn guards_by(program: &Program, tables: &Tables, pair: usize, reading: Reading) -> bool
    requires { AreTables program.now tables.now }
    ensures { result ≡ guards_by program.now pair reading }
{
    reading.buffer < program.buffers.as_slice().len()
        && guards(
            program,
            &tables.pairs,
            pair,
            reading,
            tables.writes.of(reading.buffer),
            tables.reads.of(reading.buffer),
        )
}

/// Whether the pairs, in order, guard the buffers of these readings.
fn all_guard(program: &Program, tables: &Tables, readings: &[Reading]) -> bool
    requires { AreTables program.now tables.now }
    ensures { result ≡ all_at (guards_by program.now) 0 readings.now }
{
    for (pair, reading) in readings.iter().enumerate() {
        if !guards_by(program, tables, pair, *reading) {
            return false;
        }
    }
    true
}

/// Whether there are as many pairs as these readings, and each guards the buffer of its reading.
fn guard_each(program: &Program, tables: &Tables, readings: &[Reading]) -> bool
    requires { AreTables program.now tables.now }
    ensures { result ≡ (nat_eq (length program.now.pairs) (length readings.now) &&
        all_at (guards_by program.now) 0 readings.now) }
{
    program.pairs.as_slice().len() == readings.len() && all_guard(program, tables, readings)
}

/// Whether there is one pair of semaphores for each buffer and each sequence that reads it and does not write
/// it, by buffer and then by sequence, on the buffer's operator, and each stands round the write and the reads.
pub fn are_guarded(program: &Program, tables: &Tables) -> bool
    requires { AreTables program.now tables.now }
    ensures { result ≡ are_guarded program.now }
{
    guard_each(program, tables, tables.readings.as_slice())
}
