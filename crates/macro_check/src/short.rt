//! The bound on loops: the check numbers places with 32 bits.
ghost use Rattle.std.specs.Prelude.{ℕ, ◌<◌, ◌^◌, ◌↔◌, IsTrue, length};
ghost use Rattle.sequence_build_laws.specs.Instructions.{turn};

use program_walks::turn_of;
use sequence_build_laws::Program;

/// Whether each loop has fewer than 2^32 instructions, so that the check may be asked. A longer one is held by no
/// memory of the machines that there are.
pub fn loops_are_short(program: &Program) -> bool
    ensures { IsTrue result ↔ ((s : ℕ) → length (turn program.now s) < 2 ^ 32) }
{
    for sequence in 0..program.seqs.as_slice().len() {
        if turn_of(program, sequence).len() >= 1 << 32 {
            return false;
        }
    }
    true
}
