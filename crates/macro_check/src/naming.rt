//! The check of names: the sequences are the architecture's, and what instructions name is there.
ghost use Rattle.std.specs.Prelude.{◌≡◌};
ghost use Rattle.std.specs.List.{flat_map, list_all, range_with_len};
ghost use Rattle.sequence_build_laws.specs.Sequences.{sequences_of};
ghost use Rattle.sequence_build_laws.specs.declared.SeqCode.{SeqCode};
ghost use Rattle.check_laws.specs.Tests.{all_there, are_named, operators_in};

use order_check::{are_sequences, names_in};
use sequence_build_laws::{Instr, Medium, Program};

/// Whether the operators that an instruction names are there, among this many.
fn operators_in(operators: usize, instr: &Instr) -> bool
    ensures { result ≡ operators_in operators instr.now }
{
    match instr {
        Instr::Send { to, .. } => (*to as usize) < operators,
        Instr::Recv { from, .. } => (*from as usize) < operators,
        Instr::Sync { from, to } => (*from as usize) < operators && (*to as usize) < operators,
        _ => true,
    }
}

/// Whether all that an instruction names is there.
pub fn is_there(program: &Program, operations: usize, operators: usize, instr: &Instr) -> bool
    ensures { result ≡ all_there program.now operations operators instr.now }
{
    names_in(program, operations, instr) && operators_in(operators, instr)
}

/// Whether all that these instructions name is there.
fn are_there(program: &Program, operations: usize, operators: usize, list: &[Instr]) -> bool
    ensures { result ≡ list_all (all_there program.now operations operators) list.now }
{
    list.iter()
        .all(|instr| is_there(program, operations, operators, instr))
}

/// Whether all that the loops name is there.
fn loops_there(program: &Program, operations: usize, operators: usize) -> bool
    ensures { result ≡ list_all (λ (q : SeqCode). list_all
        (all_there program.now operations operators) q.turn) program.now.seqs }
{
    program.seqs.as_slice().iter().all(|code| are_there(
        program,
        operations,
        operators,
        code.turn.as_slice(),
    ))
}

/// Whether all that the prologues name is there.
fn prologues_there(program: &Program, operations: usize, operators: usize) -> bool
    ensures { result ≡ list_all (λ (q : SeqCode). list_all
        (all_there program.now operations operators) q.prologue) program.now.seqs }
{
    program.seqs.as_slice().iter().all(|code| are_there(
        program,
        operations,
        operators,
        code.prologue.as_slice(),
    ))
}

/// Whether the sequences are those of this many operators at these media, in order, and what instructions name
/// is there, in loops and in prologues.
pub fn are_named(program: &Program, operations: usize, operators: usize, media: &[Medium]) -> bool
    ensures { result ≡ are_named program.now operations operators
        (flat_map (sequences_of media.now) (range_with_len 0 operators)) }
{
    are_sequences(program.seqs.as_slice(), operators, media)
        && loops_there(program, operations, operators)
        && prologues_there(program, operations, operators)
}
