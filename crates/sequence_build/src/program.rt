//! `build`: the program of a schedule, stage by stage.
ghost use Rattle.std.specs.Prelude.{◌≡◌, IfOk, IfErr};
ghost use Rattle.sequence_build.specs.Answers.{IsProgram, IsRefusal, IsValid};
ghost use Rattle.sequence_build.specs.Pairs.{plain_pairs};
ghost use Rattle.sequence_build.specs.Program.{assembled, lined, paired};

use crate::around::guarded_codes;
use crate::error::BuildError;
use crate::limit::limit_of;
use crate::pairs::{Pair, deepen_all, operators_of, pairs_of};
use crate::plain::plain_program;
use crate::uses::{uses_of, writes_of};
use sequence_build_laws::{Archi, Flat, Program, Schedule};
use std::alloc::Global;
use syn_base::{Items, OutOfMemory};

/// The pairs of a program without semaphores.
fn pairs_in(alloc: Global, plain: &Program) -> Result<Vec<Pair>, OutOfMemory>
    ensures { IfOk result (λ pairs. pairs.items ≡ plain_pairs plain.now) }
{
    let uses = uses_of(alloc, plain)?;
    let writes = writes_of(alloc, plain)?;
    pairs_of(alloc, &uses, writes.as_slice())
}

/// The program with its pairs, whose buffers have `depth` places, without the instructions of semaphores.
fn with_pairs(
    alloc: Global,
    plain: Program,
    pairs: &[Pair],
    depth: u32,
) -> Result<Program, OutOfMemory>
    ensures { IfOk result (λ p. p ≡ paired depth pairs.now plain) }
{
    let (buffers, _, seqs) = plain.into_parts();
    let mut buffers = buffers.into_vec();
    let operators = operators_of(alloc, buffers.as_slice(), pairs)?;
    deepen_all(&mut buffers, pairs, depth);
    Ok(Program {
        buffers: Items::new(buffers),
        pairs: Items::new(operators),
        seqs,
    })
}

/// The program with the instructions of its semaphores.
fn with_lines(
    alloc: Global,
    program: Program,
    pairs: &[Pair],
    depth: u32,
) -> Result<Program, OutOfMemory>
    ensures { IfOk result (λ p. p ≡ lined depth pairs.now program) }
{
    let (buffers, operators, seqs) = program.into_parts();
    Ok(Program {
        buffers,
        pairs: operators,
        seqs: guarded_codes(alloc, seqs.into_vec(), pairs, depth)?,
    })
}

/// The program with its semaphores, from the one without.
fn with_semaphores(alloc: Global, plain: Program, depth: u32) -> Result<Program, OutOfMemory>
    ensures { IfOk result (λ p. p ≡ assembled depth plain) }
{
    let pairs = pairs_in(alloc, &plain)?;
    let program = with_pairs(alloc, plain, &pairs, depth)?;
    with_lines(alloc, program, &pairs, depth)
}

/// The program of a schedule that is valid for some durations: for each sequence of the architecture its
/// prologue, and its loop, in which each instruction stands between the lines of the semaphores of what
/// it reads and writes.
///
/// `Limit` comes exactly where the words of the program's table are above 65,536, or else where the
/// micro-steps of one reaction of all sequences are above 262,144, and it tells the whole number. Both are
/// counted from the schedule's acts before an instruction is made, so that a refusal takes time in proportion
/// to the acts and memory in proportion to the copies that they make, each times the sequences. The program
/// takes time and memory in proportion to the schedule and to the program.
pub fn build(
    alloc: Global,
    flat: &Flat,
    archi: &Archi,
    schedule: &Schedule,
) -> Result<Program, BuildError>
    requires { IsValid flat.now archi.now schedule.now }
    ensures ok { IfOk result (IsProgram flat.now archi.now schedule.now) }
    ensures err { IfErr result (IsRefusal flat.now archi.now schedule.now) }
{
    // The clause of `vertices` is that a flat graph is valid, which the law of built programs asks for.
    let _ = flat.vertices();
    // That of `media` is that the architecture is.
    let _ = archi.media();
    match limit_of(alloc, flat, archi, schedule)? {
        Some(fault) => Err(BuildError::Limit(fault)),
        None => {
            let plain = plain_program(alloc, flat, archi, schedule)?;
            Ok(with_semaphores(alloc, plain, archi.depth())?)
        }
    }
}
