//! The check of a program, which callers of the crate ask for.
ghost use Rattle.std.specs.Prelude.{◌≡◌, ℕ, ◌<◌, ◌≤◌, ◌^◌, length, None, Some, IfErr, IfOk, OnOk};
ghost use Rattle.sequence_build_laws.specs.Sequences.{sequences};
ghost use Rattle.sequence_build_laws.specs.Instructions.{turn};
ghost use Rattle.sequence_build_laws.specs.WellFormed.{IsOrder, IsWellFormed};
ghost use Rattle.macro_check.specs.Causes.{AreThere, Refuses, fault, lack, told};
ghost use Rattle.macro_check.specs.Awaiting.{IsWhole, MayRun};
ghost use Rattle.macro_check.specs.Tabled.{AreTables};
ghost use Rattle.check_laws.specs.Laws.{IsCause};
ghost use Rattle.check_laws.specs.Run.{stuck};
ghost use Rattle.check_laws.specs.Tests.{cause, stopped};

use crate::calling::are_called;
use crate::cause::CheckError;
use crate::guarding::are_guarded;
use crate::moving::are_transferred;
use crate::naming::are_named;
use crate::running::{Run, run_through, stops};
use crate::tables::{Tables, find_tables};
use crate::writing::are_written;
use check_cause::CheckCause;
use program_tables::are_opened;
use sequence_build_laws::{Archi, Flat, Program, Vertex};
use std::alloc::Global;
use syn_base::{Items, OutOfMemory};

/// The first that the program lacks of what is asked whatever the order, but for the sequences and names.
fn lack(
    alloc: Global,
    program: &Program,
    tables: &Tables,
    vertices: &[Vertex],
) -> Result<Option<CheckCause>, OutOfMemory>
    requires tables { AreTables program.now tables.now }
    requires all { length vertices.now ≡ tables.now.operations }
    requires named { AreThere program.now }
    ensures { IfOk result (λ found. told found ≡ lack program.now vertices.now tables.now.media) }
{
    if !are_called(program, &tables.calls, vertices) {
        return Ok(Some(CheckCause::Calls));
    }
    if !are_transferred(
        program,
        tables.places.as_slice(),
        &tables.communicators,
        tables.crossings.as_slice(),
        tables.media,
    ) {
        return Ok(Some(CheckCause::Transfers));
    }
    if !are_written(alloc, program, tables, vertices)? {
        return Ok(Some(CheckCause::Buffers));
    }
    if !are_guarded(program, tables) {
        return Ok(Some(CheckCause::Pairs));
    }
    if !are_opened(alloc, program, tables.readings.as_slice())? {
        return Ok(Some(CheckCause::Prologue));
    }
    Ok(None)
}

/// A serial order, where nothing is missing, or the places at which the run stops.
fn find_order(alloc: Global, program: &Program, tables: &Tables) -> Result<Vec<u32>, CheckError>
    requires tables { AreTables program.now tables.now }
    requires run { MayRun program.now tables.now.media }
    requires few { length program.now.seqs ≤ 2 ^ 32 }
    requires loops { (s : ℕ) → length (turn program.now s) < 2 ^ 32 }
    ensures found { IfOk result (λ order. IsWhole program.now order.items) }
    ensures stuck { IfErr result (Refuses (λ c. stopped (stuck program.now) ≡ Some c)) }
{
    let Run { order, done } = run_through(alloc, program, tables)?;
    let left = stops(alloc, program, done.as_slice())?;
    if left.as_slice().is_empty() {
        return Ok(order);
    }
    Err(CheckError::Refused(CheckCause::Stuck(Items::new(left))))
}

/// The check where the sequences are the architecture's and all names are there, by tables.
fn check_by_tables(
    alloc: Global,
    program: &Program,
    tables: &Tables,
    vertices: &[Vertex],
) -> Result<Vec<u32>, CheckError>
    requires tables { AreTables program.now tables.now }
    requires all { length vertices.now ≡ tables.now.operations }
    requires named { AreThere program.now }
    requires few { length program.now.seqs ≤ 2 ^ 32 }
    requires loops { (s : ℕ) → length (turn program.now s) < 2 ^ 32 }
    ensures found { IfOk result (λ order. IsWhole program.now order.items) }
    ensures nothing { OnOk result (lack program.now vertices.now tables.now.media ≡ None) }
    ensures refused { IfErr result (Refuses (λ c. fault program.now vertices.now tables.now.media ≡ Some c)) }
{
    match lack(alloc, program, tables, vertices)? {
        Some(cause) => Err(CheckError::Refused(cause)),
        None => find_order(alloc, program, tables),
    }
}

/// The check where the sequences are the architecture's and all names are there.
fn check_named(
    alloc: Global,
    program: &Program,
    vertices: &[Vertex],
    media: usize,
) -> Result<Vec<u32>, CheckError>
    requires named { AreThere program.now }
    requires few { length program.now.seqs ≤ 2 ^ 32 }
    requires loops { (s : ℕ) → length (turn program.now s) < 2 ^ 32 }
    ensures found { IfOk result (λ order. IsWhole program.now order.items) }
    ensures nothing { OnOk result (lack program.now vertices.now media ≡ None) }
    ensures refused { IfErr result (Refuses (λ c. fault program.now vertices.now media ≡ Some c)) }
{
    let tables = find_tables(alloc, program, vertices.len(), media)?;
    check_by_tables(alloc, program, &tables, vertices)
}

/// A serial order of one reaction, which `is_order` accepts, if the program is well formed for a flat graph and an
/// architecture; else the first cause for which it is not, and that cause is exact. The order names the sequence of
/// each entry. A loop has fewer than 2^32 instructions.
pub fn macro_check(
    alloc: Global,
    flat: &Flat,
    archi: &Archi,
    program: &Program,
) -> Result<Vec<u32>, CheckError>
    requires { (s : ℕ) → length (turn program.now s) < 2 ^ 32 }
    ensures accepted { IfOk result (λ order. IsOrder program.now flat.now (sequences archi.now)
        (length archi.now.media) order.items) }
    ensures told { IfErr result (Refuses (λ c. cause program.now flat.now.vertices
        (sequences archi.now) (length archi.now.operators) (length archi.now.media) ≡ Some c)) }
    ensures refused { IfErr result (Refuses (IsCause program.now flat.now (sequences archi.now)
        (length archi.now.operators) (length archi.now.media))) }
    ensures complete { IsWellFormed program.now flat.now (sequences archi.now)
        (length archi.now.media) → IfErr result (Refuses (λ c. ⊥)) }
{
    let vertices = flat.vertices();
    let operators = archi.operators().len();
    if !are_named(program, vertices.len(), operators, archi.media()) {
        return Err(CheckError::Refused(CheckCause::Sequences));
    }
    check_named(alloc, program, vertices, archi.media().len())
}
