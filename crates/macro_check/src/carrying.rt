//! The sources that buffers carry: outputs of operations, over any number of transfers. Receives are followed back
//! from all buffers at once, twice as far with each round.
ghost use Rattle.std.specs.Prelude.{◌≡◌, ℕ, ◌<◌, length, map, slice_get, Some, IfOk};
ghost use Rattle.sequence_build_laws.specs.Instructions.{turn};
ghost use Rattle.sequence_build_laws.specs.WellFormed.{Stands};
ghost use Rattle.program_tables.specs.declared.roles.Role.TheVariants.{Written};
ghost use Rattle.program_tables.specs.Marks.{marks_of};
ghost use Rattle.order_check.specs.declared.carrying.Origin.TheVariants.{Received};
ghost use Rattle.order_check.specs.Carries.{origin, origin_of};
ghost use Rattle.check_laws.specs.Items.{AreTransferred};
ghost use Rattle.macro_check.specs.Carrying.{follow_all, from_transfer, further_in, origin_or};
ghost use Rattle.macro_check.specs.Tabled.{AreTables};

use crate::awaiting::transfer_of;
use crate::tables::Tables;
use order_check::Origin;
use program_tables::{Crossing, Mark, Write, write_of};
use program_walks::turn_of;
use sequence_build_laws::{Instr, Program};
use std::alloc::Global;
use syn_base::OutOfMemory;

/// The buffer that a transfer sends.
fn from_transfer(crossing: Option<Crossing>) -> Origin
    ensures { result ≡ from_transfer crossing }
{
    match crossing {
        Some(crossing) => Origin::Received(crossing.sent),
        None => Origin::Nowhere,
    }
}

/// Where what an instruction writes comes from.
fn origin_of(program: &Program, tables: &Tables, write: Write, instr: &Instr) -> Origin
    requires tables { AreTables program.now tables.now }
    requires transferred { AreTransferred program.now tables.now.media }
    requires here { Stands program.now write.writer write.at instr.now }
    ensures { result ≡ origin_of program.now write.writer write.at write.port (Some instr.now) }
{
    match instr {
        Instr::Call { vertex, .. } => Origin::Made {
            vertex: *vertex,
            port: write.port,
        },
        Instr::Recv { .. } => from_transfer(transfer_of(program, tables, write.writer, write.at)),
        _ => Origin::Nowhere,
    }
}

/// Where what a write writes comes from.
fn origin_at(program: &Program, tables: &Tables, write: Write) -> Origin
    requires tables { AreTables program.now tables.now }
    requires transferred { AreTransferred program.now tables.now.media }
    ensures { result ≡ origin_of program.now write.writer write.at write.port
        (slice_get (turn program.now write.writer) write.at) }
{
    match turn_of(program, write.writer).get(write.at) {
        Some(instr) => origin_of(program, tables, write, instr),
        None => Origin::Nowhere,
    }
}

/// Where what a buffer holds comes from.
fn origin(program: &Program, tables: &Tables, buffer: usize, writes: &[Mark]) -> Origin
    requires tables { AreTables program.now tables.now }
    requires transferred { AreTransferred program.now tables.now.media }
    requires writes { writes.now ≡ marks_of program.now Written buffer }
    ensures { result ≡ origin program.now buffer }
{
    origin_at(program, tables, write_of(program, buffer, writes))
}

/// For each buffer where what it holds comes from, one step back.
fn find_origins(
    alloc: Global,
    program: &Program,
    tables: &Tables,
) -> Result<Vec<Origin>, OutOfMemory>
    requires tables { AreTables program.now tables.now }
    requires transferred { AreTransferred program.now tables.now.media }
    ensures { IfOk result (λ all. all.items ≡ follow_all program.now 1) }
{
    let mut all = Vec::new(alloc);
    for buffer in 0..program.buffers.as_slice().len() {
        all.push(origin(program, tables, buffer, tables.writes.of(buffer)))?;
    }
    Ok(all)
}

/// From a buffer that is received, this way further.
fn further(from: Origin, others: &[Origin]) -> Origin
    ensures { result ≡ further_in others.now from }
{
    match from {
        Origin::Received(buffer) => origin_in(others, buffer as usize),
        found => found,
    }
}

/// Where what a buffer holds comes from, by a table of all buffers.
pub fn origin_in(others: &[Origin], buffer: usize) -> Origin
    ensures { result ≡ origin_or (slice_get others.now buffer) }
{
    match others.get(buffer) {
        Some(origin) => *origin,
        None => Origin::Nowhere,
    }
}

/// From each of these, this way further.
fn further_each(
    alloc: Global,
    first: &[Origin],
    others: &[Origin],
) -> Result<Vec<Origin>, OutOfMemory>
    ensures { IfOk result (λ all. all.items ≡ map (further_in others.now) first.now) }
{
    let mut all = Vec::new(alloc);
    for origin in first {
        all.push(further(*origin, others))?;
    }
    Ok(all)
}

/// What is met within this many steps from each buffer.
fn follow_all(
    alloc: Global,
    program: &Program,
    origins: &[Origin],
    hops: usize,
) -> Result<Vec<Origin>, OutOfMemory>
    requires table { origins.now ≡ follow_all program.now 1 }
    requires low { (b c : ℕ) → origin program.now b ≡ Received c → c < length program.now.buffers }
    requires some { 0 < hops }
    ensures { IfOk result (λ all. all.items ≡ follow_all program.now hops) }
{
    if hops == 1 {
        return Ok(Vec::from_slice(alloc, origins)?);
    }
    let half = follow_all(alloc, program, origins, hops / 2)?;
    let even = further_each(alloc, half.as_slice(), half.as_slice())?;
    if hops % 2 == 0 {
        return Ok(even);
    }
    further_each(alloc, origins, even.as_slice())
}

/// What is met from each buffer within as many steps as there are buffers.
pub fn find_sources(
    alloc: Global,
    program: &Program,
    tables: &Tables,
) -> Result<Vec<Origin>, OutOfMemory>
    requires tables { AreTables program.now tables.now }
    requires transferred { AreTransferred program.now tables.now.media }
    requires low { (b c : ℕ) → origin program.now b ≡ Received c → c < length program.now.buffers }
    ensures { IfOk result (λ all. all.items ≡ follow_all program.now (length program.now.buffers)) }
{
    let all = find_origins(alloc, program, tables)?;
    let count = program.buffers.as_slice().len();
    if count == 0 {
        return Ok(all);
    }
    follow_all(alloc, program, all.as_slice(), count)
}
