//! What the sequences wait for at which a run stops.
ghost use Rattle.std.specs.Prelude.{◌≡◌, ℕ, map, slice_get, IfOk};
ghost use Rattle.sequence_build_laws.specs.Instructions.{turn};
ghost use Rattle.macro_check.specs.Awaiting.{MayRun, place_of};
ghost use Rattle.macro_check.specs.Tabled.{AreTables};
ghost use Rattle.check_places.specs.Waits.{awaits, spot_of, waiting, waitings};

use crate::place::{Part, Spot, Waiting};
use check_cause::Stop;
use macro_check::{Tables, awaited};
use program_walks::{Stand, turn_of};
use sequence_build_laws::Program;
use std::alloc::Global;
use syn_base::OutOfMemory;

/// An instruction of a loop, where there is one.
fn spot_of(stand: Option<Stand>) -> Option<Spot>
    ensures { result ≡ spot_of stand }
{
    match stand {
        Some(stand) => Some(Spot {
            part: Part::Loop,
            sequence: stand.sequence,
            at: stand.at,
        }),
        None => None,
    }
}

/// The instruction of another sequence that an instruction of a loop awaits; none past the end.
fn awaits(program: &Program, tables: &Tables, sequence: usize, at: usize) -> Option<Spot>
    requires tables { AreTables program.now tables.now }
    requires run { MayRun program.now tables.now.media }
    ensures { result ≡ awaits program.now sequence at (slice_get (turn program.now sequence) at) }
{
    match turn_of(program, sequence).get(at) {
        Some(instr) => spot_of(awaited(program, tables, sequence, at, instr)),
        None => None,
    }
}

/// What the sequence of a stop waits for.
fn waiting(program: &Program, tables: &Tables, stop: Stop) -> Waiting
    requires tables { AreTables program.now tables.now }
    requires run { MayRun program.now tables.now.media }
    ensures { result ≡ waiting program.now (place_of stop) }
{
    let sequence = stop.sequence as usize;
    let at = stop.at as usize;
    Waiting {
        sequence,
        at,
        awaits: awaits(program, tables, sequence, at),
    }
}

/// What the sequences of these stops wait for.
pub fn waitings(
    alloc: Global,
    program: &Program,
    tables: &Tables,
    stops: &[Stop],
) -> Result<Vec<Waiting>, OutOfMemory>
    requires tables { AreTables program.now tables.now }
    requires run { MayRun program.now tables.now.media }
    ensures { IfOk result (λ all. all.items ≡ waitings program.now (map place_of stops.now)) }
{
    let mut all = Vec::new(alloc);
    for stop in stops {
        all.push(waiting(program, tables, *stop))?;
    }
    Ok(all)
}
