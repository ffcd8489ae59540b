//! Why a program is refused: its first cause, and the first place that shows it.
ghost use Rattle.std.specs.Prelude.{◌≡◌, ◌↔◌, ℕ, ◌<◌, ◌≤◌, ◌^◌, IfOk, IfSome, IsNone, Some, length, map};
ghost use Rattle.sequence_build_laws.specs.Sequences.{sequences};
ghost use Rattle.sequence_build_laws.specs.Instructions.{turn};
ghost use Rattle.sequence_build_laws.specs.WellFormed.{IsWellFormed};
ghost use Rattle.check_laws.specs.Items.{AreTransferred};
ghost use Rattle.check_laws.specs.Tests.{Cause, cause};
ghost use Rattle.macro_check.specs.Awaiting.{MayRun, place_of};
ghost use Rattle.macro_check.specs.Carrying.{AreLow};
ghost use Rattle.macro_check.specs.Causes.{cause_of};
ghost use Rattle.macro_check.specs.Tabled.{AreTables};
ghost use Rattle.check_places.specs.Buffers.{buffers_place, values_place};
ghost use Rattle.check_places.specs.Names.{names_place};
ghost use Rattle.check_places.specs.Shown.{Explains};
ghost use Rattle.check_places.specs.Waits.{waitings};
ghost use Rattle.check_places.specs.Why.{RightBefore, breaks, by_tables, why, why_of};

use crate::buffers::written_place;
use crate::calls::calls_place;
use crate::first::first_of;
use crate::names::{Known, names_place};
use crate::pairs::pairs_place;
use crate::place::{Place, Why};
use crate::prologues::prologue_place;
use crate::transfers::transfers_place;
use crate::values::{Carried, first_fit, first_kept, first_made};
use crate::waits::waitings;
use check_cause::{CheckCause, Stop};
use macro_check::{CheckError, Tables, find_sources, find_tables, macro_check};
use sequence_build_laws::{Archi, Flat, Program, Vertex};
use std::alloc::Global;
use syn_base::{Items, OutOfMemory};

/// A place as a reason.
fn breaks(place: Option<Place>) -> Option<Why>
    ensures { result ≡ breaks place }
{
    match place {
        Some(place) => Some(Why::Breaks(place)),
        None => None,
    }
}

/// The first place at which sequences or names are wrong.
fn wrong_names(
    alloc: Global,
    archi: &Archi,
    program: &Program,
    vertices: &[Vertex],
) -> Result<Option<Place>, OutOfMemory>
    ensures { IfOk result (λ place. place ≡ names_place program.now (length vertices.now)
        (length archi.now.operators) (sequences archi.now)) }
{
    let seqs = archi.sequences(alloc)?;
    let known = Known {
        operations: vertices.len(),
        operators: archi.operators().len(),
    };
    Ok(names_place(program, known, seqs.as_slice()))
}

/// The first place at which buffers are wrong in what they carry.
fn wrong_values(
    alloc: Global,
    program: &Program,
    tables: &Tables,
    vertices: &[Vertex],
) -> Result<Option<Place>, OutOfMemory>
    requires tables { AreTables program.now tables.now }
    requires all { length vertices.now ≤ tables.now.operations }
    requires transferred { AreTransferred program.now tables.now.media }
    requires low { AreLow program.now tables.now.media }
    ensures { IfOk result (λ place. place ≡ values_place program.now vertices.now tables.now.media) }
{
    let sources = find_sources(alloc, program, tables)?;
    let carried = Carried {
        program,
        sources: sources.as_slice(),
        vertices,
    };
    let kept = first_kept(&carried, tables.crossings.as_slice(), tables.media);
    Ok(first_of(
        first_made(&carried, tables),
        first_of(first_fit(&carried, tables), kept),
    ))
}

/// The first place at which buffers are wrong.
fn wrong_buffers(
    alloc: Global,
    program: &Program,
    tables: &Tables,
    vertices: &[Vertex],
) -> Result<Option<Place>, OutOfMemory>
    requires tables { AreTables program.now tables.now }
    requires all { length vertices.now ≤ tables.now.operations }
    requires transferred { AreTransferred program.now tables.now.media }
    requires low { AreLow program.now tables.now.media }
    ensures { IfOk result (λ place. place ≡ buffers_place program.now vertices.now tables.now.media) }
{
    if let Some(place) = written_place(program, &tables.writes, &tables.reads) {
        return Ok(Some(place));
    }
    wrong_values(alloc, program, tables, vertices)
}

/// What the sequences of these stops wait for, as a reason.
fn stuck(
    alloc: Global,
    program: &Program,
    tables: &Tables,
    stops: &[Stop],
) -> Result<Option<Why>, OutOfMemory>
    requires tables { AreTables program.now tables.now }
    requires run { MayRun program.now tables.now.media }
    ensures { IfOk result (λ found. found ≡ Some (Why.Stuck (waitings program.now (map place_of stops.now)))) }
{
    let waits = waitings(alloc, program, tables, stops)?;
    Ok(Some(Why::Stuck(Items::new(waits))))
}

/// The reason of a cause, by tables.
fn reason(
    alloc: Global,
    program: &Program,
    tables: &Tables,
    vertices: &[Vertex],
    cause: &CheckCause,
) -> Result<Option<Why>, OutOfMemory>
    requires tables { AreTables program.now tables.now }
    requires all { length vertices.now ≡ tables.now.operations }
    requires right { RightBefore program.now tables.now.media (cause_of cause.now) }
    ensures { IfOk result (λ found. found ≡ by_tables program.now vertices.now tables.now.media (cause_of cause.now)) }
{
    let place = match cause {
        CheckCause::Sequences => None,
        CheckCause::Calls => calls_place(program, &tables.calls, vertices),
        CheckCause::Transfers => {
            transfers_place(program, tables.crossings.as_slice(), tables.media)
        }
        CheckCause::Buffers => wrong_buffers(alloc, program, tables, vertices)?,
        CheckCause::Pairs => pairs_place(program, tables),
        CheckCause::Prologue => prologue_place(alloc, program, tables.readings.as_slice())?,
        CheckCause::Stuck(stops) => return stuck(alloc, program, tables, stops.as_slice()),
    };
    Ok(breaks(place))
}

/// The reason of the first cause of a program.
fn explain(
    alloc: Global,
    archi: &Archi,
    program: &Program,
    vertices: &[Vertex],
    media: usize,
    cause: &CheckCause,
) -> Result<Option<Why>, OutOfMemory>
    requires media { media ≡ length archi.now.media }
    requires right { RightBefore program.now media (cause_of cause.now) }
    ensures { IfOk result (λ found. found ≡ why_of program.now vertices.now
        (sequences archi.now) (length archi.now.operators) (length archi.now.media) (cause_of cause.now)) }
{
    if let CheckCause::Sequences = cause {
        let place = wrong_names(alloc, archi, program, vertices)?;
        return Ok(breaks(place));
    }
    let tables = find_tables(alloc, program, vertices.len(), media)?;
    reason(alloc, program, &tables, vertices, cause)
}

/// Why a program is not well formed for a flat graph and an architecture: the first place that breaks the first rule
/// that is broken, or what each sequence waits for where there is no serial order; none where the program is well
/// formed. A loop has fewer than 2^32 instructions.
pub fn find_why(
    alloc: Global,
    flat: &Flat,
    archi: &Archi,
    program: &Program,
) -> Result<Option<Why>, OutOfMemory>
    requires { (s : ℕ) → length (turn program.now s) < 2 ^ 32 }
    ensures why { IfOk result (λ found. found ≡ why program.now flat.now.vertices
        (sequences archi.now) (length archi.now.operators) (length archi.now.media)) }
    ensures none { IfOk result (λ found. IsNone found ↔ IsWellFormed program.now flat.now
        (sequences archi.now) (length archi.now.media)) }
    ensures shown { IfOk result (λ found. IfSome found (λ w. (c : Cause) → cause program.now
        flat.now.vertices (sequences archi.now) (length archi.now.operators) (length archi.now.media)
        ≡ Some c → Explains program.now flat.now (sequences archi.now) (length archi.now.operators)
        (length archi.now.media) c w)) }
{
    let vertices = flat.vertices();
    let media = archi.media().len();
    match macro_check(alloc, flat, archi, program) {
        Ok(_order) => Ok(None),
        Err(CheckError::OutOfMemory) => Err(OutOfMemory),
        Err(CheckError::Refused(cause)) => explain(alloc, archi, program, vertices, media, &cause),
    }
}
