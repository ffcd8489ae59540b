//! The tables of a program that all checks share.
ghost use Rattle.std.specs.Prelude.{◌≡◌, IfOk};
ghost use Rattle.macro_check.specs.Tabled.{AreTables};

use program_tables::{
    Crossing, MarkTable, PairTables, Reading, Role, communication_numbers, communication_places,
    find_communicators, find_crossings, find_marks, find_pairs, find_readings,
};
use sequence_build_laws::Program;
use std::alloc::Global;
use syn_base::{Items, OutOfMemory};

/// Where the operations, buffers and pairs of a program are named, and its communications and transfers.
#[derive(Drop)]
pub struct Tables {
    /// The number of operations, and that of media.
    pub operations: usize,
    pub media: usize,
    /// By sequence and place, how many communications stand before it.
    pub numbers: Vec<Items<usize>>,
    /// By sequence, the places of its communications.
    pub places: Vec<Items<usize>>,
    /// By medium, its communicators.
    pub communicators: MarkTable,
    /// By medium, its transfers.
    pub crossings: Vec<Items<Crossing>>,
    /// By operation, its calls.
    pub calls: MarkTable,
    /// By buffer, its writes.
    pub writes: MarkTable,
    /// By buffer, its reads.
    pub reads: MarkTable,
    /// By pair, what is done on its semaphores.
    pub pairs: PairTables,
    /// Which sequences read which buffers of others.
    pub readings: Vec<Reading>,
}

/// The tables of a program, for this many operations and media.
pub fn find_tables(
    alloc: Global,
    program: &Program,
    operations: usize,
    media: usize,
) -> Result<Tables, OutOfMemory>
    ensures tables { IfOk result (AreTables program.now) }
    ensures operations { IfOk result (λ t. t.operations ≡ operations) }
    ensures media { IfOk result (λ t. t.media ≡ media) }
{
    let buffers = program.buffers.as_slice().len();
    let places = communication_places(alloc, program)?;
    let communicators = find_communicators(alloc, program, media)?;
    let crossings = find_crossings(alloc, program, places.as_slice(), &communicators, media)?;
    let writes = find_marks(alloc, program, Role::Written, buffers)?;
    let reads = find_marks(alloc, program, Role::Read, buffers)?;
    let readings = find_readings(alloc, program, &writes, &reads)?;
    Ok(Tables {
        operations,
        media,
        numbers: communication_numbers(alloc, program)?,
        places,
        communicators,
        crossings,
        calls: find_marks(alloc, program, Role::Called, operations)?,
        writes,
        reads,
        pairs: find_pairs(alloc, program)?,
        readings,
    })
}
