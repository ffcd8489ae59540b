//! The check of buffers: each is written once and carries what is called for and what is sent.
ghost use Rattle.std.specs.Prelude.{◌≡◌, ◌<◌, ◌≤◌, ◌&&◌, length, nat_eq, IfOk};
ghost use Rattle.std.specs.List.{list_all};
ghost use Rattle.check_laws.specs.Items.{AreTransferred};
ghost use Rattle.check_laws.specs.Tests.{are_written};
ghost use Rattle.macro_check.specs.Carrying.{AreLow, carries_alike, carry_all, follow_all, is_as_long, is_call, met_in};
ghost use Rattle.macro_check.specs.Tabled.{AreTables};

use crate::carrying::{find_sources, origin_in};
use crate::fitting::are_fitting;
use crate::tables::Tables;
use order_check::Origin;
use program_tables::{Crossing, are_buffers};
use program_walks::len_of;
use sequence_build_laws::{Program, Vertex};
use std::alloc::Global;
use syn_base::{Items, OutOfMemory};

/// Whether what is met is an output of an operation.
pub fn is_call(origin: &Origin) -> bool
    ensures { result ≡ is_call origin.now }
{
    matches!(origin, Origin::Made { .. })
}

/// Whether all that is met is outputs of operations.
fn are_calls(sources: &[Origin]) -> bool
    ensures { result ≡ list_all is_call sources.now }
{
    sources.iter().all(|origin| is_call(origin))
}

/// Whether a transfer receives into a buffer as long as the one that is sent.
pub fn is_as_long(program: &Program, crossing: Crossing) -> bool
    ensures { result ≡ is_as_long program.now crossing }
{
    len_of(program, crossing.received as usize) == len_of(program, crossing.sent as usize)
}

/// Whether this holds of these transfers.
fn are_as_long_on(program: &Program, found: &[Crossing]) -> bool
    ensures { result ≡ list_all (is_as_long program.now) found.now }
{
    found.iter().all(|crossing| is_as_long(program, *crossing))
}

/// Whether this holds of all transfers.
fn are_as_long(program: &Program, found: &[Items<Crossing>]) -> bool
    ensures { result ≡ list_all (λ row. list_all (is_as_long program.now) row) found.now }
{
    found
        .iter()
        .all(|row| are_as_long_on(program, row.as_slice()))
}

/// An output of an operation. In contracts a source of the flat graph.
#[derive(Clone, Copy, Drop)]
struct Met {
    vertex: u32,
    port: usize,
}

/// The output that is met from a buffer; output 0 of operation 0 where there is none.
fn meet(sources: &[Origin], buffer: usize) -> Met
    ensures vertex { result.vertex ≡ (met_in sources.now buffer).vertex }
    ensures port { result.port ≡ (met_in sources.now buffer).port }
{
    match origin_in(sources, buffer) {
        Origin::Made { vertex, port } => Met { vertex, port },
        _ => Met { vertex: 0, port: 0 },
    }
}

/// Whether two outputs are the same.
fn are_one(one: Met, other: Met) -> bool
    ensures { result ≡ (nat_eq one.vertex other.vertex && nat_eq one.port other.port) }
{
    one.vertex == other.vertex && one.port == other.port
}

/// Whether the received buffer of a transfer carries what the sent one does.
pub fn carries_alike(sources: &[Origin], crossing: Crossing) -> bool
    ensures { result ≡ carries_alike sources.now crossing }
{
    are_one(
        meet(sources, crossing.received as usize),
        meet(sources, crossing.sent as usize),
    )
}

/// Whether this holds of these transfers.
fn carry_alike_on(sources: &[Origin], found: &[Crossing]) -> bool
    ensures { result ≡ list_all (carries_alike sources.now) found.now }
{
    found
        .iter()
        .all(|crossing| carries_alike(sources, *crossing))
}

/// Whether this holds of all transfers.
fn carry_alike(sources: &[Origin], found: &[Items<Crossing>]) -> bool
    ensures { result ≡ list_all (λ row. list_all (carries_alike sources.now) row) found.now }
{
    found
        .iter()
        .all(|row| carry_alike_on(sources, row.as_slice()))
}

/// Whether each buffer comes from a call, the calls fit, and each transfer receives what is sent in its length.
fn carry_all(program: &Program, tables: &Tables, sources: &[Origin], vertices: &[Vertex]) -> bool
    requires tables { AreTables program.now tables.now }
    requires sources { sources.now ≡ follow_all program.now (length program.now.buffers) }
    requires all { length vertices.now ≤ tables.now.operations }
    ensures { result ≡ carry_all program.now vertices.now sources.now tables.now.crossings.items }
{
    are_calls(sources)
        && are_fitting(program, tables, sources, vertices)
        && are_as_long(program, tables.crossings.as_slice())
        && carry_alike(sources, tables.crossings.as_slice())
}

/// Whether each buffer is written once, near, before it is read and as deep as it may be, comes from a call, and
/// carries what is called for and what is sent.
pub fn are_written(
    alloc: Global,
    program: &Program,
    tables: &Tables,
    vertices: &[Vertex],
) -> Result<bool, OutOfMemory>
    requires tables { AreTables program.now tables.now }
    requires all { length vertices.now ≤ tables.now.operations }
    requires transferred { AreTransferred program.now tables.now.media }
    requires named { AreLow program.now tables.now.media }
    ensures { IfOk result (λ told. told ≡ are_written program.now vertices.now tables.now.media) }
{
    if !are_buffers(program, &tables.writes, &tables.reads) {
        return Ok(false);
    }
    let sources = find_sources(alloc, program, tables)?;
    Ok(carry_all(program, tables, sources.as_slice(), vertices))
}
