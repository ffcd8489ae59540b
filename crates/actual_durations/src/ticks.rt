//! The ticks of operations and transfers, which `actual_of` lists.
ghost use Rattle.std.specs.Prelude.{◌≡◌, ◌++◌, All, OnOk, length, map, slice_index_or};
ghost use Rattle.actual_durations.specs.Actual.{operation_ticks, operations_ticks, transfer_ticks};
ghost use Rattle.actual_durations.specs.Answers.{IsOneOf};
ghost use Rattle.schedule.specs.Acts.{transfers_of};

use schedule::{Decision, Given, Medium, Source, Transfer, Vertex, entry, len_of};
use syn_base::OutOfMemory;

/// Appends how long each of these operations lasts on its operator.
pub fn append_operations(
    ticks: &mut Vec<u64>,
    actual: &Given,
    vertices: &[Vertex],
    operators: &[Option<u32>],
) -> Result<(), OutOfMemory>
    requires each { length operators.now ≡ length vertices.now }
    requires there { All (IsOneOf actual.now.operators) operators.now }
    ensures { OnOk result (ticks.new.items ≡
        ticks.old.items ++ operations_ticks actual.now.lines vertices.now operators.now) }
{
    for (op, vertex) in vertices.iter().enumerate() {
        ticks.push(operation_ticks(actual, vertex, operators[op]))?;
    }
    Ok(())
}

/// How long the operation lasts on its operator, 0 where it has none.
fn operation_ticks(actual: &Given, vertex: &Vertex, operator: Option<u32>) -> u64
    requires { IsOneOf actual.now.operators operator }
    ensures { result ≡ operation_ticks actual.now.lines vertex.now operator }
{
    match operator {
        Some(operator) => entry(actual, vertex, operator).unwrap_or(0),
        None => 0,
    }
}

/// Appends how long each transfer of these decisions lasts.
pub fn append_transfers(
    ticks: &mut Vec<u64>,
    vertices: &[Vertex],
    media: &[Medium],
    decisions: &[Decision],
) -> Result<(), OutOfMemory>
    ensures { OnOk result (ticks.new.items ≡
        ticks.old.items ++ map (transfer_ticks vertices.now media.now) (transfers_of decisions.now)) }
{
    for decision in decisions {
        append_carried(ticks, vertices, media, decision.transfers.as_slice())?;
    }
    Ok(())
}

/// Appends how long each of these transfers lasts.
fn append_carried(
    ticks: &mut Vec<u64>,
    vertices: &[Vertex],
    media: &[Medium],
    transfers: &[Transfer],
) -> Result<(), OutOfMemory>
    ensures { OnOk result (ticks.new.items ≡
        ticks.old.items ++ map (transfer_ticks vertices.now media.now) transfers.now) }
{
    for transfer in transfers {
        ticks.push(transfer_ticks(vertices, media, *transfer))?;
    }
    Ok(())
}

/// How long the transfer lasts over its medium, 0 where there is no such medium.
fn transfer_ticks(vertices: &[Vertex], media: &[Medium], transfer: Transfer) -> u64
    ensures { result ≡ transfer_ticks vertices.now media.now transfer }
{
    match media.get(transfer.medium as usize) {
        Some(medium) => {
            let len = u64::from(len_of(vertices, transfer.source));
            u64::from(medium.fixed) + len * u64::from(medium.per)
        }
        None => 0,
    }
}
