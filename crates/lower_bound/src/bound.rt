//! The bound itself, the greatest of what its parts give.
ghost use Rattle.std.specs.Prelude.{◌≡◌, ℕ, ◌<◌, ◌≤◌, ◌*◌, IfOk, IsTrue, length, map, slice_index_or};
ghost use Rattle.std.specs.List.{range_with_len};
ghost use Rattle.syn_base.specs.Limits.{most_operations};
ghost use Rattle.self_timed.specs.FlatOrder.{is_acyclic};
ghost use Rattle.self_timed.specs.Fitting.{IsOf};
ghost use Rattle.self_timed.specs.Table.{entry_in};
ghost use Rattle.lower_bound.specs.Bound.{longest_carried, lower_bound};
ghost use Rattle.lower_bound.specs.Laws.{IsBelowAll};
ghost use Rattle.lower_bound.specs.Turns.{AreShort};
ghost use Rattle.syn_base.specs.Numbers.{greatest};

use crate::chains::chain_ends;
use crate::work::{greatest_work, shared_work};
use self_timed::{Archi, Durations, Flat, Medium, Vertex};
use std::alloc::Global;
use syn_base::OutOfMemory;

/// The greatest of the longest chain with the transfers that it cannot do without, the sum of least
/// durations divided among the operators that may work, and the work that one operator alone may
/// do. No valid schedule is shorter. The durations are those of the flat graph and the architecture.
pub fn lower_bound(
    alloc: Global,
    flat: &Flat,
    archi: &Archi,
    durations: &Durations,
) -> Result<u64, OutOfMemory>
    requires { IsOf flat.now archi.now durations.now }
    ensures bound { IfOk result (λ n. n ≡ lower_bound (length archi.now.operators) (entry_in durations.now)
        flat.now.vertices archi.now.media) }
    ensures below { IfOk result (IsBelowAll flat.now archi.now (entry_in durations.now)) }
{
    // The proof takes from these calls that the architecture and the durations are valid.
    let _operators = archi.operators();
    let _operations = durations.operations();
    let chain = longest_carried(alloc, flat.vertices(), archi.media(), durations)?;
    Ok(
        chain
            .max(shared_work(durations))
            .max(greatest_work(durations)),
    )
}

/// The longest chain with the transfers that it cannot do without.
fn longest_carried(
    alloc: Global,
    vertices: &[Vertex],
    media: &[Medium],
    durations: &Durations,
) -> Result<u64, OutOfMemory>
    requires few { length vertices.now ≤ most_operations }
    requires rows { length durations.now.rows ≡ length vertices.now }
    requires acyclic { IsTrue (is_acyclic vertices.now) }
    requires short { AreShort media.now vertices.now }
    ensures { IfOk result (λ n. n ≡ longest_carried durations.now.operators
        (entry_in durations.now) vertices.now media.now) }
{
    let ends = chain_ends(alloc, vertices, media, durations)?;
    Ok(greatest(&ends))
}

/// The greatest of these dates, 0 where there is none.
pub(crate) fn greatest(dates: &[u64]) -> u64
    ensures { result ≡ greatest dates.now }
{
    let mut greatest = 0;
    for date in dates {
        greatest = (*date).max(greatest);
    }
    greatest
}
