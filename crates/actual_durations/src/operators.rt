//! The operator of each operation, as the decisions place them.
ghost use Rattle.std.specs.Prelude.{◌≡◌, ◌<◌, All, IfOk};
ghost use Rattle.actual_durations.specs.Actual.{operators_of};

use schedule::Decision;
use std::alloc::Global;
use syn_base::OutOfMemory;

/// The operator of each of this many operations, by number, in proportion to the decisions.
pub fn operators_of(
    alloc: Global,
    operations: usize,
    decisions: &[Decision],
) -> Result<Vec<Option<u32>>, OutOfMemory>
    requires { All (λ d. d.op < operations) decisions.now }
    ensures { IfOk result (λ v. v.items ≡ operators_of decisions.now operations) }
{
    let mut operators = vec![in alloc; None; operations]?;
    for decision in decisions {
        let op = decision.op as usize;
        if operators[op].is_none() {
            operators[op] = Some(decision.operator);
        }
    }
    Ok(operators)
}
