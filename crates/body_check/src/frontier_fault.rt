//! The limit on the lengths of outer ports, for the checks of frontier lines. It takes no memory.
ghost use Rattle.algo_rules.specs.Frontiers.{too_long};
ghost use Rattle.algo_rules.specs.Placed.{Checks};

use algo_rules::AlgoError;
use syn_base::{LimitFault, LimitKind};

/// The limit, with the length, where a port would have more than 64 elements.
pub fn check_len(len: u32) -> Result<(), AlgoError>
    ensures { Checks result (too_long len) }
{
    if len > 64 {
        return Err(AlgoError::Limit(LimitFault {
            which: LimitKind::PortLength,
            count: u128::from(len),
            bound: LimitKind::PortLength.bound(),
        }));
    }
    Ok(())
}
