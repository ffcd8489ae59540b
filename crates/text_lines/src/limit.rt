//! The limits on what a text gives, which its reader checks line by line.
ghost use Rattle.std.specs.Prelude.{◌≡◌, MatchResult, nat_lt, true, false};
ghost use Rattle.syn_base.specs.Limits.{bound_of};

use syn_base::{LimitFault, LimitKind};

/// Refuses a quantity above its bound.
pub fn check_limit(which: LimitKind, count: u128) -> Result<(), LimitFault>
    ensures { MatchResult result (λ _. nat_lt (bound_of which) count ≡ false)
        (λ fault. (nat_lt (bound_of which) count ≡ true)
        × (fault ≡ record { which = which; count = count; bound = bound_of which })) }
{
    let bound = which.bound();
    if count > bound {
        return Err(LimitFault {
            which,
            count,
            bound,
        });
    }
    Ok(())
}
