//! The least operator that no route joins to operator 0, which `whole` names in a refusal.
ghost use Rattle.std.specs.Prelude.{◌≡◌, ◌<◌, ◌≤◌, not, length, position, IfSome};
ghost use Rattle.std.specs.List.{range_with_len};
ghost use Rattle.syn_base.specs.Limits.{bound_of};
ghost use Rattle.syn_base.specs.declared.limits.LimitKind.TheVariants.{Operators};
ghost use Rattle.archi_defs.specs.Archi.{reached_within};
ghost use Rattle.archi_defs.specs.Routes.{AreOperators};

use archi_defs::{Medium, reached};

/// The least of this many operators to which no route leads from operator 0.
pub fn apart(operators: usize, media: &[Medium]) -> Option<usize>
    requires few { operators ≤ bound_of Operators }
    requires known { AreOperators (bound_of Operators) media.now }
    ensures place { result ≡ position (λ o. not (reached_within media.now operators o)) (range_with_len 0 operators) }
    ensures within { IfSome result (λ o. o < operators) }
{
    let reached = reached(operators, media);
    first_unset(&reached[..operators])
}

/// The place of the first flag that is not set.
fn first_unset(flags: &[bool]) -> Option<usize>
    ensures place { result ≡ position (λ is_set. not is_set) flags.now }
    ensures within { IfSome result (λ k. k < length flags.now) }
{
    flags.iter().position(|is_set| !*is_set)
}
