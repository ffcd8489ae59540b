//! Reachability: which operators hops over the media join to operator 0. `is_archi` asks for it,
//! and `archi_reader` for the operator to name in a refusal.
ghost use Rattle.std.specs.Prelude.{◌≡◌, ℕ, ◌<◌, ◌≤◌, ◌||◌, ◌&&◌, All, false, nat_eq, slice_index_or};
ghost use Rattle.std.specs.List.{list_all, list_any};
ghost use Rattle.syn_base.specs.Limits.{bound_of};
ghost use Rattle.syn_base.specs.declared.limits.LimitKind.TheVariants.{Operators};
ghost use Rattle.archi_graph.specs.Archi.{are_joined, reached_within, stands_at};
ghost use Rattle.archi_graph.specs.Routes.{AreOperators};

use crate::medium::Medium;

/// A flag for each operator.
type Flags = [bool; 16];

/// Whether each of this many operators is reached from operator 0.
pub fn are_joined(operators: usize, media: &[Medium]) -> bool
    requires few { operators ≤ bound_of Operators }
    requires known { AreOperators (bound_of Operators) media.now }
    ensures { result ≡ are_joined operators media.now }
{
    let reached = reached(operators, media);
    are_all_set(&reached[..operators])
}

/// A flag for each of 16 operators: whether at most this many hops lead to it from operator 0.
pub fn reached(hops: usize, media: &[Medium]) -> [bool; 16]
    requires { AreOperators (bound_of Operators) media.now }
    ensures { (o : ℕ) → o < bound_of Operators → slice_index_or result o false ≡ reached_within media.now hops o }
{
    let mut reached: Flags = [false; 16];
    reached[0] = true;
    for _hops in 0..hops {
        reached = one_hop_further(&reached, media);
    }
    reached
}

/// Whether every flag is set.
fn are_all_set(flags: &[bool]) -> bool
    ensures { result ≡ list_all (λ is_set. is_set) flags.now }
{
    flags.iter().all(|is_set| *is_set)
}

/// The flags after one more hop: those that are set so far, and those of all operators at each
/// medium at which one of them stands.
fn one_hop_further(near: &Flags, media: &[Medium]) -> Flags
    requires { AreOperators (bound_of Operators) media.now }
    ensures { (o : ℕ) → o < bound_of Operators → slice_index_or result o false ≡
        (slice_index_or near.now o false ||
        list_any (λ m. stands_at m o && list_any (λ p. slice_index_or near.now p false) m.stands)
        media.now) }
{
    let mut far = *near;
    for medium in media {
        let stands = medium.stands.as_slice();
        if is_any_set(near, stands) {
            set_all(&mut far, stands);
        }
    }
    far
}

/// Whether the flag of one of these operators is set.
fn is_any_set(flags: &Flags, operators: &[u32]) -> bool
    requires { All (λ o. o < bound_of Operators) operators.now }
    ensures { result ≡ list_any (λ p. slice_index_or flags.now p false) operators.now }
{
    operators.iter().any(|o| flags[*o as usize])
}

/// Sets the flags of these operators.
fn set_all(flags: &mut Flags, operators: &[u32])
    requires { All (λ o. o < bound_of Operators) operators.now }
    ensures { (o : ℕ) → o < bound_of Operators → slice_index_or flags.new o false ≡
        (slice_index_or flags.old o false || list_any (nat_eq o) operators.now) }
{
    for o in operators {
        flags[*o as usize] = true;
    }
}
