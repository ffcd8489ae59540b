//! The sequences of an architecture, in their order. `Archi::sequences` hands them out to whoever
//! builds or checks programs.
ghost use Rattle.std.specs.Prelude.{◌≡◌, ◌≤◌, ◌++◌, length, OnOk, IfOk};
ghost use Rattle.std.specs.List.{flat_map, range_with_len};
ghost use Rattle.syn_base.specs.Limits.{bound_of};
ghost use Rattle.syn_base.specs.declared.limits.LimitKind.TheVariants.{Media, Operators};
ghost use Rattle.archi_graph.specs.Sequences.{sequences_of};
ghost use Rattle.archi_graph.specs.Archi.{stands_at};

use crate::medium::{Medium, Seq};
use std::alloc::Global;
use syn_base::OutOfMemory;

/// The sequences of this many operators at these media.
pub fn all_sequences(
    alloc: Global,
    operators: usize,
    media: &[Medium],
) -> Result<Vec<Seq>, OutOfMemory>
    requires operators { operators ≤ bound_of Operators }
    requires media { length media.now ≤ bound_of Media }
    ensures { IfOk result (λ s. s.items ≡ flat_map (sequences_of media.now) (range_with_len 0 operators)) }
{
    let mut sequences = Vec::new(alloc);
    for operator in 0..operators {
        add_sequences(operator as u32, media, &mut sequences)?;
    }
    Ok(sequences)
}

/// Adds the sequences of an operator: its computation sequence, and then its communicators.
fn add_sequences(
    operator: u32,
    media: &[Medium],
    sequences: &mut Vec<Seq>,
) -> Result<(), OutOfMemory>
    requires { length media.now ≤ bound_of Media }
    ensures { OnOk result (sequences.new.items ≡ sequences.old.items ++ sequences_of media.now operator) }
{
    sequences.push(Seq {
        operator,
        medium: None,
    })?;
    for (number, medium) in media.iter().enumerate() {
        if is_stand(operator, medium) {
            sequences.push(Seq {
                operator,
                medium: Some(number as u32),
            })?;
        }
    }
    Ok(())
}

/// Whether the operator stands at the medium.
fn is_stand(operator: u32, medium: &Medium) -> bool
    ensures { result ≡ stands_at medium.now operator }
{
    medium.stands.as_slice().contains(&operator)
}
