//! The operators that stand at a medium, as `archi_reader` connects them.
ghost use Rattle.std.specs.Prelude.{◌≡◌, ◌≤◌, ◌==◌, length, nat_lt, position};
ghost use Rattle.std.specs.List.{list_any, position_or_len};
ghost use Rattle.archi_defs.specs.Text.{with_stand};
ghost use Rattle.text_lines.specs.Refusals.{Has};

use crate::fault::ArchiError;
use archi_graph::Medium;
use std::alloc::Global;
use syn_base::Items;

/// The operator stands at the medium.
pub fn has_stand(medium: &Medium, operator: u32) -> bool
    ensures { result ≡ list_any (λ p. p == operator) medium.now.stands }
{
    medium
        .stands
        .as_slice()
        .iter()
        .any(|stand| *stand == operator)
}

/// The place of the first of these operators that is above this one.
fn first_above(operator: u32, stands: &[u32]) -> Option<usize>
    ensures { result ≡ position (nat_lt operator) stands.now }
{
    stands.iter().position(|stand| operator < *stand)
}

/// The place of an operator among ascending ones.
#[tactic(auto, using(text_lines::proofs::Places::found_at, text_lines::proofs::Places::missing_at))]
fn place_for(operator: u32, stands: &[u32]) -> usize
    ensures place { result ≡ position_or_len (nat_lt operator) stands.now }
    ensures within { result ≤ length stands.now }
{
    match first_above(operator, stands) {
        Some(place) => place,
        None => stands.len(),
    }
}

/// The operators, ascending, with one more.
#[tactic(auto, using(crate::proofs::Placed::placed))]
pub fn with_stand(alloc: Global, operator: u32, stands: &[u32]) -> Result<Items<u32>, ArchiError>
    ensures { Has result (with_stand operator stands.now) }
{
    let mut more = Vec::from_slice(alloc, stands)?;
    more.insert(place_for(operator, stands), operator)?;
    Ok(Items::new(more))
}
