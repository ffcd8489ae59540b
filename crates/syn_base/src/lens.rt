//! Lengths of outputs and inputs by their places: `len_at`, for whoever checks or makes trees and graphs.
ghost use Rattle.std.specs.Prelude.{◌≡◌, slice_index_or};

/// The length at this place, 0 where there is none.
pub fn len_at(lens: &[u32], at: usize) -> u32
    ensures { result ≡ slice_index_or lens.now at 0 }
{
    if at < lens.len() { lens[at] } else { 0 }
}
