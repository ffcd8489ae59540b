//! The comparison of two architectures but for the times of their media, which `actual_of` asks for
//! first.
ghost use Rattle.std.specs.Prelude.{◌≡◌};
ghost use Rattle.std.specs.Cmp.Lexicographic.{pointwise};
ghost use Rattle.std.specs.Str.{bytes_eq};
ghost use Rattle.actual_durations.specs.Actual.{same_architecture, same_medium};

use schedule::{Archi, Medium};
use syn_base::Name;

/// Whether both have the same operators, media, kinds, connections and depth, in the same order.
pub fn same_architecture(stated: &Archi, actual: &Archi) -> bool
    ensures { result ≡ same_architecture stated.now actual.now }
{
    same_names(stated.operators(), actual.operators())
        && same_media(stated.media(), actual.media())
        && stated.depth() == actual.depth()
}

/// Whether both lists have the same names in the same order.
fn same_names(stated: &[Name], actual: &[Name]) -> bool
    ensures { result ≡ pointwise bytes_eq stated.now actual.now }
{
    if stated.len() != actual.len() {
        return false;
    }
    for (place, name) in actual.iter().enumerate() {
        if stated[place].as_bytes() != name.as_bytes() {
            return false;
        }
    }
    true
}

/// Whether both lists have the same media in the same order, but for their times.
fn same_media(stated: &[Medium], actual: &[Medium]) -> bool
    ensures { result ≡ pointwise same_medium stated.now actual.now }
{
    if stated.len() != actual.len() {
        return false;
    }
    for (place, medium) in actual.iter().enumerate() {
        if !same_medium(&stated[place], medium) {
            return false;
        }
    }
    true
}

/// Whether both media are the same but for their times.
fn same_medium(stated: &Medium, actual: &Medium) -> bool
    ensures { result ≡ same_medium stated.now actual.now }
{
    stated.name.as_bytes() == actual.name.as_bytes()
        && stated.kind.is_same(actual.kind)
        && stated.stands.as_slice() == actual.stands.as_slice()
}
