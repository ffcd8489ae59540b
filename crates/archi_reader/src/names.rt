//! Names of operators and media, as `reader` looks them up.
ghost use Rattle.std.specs.Prelude.{◌≡◌, ◌<◌, ◌++◌, length, map, position, IfSome};
ghost use Rattle.std.specs.List.{list_any};
ghost use Rattle.std.specs.Str.{bytes_eq};
ghost use Rattle.archi_defs.specs.Text.{place_of};

use archi_defs::Medium;
use syn_base::Name;

/// The number of the operator of this name.
pub fn operator_at(operators: &[Name], name: &[u8]) -> Option<usize>
    ensures place { result ≡ place_of name.now operators.now }
    ensures within { IfSome result (λ k. k < length operators.now) }
{
    operators
        .iter()
        .position(|operator| name == operator.as_bytes())
}

/// The number of the medium of this name, found among the media themselves, so that no list of
/// names is made.
fn medium_named(media: &[Medium], name: &[u8]) -> Option<usize>
    ensures place { result ≡ position (λ m. bytes_eq name.now m.name) media.now }
    ensures within { IfSome result (λ k. k < length media.now) }
{
    media
        .iter()
        .position(|medium| name == medium.name.as_bytes())
}

/// The number of the medium of this name.
#[tactic(auto, using(crate::proofs::Named::place_of_medium))]
pub fn medium_at(media: &[Medium], name: &[u8]) -> Option<usize>
    ensures place { result ≡ place_of name.now (map (λ m. m.name) media.now) }
    ensures within { IfSome result (λ k. k < length media.now) }
{
    medium_named(media, name)
}

/// Whether an operator has this name.
fn is_operator(operators: &[Name], name: &[u8]) -> bool
    ensures { result ≡ list_any (bytes_eq name.now) operators.now }
{
    operators.iter().any(|operator| name == operator.as_bytes())
}

/// Whether a medium has this name.
fn is_medium(media: &[Medium], name: &[u8]) -> bool
    ensures { result ≡ list_any (λ m. bytes_eq name.now m.name) media.now }
{
    media.iter().any(|medium| name == medium.name.as_bytes())
}

/// An operator or a medium has this name.
#[tactic(auto, using(crate::proofs::Named::any_both))]
pub fn is_taken(operators: &[Name], media: &[Medium], name: &[u8]) -> bool
    ensures { result ≡ list_any (bytes_eq name.now) (operators.now ++ map (λ m. m.name) media.now) }
{
    is_operator(operators, name) || is_medium(media, name)
}
