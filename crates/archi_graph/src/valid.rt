//! Validity: which operators and media make an architecture. Whoever makes an `Archi` of parts of
//! any origin asks `is_archi`.
ghost use Rattle.std.specs.Prelude.{◌≡◌, nat_le, nat_lt};
ghost use Rattle.std.specs.List.{count_by, list_all};
ghost use Rattle.std.specs.Str.{bytes_eq};
ghost use Rattle.archi_graph.specs.Archi.{are_bounded, are_distinct, ascends_from, is_archi, is_medium, names_of, occurs_once, connections_in};

use crate::joined::are_joined;
use crate::medium::Medium;
use syn_base::Name;

/// The most operators, and the most media.
const MOST: usize = 16;
/// The most stands at all media together.
const MOST_STANDS: usize = 64;
/// The most ticks of a transfer, fixed and for each element.
const MOST_TICKS: u32 = 1_000_000;

/// Whether these operators and media are valid: 1 to 16 operators, at most 16 media and 64 stands,
/// distinct names of all, each medium's stands strictly ascending operators, two of them where it is
/// point to point and at least two where it is multipoint, its ticks at most 1,000,000, and each
/// operator reachable from operator 0. It takes no memory.
#[tactic(auto, using(crate::proofs::Bounds::operators_below))]
pub fn is_archi(operators: &[Name], media: &[Medium]) -> bool
    ensures { result ≡ is_archi operators.now media.now }
{
    if !is_bounded(operators, media) {
        return false;
    }
    if !are_sound(operators.len(), media) {
        return false;
    }
    is_named_once(operators, media) && are_joined(operators.len(), media)
}

/// Whether there are 1 to 16 operators, and at most 16 media with at most 64 stands.
fn is_bounded(operators: &[Name], media: &[Medium]) -> bool
    ensures { result ≡ are_bounded operators.now media.now }
{
    !operators.is_empty() && operators.len() <= MOST && media.len() <= MOST && has_few_stands(media)
}

/// Whether at most 64 operators stand at the media, counted medium by medium. What room is left is
/// counted down, so that no sum can overflow.
fn has_few_stands(media: &[Medium]) -> bool
    ensures { result ≡ nat_le (connections_in media.now) 64 }
{
    let mut room = MOST_STANDS;
    for medium in media {
        let here = medium.stands.as_slice().len();
        if here > room {
            return false;
        }
        room -= here;
    }
    true
}

/// Whether each medium is valid for this many operators.
fn are_sound(operators: usize, media: &[Medium]) -> bool
    ensures { result ≡ list_all (is_medium operators) media.now }
{
    media.iter().all(|medium| is_sound(operators, medium))
}

/// Whether the medium is valid for this many operators: enough of them stand at it, ascending, and
/// its ticks are in their bounds.
fn is_sound(operators: usize, medium: &Medium) -> bool
    ensures { result ≡ is_medium operators medium.now }
{
    let stands = medium.stands.as_slice();
    medium.kind.may_have(stands.len())
        && ascends(stands)
        && are_below(stands, operators)
        && medium.fixed <= MOST_TICKS
        && medium.per <= MOST_TICKS
}

/// Whether each number is above the one before it.
fn ascends(numbers: &[u32]) -> bool
    ensures { result ≡ ascends_from 0 numbers.now }
{
    let mut least = 0;
    for number in numbers {
        let number = u64::from(*number);
        if number < least {
            return false;
        }
        least = number + 1;
    }
    true
}

/// Whether each number is below the bound.
fn are_below(numbers: &[u32], bound: usize) -> bool
    ensures { result ≡ list_all (λ o. nat_lt o bound) numbers.now }
{
    numbers.iter().all(|number| (*number as usize) < bound)
}

/// Whether no two operators or media have the same name. The names are counted where they stand, so
/// it takes no memory.
#[tactic(auto, using(crate::proofs::Names::all_both))]
fn is_named_once(operators: &[Name], media: &[Medium]) -> bool
    ensures { result ≡ are_distinct (names_of operators.now media.now) }
{
    are_operators_alone(operators, media) && are_media_alone(operators, media)
}

/// Whether no other operator and no medium has the name of an operator.
fn are_operators_alone(operators: &[Name], media: &[Medium]) -> bool
    ensures { result ≡ list_all (occurs_once (names_of operators.now media.now)) operators.now }
{
    for name in operators {
        if !is_alone(name.as_bytes(), operators, media) {
            return false;
        }
    }
    true
}

/// Whether no other medium and no operator has the name of a medium.
fn are_media_alone(operators: &[Name], media: &[Medium]) -> bool
    ensures { result ≡ list_all (λ m. occurs_once (names_of operators.now media.now) m.name) media.now }
{
    for medium in media {
        if !is_alone(medium.name.as_bytes(), operators, media) {
            return false;
        }
    }
    true
}

/// Whether exactly one of all operators and media has the name.
#[tactic(auto, using(crate::proofs::Names::count_both))]
fn is_alone(name: &[u8], operators: &[Name], media: &[Medium]) -> bool
    ensures { result ≡ occurs_once (names_of operators.now media.now) name.now }
{
    count_operators(name, operators) + count_media(name, media) == 1
}

/// How many operators have the name.
fn count_operators(name: &[u8], operators: &[Name]) -> usize
    ensures { result ≡ count_by (bytes_eq name.now) operators.now }
{
    operators.iter().filter(|x| x.as_bytes() == name).count()
}

/// How many media have the name.
fn count_media(name: &[u8], media: &[Medium]) -> usize
    ensures { result ≡ count_by (λ m. bytes_eq name.now m.name) media.now }
{
    media.iter().filter(|m| m.name.as_bytes() == name).count()
}
