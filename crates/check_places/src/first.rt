//! Places as they are put together: the instruction that shows one, a rule that is broken unless something holds, and
//! the first of two.
ghost use Rattle.std.specs.Prelude.{◌≡◌};
ghost use Rattle.sequence_build_laws.specs.MicroSteps.{first_of};
ghost use Rattle.check_places.specs.First.{broken, broken_at, in_loop, spot_at, unless};

use crate::place::{Part, Place, Rule, Spot, Subject};
use program_tables::Mark;

/// An instruction of a part of a sequence.
pub fn spot_at(part: Part, sequence: usize, at: usize) -> Option<Spot>
    ensures { result ≡ spot_at part sequence at }
{
    Some(Spot { part, sequence, at })
}

/// An instruction of the loop of a sequence.
pub fn in_loop(sequence: usize, at: usize) -> Option<Spot>
    ensures { result ≡ in_loop sequence at }
{
    spot_at(Part::Loop, sequence, at)
}

/// A place at which a rule is broken.
pub fn broken(rule: Rule, subject: Subject, spot: Option<Spot>) -> Option<Place>
    ensures { result ≡ broken rule subject spot }
{
    Some(Place {
        rule,
        subject,
        spot,
    })
}

/// A place at which a rule is broken by an instruction of a loop, if there is one.
pub fn broken_at(rule: Rule, subject: Subject, mark: Option<Mark>) -> Option<Place>
    ensures { result ≡ broken_at rule subject mark }
{
    match mark {
        Some(mark) => broken(rule, subject, in_loop(mark.sequence, mark.at)),
        None => None,
    }
}

/// A place, unless this holds.
pub fn unless(holds: bool, place: Option<Place>) -> Option<Place>
    ensures { result ≡ unless holds place }
{
    if holds { None } else { place }
}

/// The first of two places, or the second where there is no first.
pub fn first_of(first: Option<Place>, second: Option<Place>) -> Option<Place>
    ensures { result ≡ first_of first second }
{
    match first {
        Some(place) => Some(place),
        None => second,
    }
}
