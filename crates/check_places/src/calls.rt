//! Where the calls of operations are wrong.
ghost use Rattle.std.specs.Prelude.{◌≡◌, ℕ, ◌<◌, ◌∷◌, ◌&&◌, nat_eq, nat_lt, is_none, length};
ghost use Rattle.sequence_build_laws.specs.Places.{caller_of};
ghost use Rattle.sequence_build_laws.specs.Instructions.{medium};
ghost use Rattle.program_tables.specs.MarkRows.{row};
ghost use Rattle.program_tables.specs.declared.roles.Role.TheVariants.{Called};
ghost use Rattle.program_tables.specs.Marks.{marks_of};
ghost use Rattle.order_check.specs.Calls.{called_at, is_before_twin};
ghost use Rattle.check_places.specs.declared.place.Rule.TheVariants.{CalledAgain, CalledInThread, GetNotBeforeSet};
ghost use Rattle.check_places.specs.declared.place.Subject.TheVariants.{Operation};
ghost use Rattle.check_places.specs.First.{broken, broken_at, first_failing, in_loop, unless};
ghost use Rattle.check_places.specs.Calls.{call_place_by, calls_place, is_same};

use crate::first::{broken, broken_at, first_of, in_loop, unless};
use crate::place::{Place, Rule, Subject};
use program_tables::{Mark, MarkTable};
use program_walks::{caller_of, first_call, medium_of, turn_of};
use sequence_build_laws::{Kind, Program, Vertex};

/// Whether two places are one instruction.
fn is_same(mark: Mark, other: Mark) -> bool
    ensures { result ≡ is_same mark other }
{
    other.sequence == mark.sequence && other.at == mark.at
}

/// The first of these places that is another instruction.
fn first_other(mark: Mark, marks: &[Mark]) -> Option<Mark>
    ensures { result ≡ first_failing (is_same mark) marks.now }
{
    for other in marks {
        if !is_same(mark, *other) {
            return Some(*other);
        }
    }
    None
}

/// Whether an instruction stands before the first call of an operation, in the same sequence.
fn is_before(program: &Program, sequence: usize, at: usize, operation: usize) -> bool
    ensures { result ≡ (nat_eq sequence (caller_of program.now operation) &&
        nat_lt at (called_at program.now operation)) }
{
    let caller = caller_of(program, operation);
    sequence == caller && at < first_call(turn_of(program, caller), operation)
}

/// Whether a call of an operation stands before that of its twin, if it is the get half of a delay.
fn is_before_twin(program: &Program, sequence: usize, at: usize, x: &Vertex) -> bool
    ensures { result ≡ is_before_twin program.now sequence at x.now.kind x.now.twin }
{
    match (&x.kind, x.twin) {
        (Kind::Get(_), Some(twin)) => is_before(program, sequence, at, twin as usize),
        _ => true,
    }
}

/// The first of these places at which an operation is called again that is called here.
fn again_place(operation: usize, mark: Mark, rest: &[Mark]) -> Option<Place>
    ensures { result ≡ broken_at CalledAgain (Operation operation) (first_failing (is_same mark) rest.now) }
{
    broken_at(
        Rule::CalledAgain,
        Subject::Operation(operation),
        first_other(mark, rest),
    )
}

/// The call of an operation, where it stands in a communicator.
fn thread_place(program: &Program, operation: usize, mark: Mark) -> Option<Place>
    ensures { result ≡ unless (is_none (medium program.now mark.sequence))
        (broken CalledInThread (Operation operation) (in_loop mark.sequence mark.at)) }
{
    unless(
        medium_of(program, mark.sequence).is_none(),
        broken(
            Rule::CalledInThread,
            Subject::Operation(operation),
            in_loop(mark.sequence, mark.at),
        ),
    )
}

/// The call of an operation, where it is a get half and does not stand before its set half.
fn twin_place(program: &Program, operation: usize, x: &Vertex, mark: Mark) -> Option<Place>
    ensures { result ≡ unless (is_before_twin program.now mark.sequence mark.at x.now.kind x.now.twin)
        (broken GetNotBeforeSet (Operation operation) (in_loop mark.sequence mark.at)) }
{
    unless(
        is_before_twin(program, mark.sequence, mark.at, x),
        broken(
            Rule::GetNotBeforeSet,
            Subject::Operation(operation),
            in_loop(mark.sequence, mark.at),
        ),
    )
}

/// Where the calls of an operation are wrong, which is called here and at these places: called again, in a communicator,
/// or as a get half not before its set half.
fn call_place_at(
    program: &Program,
    operation: usize,
    x: &Vertex,
    mark: Mark,
    rest: &[Mark],
) -> Option<Place>
    ensures { result ≡ call_place_by program.now operation x.now (mark ∷ rest.now) }
{
    first_of(
        again_place(operation, mark, rest),
        first_of(
            thread_place(program, operation, mark),
            twin_place(program, operation, x, mark),
        ),
    )
}

/// Where the calls of an operation are wrong, which is called at these places.
fn call_place(program: &Program, operation: usize, x: &Vertex, marks: &[Mark]) -> Option<Place>
    ensures { result ≡ call_place_by program.now operation x.now marks.now }
{
    match marks {
        [] => broken(Rule::NotCalled, Subject::Operation(operation), None),
        [mark, rest @ ..] => call_place_at(program, operation, x, *mark, rest),
    }
}

/// The first operation that is not called once in a computation sequence, a get half before its set half. The table
/// has the calls of each operation.
pub fn calls_place(program: &Program, calls: &MarkTable, vertices: &[Vertex]) -> Option<Place>
    requires { (v : ℕ) → v < length vertices.now → row calls.now v ≡ marks_of program.now Called v }
    ensures { result ≡ calls_place program.now vertices.now }
{
    for (operation, x) in vertices.iter().enumerate() {
        if let Some(place) = call_place(program, operation, x, calls.of(operation)) {
            return Some(place);
        }
    }
    None
}
