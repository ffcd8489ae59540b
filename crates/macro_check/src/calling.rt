//! The check of calls: each operation is called once, in a computation sequence, and the halves of a delay in order.
ghost use Rattle.std.specs.Prelude.{◌≡◌, ℕ, ◌<◌, ◌&&◌, nat_eq, nat_lt, length, is_none};
ghost use Rattle.sequence_build_laws.specs.Instructions.{medium};
ghost use Rattle.sequence_build_laws.specs.Places.{caller_of};
ghost use Rattle.program_tables.specs.MarkRows.{row};
ghost use Rattle.program_tables.specs.declared.roles.Role.TheVariants.{Called};
ghost use Rattle.program_tables.specs.Marks.{lone, marks_of};
ghost use Rattle.order_check.specs.Calls.{called_at, is_before_twin};
ghost use Rattle.check_laws.specs.Tests.{are_called, is_called};

use program_tables::{Mark, MarkTable, call_of, is_lone};
use program_walks::{Stand, caller_of, first_call, medium_of, turn_of};
use sequence_build_laws::{Kind, Program, Vertex};

/// The first call of an operation. Of one beyond the table it is looked for in the whole program.
fn find_call(program: &Program, calls: &MarkTable, operations: usize, operation: usize) -> Stand
    requires { (v : ℕ) → v < operations → row calls.now v ≡ marks_of program.now Called v }
    ensures sequence { result.sequence ≡ caller_of program.now operation }
    ensures at { result.at ≡ called_at program.now operation }
{
    if operation < operations {
        return call_of(program, operation, calls.of(operation));
    }
    let sequence = caller_of(program, operation);
    Stand {
        sequence,
        at: first_call(turn_of(program, sequence), operation),
    }
}

/// Whether a call stands before another one in the same sequence.
fn is_before(call: Stand, twin: Stand) -> bool
    ensures { result ≡ (nat_eq call.sequence twin.sequence && nat_lt call.at twin.at) }
{
    call.sequence == twin.sequence && call.at < twin.at
}

/// Whether a call of this kind stands before that of its twin, if it is the get half of a delay.
fn is_before_twin(
    program: &Program,
    calls: &MarkTable,
    operations: usize,
    call: Stand,
    x: &Vertex,
) -> bool
    requires { (v : ℕ) → v < operations → row calls.now v ≡ marks_of program.now Called v }
    ensures { result ≡ is_before_twin program.now call.sequence call.at x.now.kind x.now.twin }
{
    match (&x.kind, x.twin) {
        (Kind::Get(_), Some(twin)) => {
            is_before(call, find_call(program, calls, operations, twin as usize))
        }
        _ => true,
    }
}

/// Whether these calls of an operation are one, in a computation sequence, a get half before its set half.
fn is_called_at(
    program: &Program,
    calls: &MarkTable,
    operations: usize,
    x: &Vertex,
    marks: &[Mark],
    call: Stand,
) -> bool
    requires { (v : ℕ) → v < operations → row calls.now v ≡ marks_of program.now Called v }
    ensures { result ≡ (lone call.sequence marks.now &&
        is_none (medium program.now call.sequence) &&
        is_before_twin program.now call.sequence call.at x.now.kind x.now.twin) }
{
    is_lone(marks, call.sequence)
        && medium_of(program, call.sequence).is_none()
        && is_before_twin(program, calls, operations, call, x)
}

/// Whether an operation is called once, in a computation sequence, and a get half before its set half.
fn is_called(
    program: &Program,
    calls: &MarkTable,
    operations: usize,
    operation: usize,
    x: &Vertex,
) -> bool
    requires table { (v : ℕ) → v < operations → row calls.now v ≡ marks_of program.now Called v }
    requires within { operation < operations }
    ensures { result ≡ is_called program.now operation x.now }
{
    let marks = calls.of(operation);
    let call = call_of(program, operation, marks);
    is_called_at(program, calls, operations, x, marks, call)
}

/// Whether each operation is called once, in a computation sequence, and the get half of a delay before its
/// set half in one sequence. The table has the calls of each operation.
pub fn are_called(program: &Program, calls: &MarkTable, vertices: &[Vertex]) -> bool
    requires { (v : ℕ) → v < length vertices.now → row calls.now v ≡ marks_of program.now Called v }
    ensures { result ≡ are_called program.now vertices.now }
{
    for (operation, x) in vertices.iter().enumerate() {
        if !is_called(program, calls, vertices.len(), operation, x) {
            return false;
        }
    }
    true
}
