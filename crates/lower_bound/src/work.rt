//! What operators have to do: the work that all share, and the work that one alone may do.
ghost use Rattle.std.specs.Prelude.{◌≡◌, ◌≤◌, ◌<◌, ◌*◌, ◌&&◌, ◌||◌, count_by, filter, length, map, nat_eq, is_none, sum_by};
ghost use Rattle.std.specs.List.{range_with_len};
ghost use Rattle.syn_base.specs.Limits.{bound_of, most_operations};
ghost use Rattle.syn_base.specs.declared.limits.LimitKind.TheVariants.{Operators};
ghost use Rattle.self_timed.specs.DurationLines.{most_ticks};
ghost use Rattle.self_timed.specs.Table.{entry_in};
ghost use Rattle.lower_bound.specs.Bound.{greatest_work, least, may_work, shared_work, stands_only, takes_time_on, work_only};

use self_timed::Durations;

/// The least duration of an operation, at most 1,000,000,000.
pub(crate) fn least(durations: &Durations, op: u32) -> u64
    requires { op < length durations.now.rows }
    ensures same { result ≡ least durations.now.operators (entry_in durations.now) op }
    ensures bounded { result ≤ most_ticks }
{
    // The proof takes from this call that each operation has an entry for each operator.
    let _operations = durations.operations();
    durations.least(op)
}

/// The least durations of all operations, divided among the operators that may work.
pub(crate) fn shared_work(durations: &Durations) -> u64
    requires few { length durations.now.rows ≤ most_operations }
    requires operators { durations.now.operators ≤ bound_of Operators }
    ensures { result ≡ shared_work durations.now.operators (entry_in durations.now)
        (length durations.now.rows) }
{
    let operators = working_operators(durations).max(1);
    (all_work(durations) + (operators - 1)) / operators
}

/// The sum of the least durations of all operations.
fn all_work(durations: &Durations) -> u64
    requires { length durations.now.rows ≤ most_operations }
    ensures sum { result ≡ sum_by (least durations.now.operators (entry_in durations.now))
        (range_with_len 0 (length durations.now.rows)) }
    ensures low { result ≤ 2048000000000 }
{
    let mut work = 0;
    for op in 0..durations.operations() as u32 {
        work += least(durations, op);
    }
    work
}

/// How many operators may work.
fn working_operators(durations: &Durations) -> u64
    requires few { length durations.now.rows ≤ most_operations }
    requires operators { durations.now.operators ≤ bound_of Operators }
    ensures count { result ≡ count_by (may_work durations.now.operators (entry_in durations.now)
        (length durations.now.rows)) (range_with_len 0 durations.now.operators) }
    ensures low { result ≤ bound_of Operators }
{
    let mut count = 0;
    for operator in 0..durations.operators() {
        if may_work(durations, operator) {
            count += 1;
        }
    }
    count
}

/// Whether an operation that takes time wherever it stands may stand on this operator.
fn may_work(durations: &Durations, operator: u32) -> bool
    requires { length durations.now.rows ≤ most_operations }
    ensures { result ≡ may_work durations.now.operators (entry_in durations.now)
        (length durations.now.rows) operator }
{
    let operations = durations.operations() as u32;
    (0..operations).any(|op| takes_time_on(durations, operator, op))
}

/// Whether an operation takes time wherever it stands, and may stand on this operator.
fn takes_time_on(durations: &Durations, operator: u32, op: u32) -> bool
    requires { op < length durations.now.rows }
    ensures { result ≡ takes_time_on durations.now.operators (entry_in durations.now) operator op }
{
    0 < least(durations, op) && durations.ticks(op, operator).is_some()
}

/// The greatest work that one operator alone may do.
pub(crate) fn greatest_work(durations: &Durations) -> u64
    requires { length durations.now.rows ≤ most_operations }
    ensures { result ≡ greatest_work durations.now.operators (entry_in durations.now)
        (length durations.now.rows) }
{
    let mut greatest = 0;
    for operator in 0..durations.operators() {
        greatest = work_only(durations, operator).max(greatest);
    }
    greatest
}

/// The durations of the operations that may stand on this operator alone.
fn work_only(durations: &Durations, operator: u32) -> u64
    requires { length durations.now.rows ≤ most_operations }
    ensures { result ≡ work_only durations.now.operators (entry_in durations.now)
        (length durations.now.rows) operator }
{
    let mut work = 0;
    for op in 0..durations.operations() as u32 {
        if stands_only(durations, operator, op) {
            work += least(durations, op);
        }
    }
    work
}

/// Whether the operation may stand on no other operator than this one.
fn stands_only(durations: &Durations, operator: u32, op: u32) -> bool
    ensures { result ≡ stands_only durations.now.operators (entry_in durations.now) operator op }
{
    (0..durations.operators()).all(|other| other == operator
        || durations.ticks(op, other).is_none())
}
