//! How many transfers a schedule has.
ghost use Rattle.std.specs.Prelude.{◌≡◌, ◌+◌, ◌≤◌, IsTrue, length};
ghost use Rattle.std.specs.List.{count_by};
ghost use Rattle.self_timed.specs.Fitting.{IsOf};
ghost use Rattle.self_timed.specs.Table.{entry_in};
ghost use Rattle.self_timed.specs.ScheduleValid.{is_valid};
ghost use Rattle.self_timed.specs.Acts.{transfers_of as transfers_in};
ghost use Rattle.lower_bound.specs.Transfers.{carries, is_sort, most_transfers, transfers};

use self_timed::{Archi, Decision, Durations, Flat, Kind, Schedule, Transfer, Vertex};

/// How many transfers there are, and how many of them carry constants, or what delays keep.
#[derive(Clone, Copy, Debug, PartialEq, Eq)]
pub struct Transfers {
    pub all: u64,
    pub constants: u64,
    pub delays: u64,
}

/// What a transfer may carry that is the same in each reaction, or is of the reaction before.
#[derive(Clone, Copy, Debug, PartialEq, Eq)]
pub(crate) enum Sort {
    OfConstant,
    OfDelay,
}

/// How many transfers a valid schedule has. It takes no memory.
pub fn transfers_of(
    flat: &Flat,
    archi: &Archi,
    durations: &Durations,
    schedule: &Schedule,
) -> Transfers
    requires fits { IsOf flat.now archi.now durations.now }
    requires valid { IsTrue (is_valid flat.now archi.now (entry_in durations.now) schedule.now) }
    ensures { result ≡ transfers flat.now schedule.now }
{
    // The proof takes from these calls what they keep: few operations, operators and media.
    let _operators = archi.operators();
    let _operations = durations.operations();
    let vertices = flat.vertices();
    let decisions = schedule.decisions.as_slice();
    Transfers {
        all: count_all(decisions),
        constants: count_of(vertices, decisions, Sort::OfConstant),
        delays: count_of(vertices, decisions, Sort::OfDelay),
    }
}

/// How many transfers these decisions have.
fn count_all(decisions: &[Decision]) -> u64
    requires { length (transfers_in decisions.now) ≤ most_transfers }
    ensures { result ≡ length (transfers_in decisions.now) }
{
    let mut count = 0;
    for decision in decisions {
        count += decision.transfers.as_slice().len() as u64;
    }
    count
}

/// How many of their transfers carry something of this sort.
fn count_of(vertices: &[Vertex], decisions: &[Decision], sort: Sort) -> u64
    requires { length (transfers_in decisions.now) ≤ most_transfers }
    ensures { result ≡ count_by (carries (is_sort sort) vertices.now) (transfers_in decisions.now) }
{
    let mut count = 0;
    for decision in decisions {
        count += count_in(vertices, decision.transfers.as_slice(), sort);
    }
    count
}

/// How many of these transfers do.
fn count_in(vertices: &[Vertex], transfers: &[Transfer], sort: Sort) -> u64
    requires { length transfers.now ≤ most_transfers }
    ensures { result ≡ count_by (carries (is_sort sort) vertices.now) transfers.now }
{
    let mut count = 0;
    for transfer in transfers {
        if carries(vertices, *transfer, sort) {
            count += 1;
        }
    }
    count
}

/// Whether the transfer carries something of this sort.
fn carries(vertices: &[Vertex], transfer: Transfer, sort: Sort) -> bool
    ensures { result ≡ carries (is_sort sort) vertices.now transfer }
{
    match vertices.get(transfer.source.vertex as usize) {
        Some(vertex) => is_sort(sort, &vertex.kind),
        None => false,
    }
}

/// Whether operations of this kind give something of this sort.
fn is_sort(sort: Sort, kind: &Kind) -> bool
    ensures { result ≡ is_sort sort kind.now }
{
    match sort {
        Sort::OfConstant => matches!(kind, Kind::Constant(_)),
        Sort::OfDelay => matches!(kind, Kind::Get(_)),
    }
}
