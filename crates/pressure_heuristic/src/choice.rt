//! The choice of the next decision: the candidate of greatest least pressure, on its operator of
//! least pressure. `adequation` asks for it in each step.
ghost use Rattle.std.specs.Prelude.{◌≡◌, ◌<◌, ◌≤◌, IfSome, IsTrue, length};
ghost use Rattle.std.specs.List.{filter};
ghost use Rattle.schedule.specs.Acts.{acts_of};
ghost use Rattle.comm_routing.specs.Draft.{task_of};
ghost use Rattle.comm_routing.specs.Placing.{is_candidate, may_place, may_stand, ticks_in};
ghost use Rattle.pressure_heuristic.specs.Pressure.{candidates, operators, pressure, urgency};
ghost use Rattle.pressure_heuristic.specs.Choosing.{IsBest, IsChoice, IsGreatestChoice, IsGuide, IsLeastStand, IsNext, Leads, higher_choice, lower_stand, next_of, pressure_of};

use crate::proposals::Proposals;
use comm_routing::Draft;
use schedule::Durations;

/// An operator, and the pressure of an operation there.
#[derive(Clone, Copy, Debug, PartialEq, Eq)]
pub(crate) struct Stand {
    pub operator: u32,
    pub pressure: u64,
}

/// A candidate, its operator of least pressure, and that pressure; 0 where it has no operator.
#[derive(Clone, Copy, Debug, PartialEq, Eq)]
pub(crate) struct Choice {
    pub op: u32,
    pub stand: Option<Stand>,
    pub pressure: u64,
}

/// The next decision: an operation and its operator.
#[derive(Clone, Copy, Debug, PartialEq, Eq)]
pub(crate) struct Next {
    pub op: u32,
    pub operator: u32,
}

/// The next decision, where there is one.
pub(crate) fn decide(
    draft: &Draft,
    durations: &Durations,
    tails: &[u64],
    proposals: &Proposals,
) -> Option<Next>
    requires guide { IsGuide draft.now durations.now tails.now }
    ensures { IsNext (task_of draft.now) (acts_of draft.now.decisions) result }
{
    match choose(draft, durations, tails, proposals) {
        Some(choice) => next_of(choice),
        None => None,
    }
}

/// The decision of a choice, where the operation has an operator.
fn next_of(choice: Choice) -> Option<Next>
    ensures { result ≡ next_of choice.op choice.stand }
{
    match choice.stand {
        Some(stand) => Some(Next {
            op: choice.op,
            operator: stand.operator,
        }),
        None => None,
    }
}

/// The candidate of greatest least pressure, the first of those that have it.
fn choose(
    draft: &Draft,
    durations: &Durations,
    tails: &[u64],
    proposals: &Proposals,
) -> Option<Choice>
    requires guide { IsGuide draft.now durations.now tails.now }
    ensures { IsGreatestChoice (task_of draft.now) (acts_of draft.now.decisions)
        (candidates (task_of draft.now) (acts_of draft.now.decisions)) result }
{
    let ready = draft.ready();
    let mut best = None;
    for op in ready {
        best = greater(draft, durations, tails, *op, proposals.operator(*op), best);
    }
    best
}

/// The best choice with one candidate more. Where the pressure on the operator that is proposed for it
/// is not above that of the best one, its least pressure is not either, and no other operator is looked
/// at.
fn greater(
    draft: &Draft,
    durations: &Durations,
    tails: &[u64],
    op: u32,
    operator: u32,
    best: Option<Choice>,
) -> Option<Choice>
    requires guide { IsGuide draft.now durations.now tails.now }
    requires candidate { IsTrue (is_candidate (task_of draft.now) (acts_of draft.now.decisions) op) }
    requires best { IsBest (task_of draft.now) (acts_of draft.now.decisions) best }
    ensures best { IsBest (task_of draft.now) (acts_of draft.now.decisions) result }
    ensures leads { Leads (task_of draft.now) (acts_of draft.now.decisions) best op result }
{
    if is_led(draft, durations, tails, op, operator, best) {
        return best;
    }
    Some(higher(best, choice_of(draft, durations, tails, op)))
}

/// Whether the pressure of a candidate on an operator is not above that of the best choice.
fn is_led(
    draft: &Draft,
    durations: &Durations,
    tails: &[u64],
    op: u32,
    operator: u32,
    best: Option<Choice>,
) -> bool
    requires guide { IsGuide draft.now durations.now tails.now }
    requires best { IsBest (task_of draft.now) (acts_of draft.now.decisions) best }
    ensures { IsTrue result → Leads (task_of draft.now) (acts_of draft.now.decisions) best op best }
{
    match best {
        Some(choice) => is_within(draft, durations, tails, op, operator, choice.pressure),
        None => false,
    }
}

/// Whether the pressure of a candidate on an operator where it may stand is at most this.
fn is_within(
    draft: &Draft,
    durations: &Durations,
    tails: &[u64],
    op: u32,
    operator: u32,
    bound: u64,
) -> bool
    requires guide { IsGuide draft.now durations.now tails.now }
    ensures { IsTrue result → urgency (task_of draft.now) (acts_of draft.now.decisions) op ≤ bound }
{
    if draft.may_place(op, operator) {
        let pressure = pressure(draft, durations, tails, op, operator);
        return pressure <= bound;
    }
    false
}

/// The later choice where its pressure is greater, else the earlier one.
fn higher(earlier: Option<Choice>, choice: Choice) -> Choice
    ensures { result ≡ higher_choice earlier choice }
{
    match earlier {
        Some(earlier) if choice.pressure <= earlier.pressure => earlier,
        _ => choice,
    }
}

/// The operator of least pressure of a candidate.
fn choice_of(draft: &Draft, durations: &Durations, tails: &[u64], op: u32) -> Choice
    requires guide { IsGuide draft.now durations.now tails.now }
    requires candidate { IsTrue (is_candidate (task_of draft.now) (acts_of draft.now.decisions) op) }
    ensures op { result.op ≡ op }
    ensures choice { IsChoice (task_of draft.now) (acts_of draft.now.decisions) result }
{
    let stand = least_stand(draft, durations, tails, op);
    Choice {
        op,
        stand,
        pressure: pressure_of(stand),
    }
}

/// The pressure on an operator, 0 where there is none.
fn pressure_of(stand: Option<Stand>) -> u64
    ensures { result ≡ pressure_of stand }
{
    match stand {
        Some(stand) => stand.pressure,
        None => 0,
    }
}

/// The operator of least pressure of a candidate with that pressure, the first of those that have
/// it. It goes over the operators from the last to the first, so that of equal ones the first
/// stays.
fn least_stand(draft: &Draft, durations: &Durations, tails: &[u64], op: u32) -> Option<Stand>
    requires guide { IsGuide draft.now durations.now tails.now }
    requires candidate { IsTrue (is_candidate (task_of draft.now) (acts_of draft.now.decisions) op) }
    ensures { IsLeastStand (task_of draft.now) (acts_of draft.now.decisions) op
        (filter (may_stand (task_of draft.now) (acts_of draft.now.decisions) op)
        (operators (task_of draft.now))) result }
{
    let mut best = None;
    let mut operator = durations.operators();
    while operator > 0 {
        operator -= 1;
        if draft.may_place(op, operator) {
            let pressure = pressure(draft, durations, tails, op, operator);
            best = Some(lower(Stand { operator, pressure }, best));
        }
    }
    best
}

/// The operator, unless the pressure on the later one is less.
fn lower(stand: Stand, later: Option<Stand>) -> Stand
    ensures { result ≡ lower_stand stand later }
{
    match later {
        Some(later) if later.pressure < stand.pressure => later,
        _ => stand,
    }
}

/// The start that the operation would have there, with its time there and its tail.
fn pressure(draft: &Draft, durations: &Durations, tails: &[u64], op: u32, operator: u32) -> u64
    requires guide { IsGuide draft.now durations.now tails.now }
    requires may { IsTrue (may_place (task_of draft.now) (acts_of draft.now.decisions) op operator) }
    requires operation { op < length draft.now.graph.vertices }
    requires operator { operator < length draft.now.archi.operators }
    ensures { result ≡ pressure (task_of draft.now) (acts_of draft.now.decisions) op operator }
{
    let start = draft.try_place(op, operator);
    start + time(durations.ticks(op, operator)) + tails[op as usize]
}

/// The ticks that are there, or 0.
fn time(ticks: Option<u64>) -> u64
    requires { IfSome ticks (λ t. t ≤ 1000000000) }
    ensures time { result ≡ ticks_in ticks }
    ensures low { result ≤ 1000000000 }
{
    match ticks {
        Some(ticks) => ticks,
        None => 0,
    }
}
