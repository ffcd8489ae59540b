//! The two numbers that bound a job, for `Job::new` and `run_limit`: elements that its actuators take, and micro-steps
//! in all. Nothing is laid out to count them.
ghost use Rattle.std.specs.Prelude.{◌≡◌, ◌-◌, ◌*◌, ◌^◌, ◌<◌, ◌≤◌, length, min, None, Some, IfOk, IfErr};
ghost use Rattle.executive_program.specs.Sequences.{sequences};
ghost use Rattle.executive_program.specs.Graph.{len_of as source_len};
ghost use Rattle.executive_program.specs.WellFormed.{IsWellFormed};
ghost use Rattle.std.specs.List.{sum_by};
ghost use Rattle.semaphore_core.specs.Job.{output_elements, total_steps};
ghost use Rattle.syn_base.specs.declared.limits.LimitKind.TheVariants.{Output, Total};
ghost use Rattle.semaphore_core.specs.IsJob.{limit_in, FewerMeetNone};
ghost use Rattle.semaphore_core.specs.Totals.{taken_by, CountsLooks};
ghost use Rattle.syn_base.specs.Limits.{above};

use executive_program::{
    Archi, Flat, Kind, Program, Source, Vertex, deep_pairs, len_of, plain_prologues, plain_turns,
};
use syn_base::{LimitFault, LimitKind, SensorRows};

/// The number of elements of some sources.
fn source_elements(flat: &Flat, sources: &[Source]) -> u128
    ensures value { result ≡ sum_by (source_len flat.now.vertices) sources.now }
    ensures bound { result ≤ length sources.now * 2 ^ 32 }
{
    let mut total = 0u128;
    for source in sources {
        total += len_of(flat.vertices(), *source) as u128;
    }
    total
}

/// The number of elements that an operation takes, where it is an actuator.
fn taken_by(flat: &Flat, x: &Vertex) -> u128
    ensures value { result ≡ taken_by flat.now x.now }
    ensures bound { result < 2 ^ 96 }
{
    match &x.kind {
        Kind::Actuator(_) => source_elements(flat, x.ins.as_slice()),
        _ => 0,
    }
}

/// The number of elements that the actuators take in one reaction.
fn taken_elements(flat: &Flat) -> u128
    ensures value { result ≡ sum_by (taken_by flat.now) flat.now.vertices }
    ensures bound { result ≤ 2 ^ 107 }
{
    let vertices = flat.vertices();
    let mut total = 0u128;
    for x in vertices {
        total += taken_by(flat, x);
    }
    total
}

/// The number of elements that the actuators take in this many reactions.
fn output_elements(flat: &Flat, reactions: usize) -> u128
    requires { reactions ≤ 10000 }
    ensures { result ≡ output_elements flat.now reactions }
{
    reactions as u128 * taken_elements(flat)
}

/// The number of micro-steps of this many reactions of all sequences of a well-formed program, or the last
/// value of the type where it is more. A take of a deep pair is two micro-steps, and in each reaction each
/// pair is taken twice.
pub fn total_steps(program: &Program, reactions: usize) -> u128
    requires { CountsLooks program.now }
    ensures { result ≡ min (total_steps program.now reactions) (2 ^ 128 - 1) }
{
    let looks = deep_pairs(program).saturating_mul(2);
    let turns = plain_turns(program).saturating_add(looks);
    plain_prologues(program).saturating_add(turns.saturating_mul(reactions as u128))
}

/// The fault of a quantity, where it is above its bound.
fn above(which: LimitKind, count: u128) -> Option<LimitFault>
    ensures { result ≡ above which count None }
{
    let bound = which.bound();
    if bound < count {
        Some(LimitFault {
            which,
            count,
            bound,
        })
    } else {
        None
    }
}

/// The limit that refuses this many reactions of a program: that of the elements that the actuators
/// take, and else that of the micro-steps.
pub fn limit_fault(program: &Program, flat: &Flat, reactions: usize) -> Option<LimitFault>
    requires looks { CountsLooks program.now }
    requires few { reactions ≤ 10000 }
    ensures { result ≡ limit_in program.now flat.now reactions }
{
    match above(LimitKind::Output, output_elements(flat, reactions)) {
        Some(fault) => Some(fault),
        None => above(LimitKind::Total, total_steps(program, reactions)),
    }
}

/// The micro-steps of the one job over all these rows, or the limit that refuses it: `Output` where
/// reactions times the actuators' elements are above 2,000,000, and else `Total` where the micro-steps are
/// above 20,000,000. Both tell the exact number; of micro-steps at most the last value of its type. It asks
/// for a program that is well formed for the flat graph and the architecture, and takes no memory.
pub fn run_limit(
    program: &Program,
    flat: &Flat,
    archi: &Archi,
    rows: &SensorRows,
) -> Result<u64, LimitFault>
    requires formed { IsWellFormed program.now flat.now (sequences archi.now) (length archi.now.media) }
    requires few { length rows.now.reactions ≤ 10000 }
    ensures total { IfOk result (λ steps. steps ≡ total_steps program.now (length rows.now.reactions)) }
    ensures within { IfOk result (λ steps. limit_in program.now flat.now (length rows.now.reactions) ≡ None) }
    ensures limit { IfErr result (λ fault. limit_in program.now flat.now (length rows.now.reactions) ≡ Some fault) }
{
    let reactions = rows.count();
    match limit_fault(program, flat, reactions) {
        Some(fault) => Err(fault),
        None => Ok(total_steps(program, reactions) as u64),
    }
}

/// A program that meets no limit over this many reactions meets none over fewer, as in each of its windows. It
/// does nothing.
pub fn fewer_reactions_meet_no_limit()
    ensures { FewerMeetNone }
{}
