//! The words and the micro-steps of a schedule's program, counted from its acts before an instruction is
//! made. `bare` is a program that has the buffers and nothing else.
ghost use Rattle.std.specs.Prelude.{◌≡◌, ◌+◌, ◌-◌, ◌*◌, ◌^◌, ◌≤◌, ◌∷◌, [], cond, min, nat_eq, length, map, IfOk};
ghost use Rattle.std.specs.List.{flat_map, sum_by};
ghost use Rattle.sequence_build_laws.specs.Owners.{sum_below};
ghost use Rattle.sequence_build_laws.specs.Instructions.{len_of};
ghost use Rattle.sequence_build_laws.specs.Acts.{acts_of, carry, copy, run};
ghost use Rattle.sequence_build_laws.specs.Serial.{is_other};
ghost use Rattle.sequence_build.specs.Plain.{numbering, steps_at};
ghost use Rattle.sequence_build.specs.Counted.{buffer_sum, carried_len, longest, pair_micros, step_micros};

use crate::site::{Site, is_other};
use sequence_build_laws::{
    Buffer, Decision, Program, Seq, Source, Transfer, buffer_len, elements_in,
};
use std::alloc::Global;
use syn_base::OutOfMemory;

/// The length of the buffer of a copy.
fn copy_len(bare: &Program, site: &Site<'_>, operator: u32, source: Source) -> u32
    ensures { result ≡ len_of bare.now (numbering site.now (copy operator source)) }
{
    buffer_len(bare, site.buffer(operator, source))
}

/// The length of what a transfer carries over a medium, 0 for a transfer over another one.
fn carried_len(bare: &Program, site: &Site<'_>, medium: u32, transfer: &Transfer) -> u32
    ensures { result ≡ carried_len bare.now (numbering site.now) medium (carry transfer.now) }
{
    if transfer.medium == medium {
        copy_len(bare, site, transfer.from, transfer.source)
    } else {
        0
    }
}

/// The length of the longest value that these transfers carry over a medium.
fn longest_carried(bare: &Program, site: &Site<'_>, medium: u32, transfers: &[Transfer]) -> u32
    ensures { result ≡ longest bare.now (numbering site.now) medium (map carry transfers.now) }
{
    let mut longest = 0;
    for transfer in transfers {
        longest = carried_len(bare, site, medium, transfer).max(longest);
    }
    longest
}

/// The length of the wire of a medium: that of the longest value that is carried over it.
fn wire_len(bare: &Program, site: &Site<'_>, medium: u32, decisions: &[Decision]) -> u32
    ensures { result ≡ longest bare.now (numbering site.now) medium (acts_of decisions.now) }
{
    let mut longest = 0;
    for decision in decisions {
        longest = longest_carried(bare, site, medium, decision.transfers.as_slice()).max(longest);
    }
    longest
}

/// The number of elements of the wires of this many media.
pub fn wire_words(bare: &Program, site: &Site<'_>, media: u32, decisions: &[Decision]) -> u128
    ensures value { result ≡ sum_below
        (λ m. longest bare.now (numbering site.now) m (acts_of decisions.now)) media }
    ensures bound { result ≤ media * 2 ^ 32 }
{
    let mut total: u128 = 0;
    for medium in 0..media {
        total += wire_len(bare, site, medium, decisions) as u128;
    }
    total
}

/// How many pairs of semaphores there are, where each buffer is read by this many sequences that do not
/// write it.
pub fn pair_count(counts: &[u32]) -> u128
    ensures value { result ≡ sum_by (λ n. n) counts.now }
    ensures bound { result ≤ length counts.now * 2 ^ 32 }
{
    let mut total: u128 = 0;
    for count in counts {
        total += *count as u128;
    }
    total
}

/// The number of elements of a buffer in all its places: `depth` places where a sequence waits for it.
fn places_len(count: u32, depth: u32, len: u32) -> u128
    ensures value { result ≡ cond (nat_eq count 0) 1 depth * len }
    ensures bound { result ≤ 2 ^ 64 - 2 ^ 33 + 1 }
{
    let places = if count == 0 { 1 } else { depth };
    places as u128 * len as u128
}

/// The number of elements of the buffers in all their places.
pub fn buffer_words(buffers: &[Buffer], counts: &[u32], depth: u32) -> u128
    requires { length counts.now ≡ length buffers.now }
    ensures value { result ≡ buffer_sum depth counts.now buffers.now }
    ensures bound { result ≤ length buffers.now * (2 ^ 64 - 2 ^ 33 + 1) }
{
    let mut total: u128 = 0;
    for number in 0..buffers.len() {
        total += places_len(counts[number], depth, buffers[number].len);
    }
    total
}

/// How many communicators of a transfer's medium are at other operators than the transfer's.
fn others(sequences: &[Seq], transfer: Transfer) -> u64
    ensures { result ≡ sum_by (λ q. cond (is_other transfer q) 1 0) sequences.now }
{
    let mut count = 0;
    for seq in sequences {
        if is_other(transfer, *seq) {
            count += 1;
        }
    }
    count
}

/// The micro-steps of a transfer: those of the send, of the receive, and of the waits of the others.
fn carry_micros(bare: &Program, site: &Site<'_>, transfer: &Transfer) -> u128
    ensures { result ≡ step_micros bare.now (steps_at site.now (carry transfer.now)) }
{
    let sent = copy_len(bare, site, transfer.from, transfer.source);
    let received = copy_len(bare, site, transfer.to, transfer.source);
    let waits = others(site.sequences, *transfer);
    (2 + 2 * sent as u128) + (2 + 2 * received as u128) + waits as u128
}

/// The micro-steps of transfers, or the last value of the type where they are more.
fn carry_all_micros(bare: &Program, site: &Site<'_>, transfers: &[Transfer]) -> u128
    ensures { result ≡ min (step_micros bare.now
        (flat_map (steps_at site.now) (map carry transfers.now))) (2 ^ 128 - 1) }
{
    let mut total: u128 = 0;
    for transfer in transfers {
        total = total.saturating_add(carry_micros(bare, site, transfer));
    }
    total
}

/// The micro-steps of the run of an operation: a load of each element that it reads, and a store of each
/// that it writes.
fn run_micros(
    alloc: Global,
    bare: &Program,
    site: &Site<'_>,
    decision: &Decision,
) -> Result<u128, OutOfMemory>
    ensures { IfOk result (λ n. n ≡ step_micros bare.now (steps_at site.now (run decision.now))) }
{
    let ins = site.ins(alloc, decision)?;
    let outs = site.outs(alloc, decision)?;
    Ok(elements_in(bare, ins.as_slice()) + elements_in(bare, outs.as_slice()))
}

/// The micro-steps of a decision, or the last value of the type where they are more.
fn decision_micros(
    alloc: Global,
    bare: &Program,
    site: &Site<'_>,
    decision: &Decision,
) -> Result<u128, OutOfMemory>
    ensures { IfOk result (λ n. n ≡ min (step_micros bare.now
        (flat_map (steps_at site.now) (acts_of (decision.now ∷ [])))) (2 ^ 128 - 1)) }
{
    let run = run_micros(alloc, bare, site, decision)?;
    Ok(carry_all_micros(bare, site, decision.transfers.as_slice()).saturating_add(run))
}

/// The micro-steps of these decisions' acts without semaphores, or the last value of the type where they
/// are more.
pub fn act_micros(
    alloc: Global,
    bare: &Program,
    site: &Site<'_>,
    decisions: &[Decision],
) -> Result<u128, OutOfMemory>
    ensures { IfOk result (λ n. n ≡ min (step_micros bare.now
        (flat_map (steps_at site.now) (acts_of decisions.now))) (2 ^ 128 - 1)) }
{
    let mut total: u128 = 0;
    for decision in decisions {
        total = total.saturating_add(decision_micros(alloc, bare, site, decision)?);
    }
    Ok(total)
}

/// The micro-steps of the semaphores of a pair in one reaction: two takes, of which each looks first where
/// the buffer has several places, and two signals.
pub fn pair_micros(depth: u32) -> u128
    ensures value { result ≡ pair_micros depth }
    ensures bound { result ≤ 6 }
{
    if depth == 1 { 4 } else { 6 }
}
