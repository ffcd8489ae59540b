//! Words and elements that sequences share, and the next micro-step of a sequence.
ghost use Rattle.std.specs.Prelude.{◌≡◌, ◌+◌, ◌-◌, ◌*◌, ◌/◌, ◌<◌, ◌++◌, replicate, slice_index_or, slice_set, pos, IfOk};
ghost use Rattle.semaphore_core.specs.Core.{buffer_zeros, wire_zeros};
ghost use Rattle.semaphore_core.specs.Elements.{element_in};
ghost use Rattle.executive_program.specs.Sites.{reaction_at};
ghost use Rattle.executive_program.specs.System.{turn_reached};
ghost use Rattle.executive_program.specs.Expanded.{code_of, next_in};
ghost use Rattle.syn_base.specs.Rows.{with_value};

use executive_program::{MicroStep, Program, SeqSteps, wire_len};
use operation_desks::{addressable, zeros};
use std::alloc::Global;
use syn_base::{Items, OutOfMemory};

/// The word at a place, 0 for one that is not there.
pub fn word_at(words: &[u64], at: usize) -> u64
    ensures { result ≡ slice_index_or words.now at 0 }
{
    if at < words.len() { words[at] } else { 0 }
}

/// Puts a word at a place, if it is there.
pub fn put_word(words: &mut [u64], at: usize, word: u64)
    ensures { words.new ≡ slice_set words.old at word }
{
    if at < words.len() {
        words[at] = word;
    }
}

/// An element of a list of lists, 0 for one that is not there.
pub fn element_in(lists: &[Items<i64>], list: usize, at: usize) -> i64
    ensures { result ≡ element_in lists.now list at }
{
    if list < lists.len() {
        item(&lists[list], at)
    } else {
        0
    }
}

/// An element of a list, 0 for one that is not there.
fn item(items: &Items<i64>, at: usize) -> i64
    ensures { result ≡ slice_index_or items.now at (pos 0) }
{
    let items = items.as_slice();
    if at < items.len() { items[at] } else { 0 }
}

/// Puts an element in a list of lists, if its place is there.
pub fn put_element(lists: &mut [Items<i64>], list: usize, at: usize, value: i64)
    ensures { lists.new ≡ with_value lists.old list at value }
{
    if list < lists.len() {
        put_item(&mut lists[list], at, value);
    }
}

/// Puts an element in a list, if its place is there.
fn put_item(items: &mut Items<i64>, at: usize, value: i64)
    ensures { items.new ≡ slice_set items.old at value }
{
    if at < items.as_slice().len() {
        items.set(at, value);
    }
}

/// Whether a medium's turn has come to the half of this number, or is exactly there.
pub fn turn_reached(exact: bool, turn: u64, half: u128) -> bool
    ensures { result ≡ turn_reached exact turn half }
{
    if exact {
        turn as u128 == half
    } else {
        half <= turn as u128
    }
}

/// The next micro-step of a sequence that has made `count` of them.
pub fn next_in(steps: &SeqSteps, reactions: u64, count: u64) -> Option<MicroStep>
    ensures { result ≡ next_in reactions steps.now count }
{
    let prologue = steps.prologue.as_slice();
    let turn = steps.turn.as_slice();
    if count < prologue.len() as u64 {
        return prologue.get(count as usize).copied();
    }
    let full = prologue.len() as u128 + reactions as u128 * turn.len() as u128;
    if count as u128 >= full || turn.is_empty() {
        return None;
    }
    let place = (count - prologue.len() as u64) % turn.len() as u64;
    turn.get(place as usize).copied()
}

/// The number of the reaction of the next micro-step of a sequence that has made `count` of them.
pub fn reaction_at(steps: &SeqSteps, count: u64) -> u64
    ensures { result ≡ reaction_at (code_of steps.now) count }
{
    let front = steps.prologue.as_slice().len() as u64;
    let period = steps.turn.as_slice().len() as u64;
    if period == 0 {
        return 0;
    }
    count.saturating_sub(front) / period
}

/// As many words, each of them this one.
pub fn words_of(alloc: Global, word: u64, len: usize) -> Result<Vec<u64>, OutOfMemory>
    ensures { IfOk result (λ s. s.items ≡ replicate len word) }
{
    Ok(vec![in alloc; word; len]?)
}

/// The elements of all buffers, all zeros.
fn zero_buffers(alloc: Global, program: &Program) -> Result<Vec<Items<i64>>, OutOfMemory>
    ensures { IfOk result (λ s. s.items ≡ buffer_zeros program.now) }
{
    let mut all = Vec::new(alloc);
    for buffer in program.buffers.as_slice() {
        let len = buffer.depth as u128 * buffer.len as u128;
        all.push(zeros(alloc, addressable(len)?)?)?;
    }
    Ok(all)
}

/// The elements of all buffers and then of all wires, all zeros.
pub fn zero_elements(
    alloc: Global,
    program: &Program,
    media: u32,
) -> Result<Vec<Items<i64>>, OutOfMemory>
    ensures { IfOk result (λ s. s.items ≡ buffer_zeros program.now ++ wire_zeros program.now media) }
{
    let mut all = zero_buffers(alloc, program)?;
    for medium in 0..media {
        all.push(zeros(alloc, wire_len(program, medium) as usize)?)?;
    }
    Ok(all)
}
