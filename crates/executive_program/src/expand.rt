//! The expansion of instructions: the micro-steps of each sequence, laid out so that each is found by its number.
ghost use Rattle.std.specs.Prelude.{count_by, ◌≡◌, ◌+◌, ◌*◌, ◌^◌, ◌<◌, ◌≤◌, ◌++◌, ◌∷◌, cond, [], true, length, IfOk, OnOk, slice_index_or, Some, vec_len};
ghost use Rattle.executive_program.specs.Blocks.{blocks};
ghost use Rattle.executive_program.specs.Expanded.{AreSteps};
ghost use Rattle.executive_program.specs.Sizes.{pair_depths};
ghost use Rattle.executive_program.specs.Instructions.{len_of, depth_of, is_communication};
ghost use Rattle.executive_program.specs.Steps.{elements_in, on_load, on_store, load_step, store_step, input_steps, output_steps, send_step, receive_step, call_steps, steps_of, steps_in_list, take_steps};
ghost use Rattle.executive_program.specs.declared.steps.MicroStep.TheVariants.{Await, Advance};

use crate::pairs::pair_depths;
use crate::program::{Instr, Program};
use crate::steps::{MicroStep, OnLoad, OnStore, Place};
use std::alloc::Global;
use syn_base::{Items, OutOfMemory};

/// The micro-steps of one sequence.
#[derive(Drop)]
pub struct SeqSteps {
    pub prologue: Items<MicroStep>,
    pub turn: Items<MicroStep>,
}

/// A call, with the number of its loads and of its micro-steps.
#[derive(Clone, Copy, Drop)]
struct CallSize {
    vertex: u32,
    loads: u128,
    micros: u128,
}

impl CallSize {
    /// What load `number` of the call does.
    fn on_load(&self, number: usize) -> OnLoad
        ensures { result ≡ on_load self.now.vertex self.now.loads self.now.micros number }
    {
        let next = number as u128 + 1;
        if next == self.loads {
            OnLoad::Compute {
                vertex: self.vertex,
                register: number as u64,
                more: next < self.micros,
            }
        } else {
            OnLoad::Gather(number as u64)
        }
    }

    /// What store `number` of the call writes, counted with its loads.
    fn on_store(&self, number: usize) -> OnStore
        requires { self.now.loads ≤ number }
        ensures { result ≡ on_store self.now.vertex self.now.loads self.now.micros number }
    {
        let more = number as u128 + 1 < self.micros;
        if number == 0 {
            OnStore::Compute {
                vertex: self.vertex,
                more,
            }
        } else {
            OnStore::Give {
                register: (number as u128 - self.loads) as u64,
                more,
            }
        }
    }
}

/// The number of elements of a buffer, 0 for one that is not there.
pub fn buffer_len(program: &Program, buffer: u32) -> u32
    ensures { result ≡ len_of program.now buffer }
{
    match program.buffers.as_slice().get(buffer as usize) {
        Some(found) => found.len,
        None => 0,
    }
}

/// The number of places of a buffer, 1 for one that is not there.
pub fn buffer_depth(program: &Program, buffer: u32) -> u32
    ensures { result ≡ depth_of program.now buffer }
{
    match program.buffers.as_slice().get(buffer as usize) {
        Some(found) => found.depth,
        None => 1,
    }
}

/// The number of elements of these buffers.
pub fn elements_in(program: &Program, list: &[u32]) -> u128
    ensures value { result ≡ elements_in program.now list.now }
    ensures bound { result ≤ length list.now * 2 ^ 32 }
{
    let mut total = 0u128;
    for buffer in list {
        total += buffer_len(program, *buffer) as u128;
    }
    total
}

/// Adds the loads of a buffer, of which the first is load `first` of the call.
fn push_loads(
    out: &mut Vec<MicroStep>,
    call: CallSize,
    buffer: u32,
    len: u32,
    first: usize,
) -> Result<(), OutOfMemory>
    requires { first + len < 2 ^ 64 }
    ensures steps { OnOk result (out.new.items ≡ out.old.items ++
        blocks (load_step call.vertex call.loads call.micros buffer first) len) }
    ensures made { OnOk result (vec_len out.new ≡ vec_len out.old + len) }
{
    for number in 0..len {
        out.push(MicroStep::Load {
            place: Place::Buffer { buffer, number },
            then: call.on_load(first + number as usize),
        })?;
    }
    Ok(())
}

/// Adds the stores of a buffer, of which the first is micro-step `first` of the call.
fn push_stores(
    out: &mut Vec<MicroStep>,
    call: CallSize,
    buffer: u32,
    len: u32,
    first: usize,
) -> Result<(), OutOfMemory>
    requires fits { first + len < 2 ^ 64 }
    requires after_loads { call.loads ≤ first }
    ensures steps { OnOk result (out.new.items ≡ out.old.items ++
        blocks (store_step call.vertex call.loads call.micros buffer first) len) }
    ensures made { OnOk result (vec_len out.new ≡ vec_len out.old + len) }
{
    for number in 0..len {
        out.push(MicroStep::Store {
            place: Place::Buffer { buffer, number },
            what: call.on_store(first + number as usize),
        })?;
    }
    Ok(())
}

/// Adds the micro-steps of the elements of a buffer that is sent over a medium.
fn push_sends(
    out: &mut Vec<MicroStep>,
    medium: u32,
    buffer: u32,
    len: u32,
) -> Result<(), OutOfMemory>
    ensures { OnOk result (out.new.items ≡ out.old.items ++ blocks (send_step medium buffer) len) }
{
    for number in 0..len {
        out.push(MicroStep::Load {
            place: Place::Buffer { buffer, number },
            then: OnLoad::Carry,
        })?;
        out.push(MicroStep::Store {
            place: Place::Wire { medium, number },
            what: OnStore::Carry,
        })?;
    }
    Ok(())
}

/// Adds the micro-steps of the elements of a buffer that is received over a medium.
fn push_receives(
    out: &mut Vec<MicroStep>,
    medium: u32,
    buffer: u32,
    len: u32,
) -> Result<(), OutOfMemory>
    ensures { OnOk result (out.new.items ≡ out.old.items ++ blocks (receive_step medium buffer) len) }
{
    for number in 0..len {
        out.push(MicroStep::Load {
            place: Place::Wire { medium, number },
            then: OnLoad::Carry,
        })?;
        out.push(MicroStep::Store {
            place: Place::Buffer { buffer, number },
            what: OnStore::Carry,
        })?;
    }
    Ok(())
}

/// Adds the loads of a call.
fn push_all_loads(
    out: &mut Vec<MicroStep>,
    program: &Program,
    call: CallSize,
    ins: &[u32],
) -> Result<(), OutOfMemory>
    ensures steps { OnOk result (out.new.items ≡ out.old.items ++
        blocks (input_steps program.now call.vertex call.loads call.micros ins.now)
        (length ins.now)) }
    ensures made { OnOk result (vec_len out.new ≡ vec_len out.old + elements_in program.now ins.now) }
{
    let begin = out.len();
    for buffer in ins {
        let len = buffer_len(program, *buffer);
        let first = out.len() - begin;
        push_loads(out, call, *buffer, len, first)?;
    }
    Ok(())
}

/// Adds the stores of a call whose micro-steps begin at place `begin`.
fn push_all_stores(
    out: &mut Vec<MicroStep>,
    program: &Program,
    call: CallSize,
    outs: &[u32],
    begin: usize,
) -> Result<(), OutOfMemory>
    requires { begin + call.loads ≡ vec_len out.old }
    ensures { OnOk result (out.new.items ≡ out.old.items ++
        blocks (output_steps program.now call.vertex call.loads call.micros outs.now)
        (length outs.now)) }
{
    for buffer in outs {
        let len = buffer_len(program, *buffer);
        let first = out.len() - begin;
        push_stores(out, call, *buffer, len, first)?;
    }
    Ok(())
}

/// Adds the micro-steps of a call.
fn push_call(
    out: &mut Vec<MicroStep>,
    program: &Program,
    vertex: u32,
    ins: &[u32],
    outs: &[u32],
) -> Result<(), OutOfMemory>
    ensures { OnOk result (out.new.items ≡ out.old.items ++ call_steps program.now vertex ins.now outs.now) }
{
    let loads = elements_in(program, ins);
    let micros = loads + elements_in(program, outs);
    let call = CallSize {
        vertex,
        loads,
        micros,
    };
    let begin = out.len();
    push_all_loads(out, program, call, ins)?;
    push_all_stores(out, program, call, outs, begin)
}

/// Where a list of instructions stands: on a medium, with this many communications, of which this many stand
/// before the instruction that is spoken of.
#[derive(Clone, Copy, Drop)]
struct Standing {
    medium: u32,
    communications: usize,
    before: usize,
}

impl Standing {
    /// The wait for the half of a transfer that comes this many after the send's.
    fn await_half(&self, after: u64, exact: bool) -> MicroStep
        requires { after ≤ 2 × (2 * self.now.communications < 2 ^ 64) × (2 * self.now.before + 2 < 2 ^ 64) }
        ensures { result ≡ Await self.now.medium (2 * self.now.before + after) (2 * self.now.communications) exact }
    {
        MicroStep::Await {
            medium: self.medium,
            half: 2 * self.before as u64 + after,
            halves: 2 * self.communications as u64,
            exact,
        }
    }
}

/// The places of the buffer of a pair, by the table of all pairs. A pair beyond it counts as one whose buffer
/// has one place.
pub fn depth_at(depths: &[u32], pair: u32) -> u32
    ensures { result ≡ slice_index_or depths.now pair 1 }
{
    let pair = pair as usize;
    if pair < depths.len() { depths[pair] } else { 1 }
}

/// Adds the take of a semaphore of a pair whose buffer has this many places.
fn push_take(out: &mut Vec<MicroStep>, semaphore: u64, depth: u32) -> Result<(), OutOfMemory>
    ensures { OnOk result (out.new.items ≡ out.old.items ++ take_steps depth semaphore) }
{
    if depth == 1 {
        out.push(MicroStep::Take(semaphore))?;
    } else {
        out.push(MicroStep::See(semaphore))?;
        out.push(MicroStep::Lower(semaphore))?;
    }
    Ok(())
}

/// Adds the micro-steps of an instruction.
fn push_instr(
    out: &mut Vec<MicroStep>,
    program: &Program,
    depths: &[u32],
    at: Standing,
    instr: &Instr,
) -> Result<(), OutOfMemory>
    requires depths { depths.now ≡ pair_depths program.now }
    requires fits { (2 * at.communications < 2 ^ 64) × (2 * at.before + 2 < 2 ^ 64) }
    ensures { OnOk result (out.new.items ≡ out.old.items ++
        steps_of program.now at.medium at.communications at.before instr.now) }
{
    match instr {
        Instr::Suc0(pair) => push_take(out, 2 * *pair as u64, depth_at(depths, *pair))?,
        Instr::Suc1(pair) => push_take(out, 2 * *pair as u64 + 1, depth_at(depths, *pair))?,
        Instr::Pre0(pair) => out.push(MicroStep::Signal(2 * *pair as u64))?,
        Instr::Pre1(pair) => out.push(MicroStep::Signal(2 * *pair as u64 + 1))?,
        Instr::Call { vertex, ins, outs } => push_call(
            out,
            program,
            *vertex,
            ins.as_slice(),
            outs.as_slice(),
        )?,
        Instr::Send { buffer, .. } => push_send(out, program, at, *buffer)?,
        Instr::Recv { buffer, .. } => push_receive(out, program, at, *buffer)?,
        Instr::Sync { .. } => out.push(at.await_half(2, false))?,
    }
    Ok(())
}

/// Adds the micro-steps of a send.
fn push_send(
    out: &mut Vec<MicroStep>,
    program: &Program,
    at: Standing,
    buffer: u32,
) -> Result<(), OutOfMemory>
    requires { (2 * at.communications < 2 ^ 64) × (2 * at.before + 2 < 2 ^ 64) }
    ensures { OnOk result (out.new.items ≡ out.old.items ++
        (Await at.medium (2 * at.before) (2 * at.communications) true ∷
        (blocks (send_step at.medium buffer) (len_of program.now buffer) ++ Advance at.medium ∷
        []))) }
{
    out.push(at.await_half(0, true))?;
    push_sends(out, at.medium, buffer, buffer_len(program, buffer))?;
    out.push(MicroStep::Advance { medium: at.medium })?;
    Ok(())
}

/// Adds the micro-steps of a receive.
fn push_receive(
    out: &mut Vec<MicroStep>,
    program: &Program,
    at: Standing,
    buffer: u32,
) -> Result<(), OutOfMemory>
    requires { (2 * at.communications < 2 ^ 64) × (2 * at.before + 2 < 2 ^ 64) }
    ensures { OnOk result (out.new.items ≡ out.old.items ++
        (Await at.medium (2 * at.before + 1) (2 * at.communications) true ∷
        (blocks (receive_step at.medium buffer) (len_of program.now buffer) ++ Advance at.medium ∷
        []))) }
{
    out.push(at.await_half(1, true))?;
    push_receives(out, at.medium, buffer, buffer_len(program, buffer))?;
    out.push(MicroStep::Advance { medium: at.medium })?;
    Ok(())
}

/// 1 for a communication, and 0 for another instruction.
fn communications(instr: &Instr) -> usize
    ensures { result ≡ cond (is_communication instr.now) 1 0 }
{
    match instr {
        Instr::Send { .. } | Instr::Recv { .. } | Instr::Sync { .. } => 1,
        _ => 0,
    }
}

/// How many communications a list of instructions has.
fn count_communications(list: &[Instr]) -> usize
    ensures value { result ≡ count_by is_communication list.now }
    ensures bound { result ≤ length list.now }
{
    let mut count = 0;
    for instr in list {
        count += communications(instr);
    }
    count
}

/// The micro-steps of a list of instructions on a medium.
fn expand_list(
    alloc: Global,
    program: &Program,
    depths: &[u32],
    medium: u32,
    list: &[Instr],
) -> Result<Items<MicroStep>, OutOfMemory>
    requires { depths.now ≡ pair_depths program.now }
    ensures { IfOk result (λ steps. steps ≡ steps_in_list program.now medium list.now) }
{
    let mut out = Vec::new(alloc);
    let mut at = Standing {
        medium,
        communications: count_communications(list),
        before: 0,
    };
    for instr in list {
        push_instr(&mut out, program, depths, at, instr)?;
        at.before += communications(instr);
    }
    Ok(Items::new(out))
}

/// The micro-steps of each sequence of a program.
pub fn micro_steps_of(alloc: Global, program: &Program) -> Result<Vec<SeqSteps>, OutOfMemory>
    ensures { IfOk result (λ steps. AreSteps program.now steps.items) }
{
    let depths = pair_depths(alloc, program)?;
    let mut all = Vec::new(alloc);
    for code in program.seqs.as_slice() {
        let medium = code.seq.medium.unwrap_or(0);
        let prologue = expand_list(alloc, program, &depths, medium, code.prologue.as_slice())?;
        let turn = expand_list(alloc, program, &depths, medium, code.turn.as_slice())?;
        all.push(SeqSteps { prologue, turn })?;
    }
    Ok(all)
}
