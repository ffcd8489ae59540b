//! Uses of buffers: who reads and writes each in a program without semaphores.
ghost use Rattle.std.specs.Prelude.{◌≡◌, ℕ, ◌<◌, [], cond, nat_eq, None, Some, OnOk, IfOk, length, vec_len};
ghost use Rattle.std.specs.List.{list_any};
ghost use Rattle.sequence_build_laws.specs.Instructions.{reads, writes};
ghost use Rattle.sequence_build.specs.Uses.{noted, uses_at, uses_by, uses_in, write_at, write_by, write_in};

use sequence_build_laws::{Instr, Program};
use std::alloc::Global;
use syn_base::{OutOfMemory, to_u32};

/// A sequence that reads a buffer, with the places in its loop, from 0, of its first and its last read.
#[derive(Clone, Copy, Drop)]
pub struct Use {
    pub sequence: u32,
    pub first: usize,
    pub last: usize,
}

/// Where an instruction stands: its sequence, and its place in the loop, from 0.
#[derive(Clone, Copy, Drop)]
pub struct Place {
    pub sequence: u32,
    pub at: usize,
}

/// A buffer with these uses is read at a place. Places come in order.
fn note(uses: &mut Vec<Use>, place: Place) -> Result<(), OutOfMemory>
    ensures { OnOk result (uses.new.items ≡ noted place.sequence place.at uses.old.items) }
{
    let count = uses.len();
    if count > 0 && uses[count - 1].sequence == place.sequence {
        uses[count - 1].last = place.at;
    } else {
        uses.push(Use {
            sequence: place.sequence,
            first: place.at,
            last: place.at,
        })?;
    }
    Ok(())
}

/// A buffer is read at a place.
fn note_read(uses: &mut Vec<Vec<Use>>, place: Place, buffer: u32) -> Result<(), OutOfMemory>
    ensures many { vec_len uses.new ≡ vec_len uses.old }
    ensures noted { OnOk result ((b : ℕ) → b < vec_len uses.old →
        uses_at uses.new.items b ≡ cond (nat_eq buffer b)
        (noted place.sequence place.at (uses_at uses.old.items b)) (uses_at uses.old.items b)) }
{
    let buffer = buffer as usize;
    if buffer < uses.len() {
        note(&mut uses[buffer], place)?;
    }
    Ok(())
}

/// These buffers are read at a place.
fn note_reads(uses: &mut Vec<Vec<Use>>, place: Place, ins: &[u32]) -> Result<(), OutOfMemory>
    ensures many { vec_len uses.new ≡ vec_len uses.old }
    ensures noted { OnOk result ((b : ℕ) → b < vec_len uses.old →
        uses_at uses.new.items b ≡ cond (list_any (λ c. nat_eq c b) ins.now)
        (noted place.sequence place.at (uses_at uses.old.items b)) (uses_at uses.old.items b)) }
{
    for buffer in ins {
        note_read(uses, place, *buffer)?;
    }
    Ok(())
}

/// What an instruction at a place reads.
fn note_reading(uses: &mut Vec<Vec<Use>>, place: Place, instr: &Instr) -> Result<(), OutOfMemory>
    ensures many { vec_len uses.new ≡ vec_len uses.old }
    ensures noted { OnOk result ((b : ℕ) → b < vec_len uses.old →
        uses_at uses.new.items b ≡ cond (reads b instr.now)
        (noted place.sequence place.at (uses_at uses.old.items b)) (uses_at uses.old.items b)) }
{
    match instr {
        Instr::Call { ins, .. } => note_reads(uses, place, ins.as_slice()),
        Instr::Send { buffer, .. } => note_read(uses, place, *buffer),
        _ => Ok(()),
    }
}

/// What the instructions of a sequence read.
fn note_loop(uses: &mut Vec<Vec<Use>>, sequence: u32, turn: &[Instr]) -> Result<(), OutOfMemory>
    ensures many { vec_len uses.new ≡ vec_len uses.old }
    ensures noted { OnOk result ((b : ℕ) → b < vec_len uses.old →
        uses_at uses.new.items b ≡ uses_in (reads b) sequence 0 turn.now
        (uses_at uses.old.items b)) }
{
    for (at, instr) in turn.iter().enumerate() {
        note_reading(uses, Place { sequence, at }, instr)?;
    }
    Ok(())
}

/// No buffer is read so far.
fn no_uses(alloc: Global, buffers: usize) -> Result<Vec<Vec<Use>>, OutOfMemory>
    ensures many { IfOk result (λ uses. vec_len uses ≡ buffers) }
    ensures none { IfOk result (λ uses. (b : ℕ) → uses_at uses.items b ≡ []) }
{
    let mut uses = Vec::new(alloc);
    for _ in 0..buffers {
        uses.push(Vec::new(alloc))?;
    }
    Ok(uses)
}

/// The sequences that read each buffer, in order.
pub fn uses_of(alloc: Global, program: &Program) -> Result<Vec<Vec<Use>>, OutOfMemory>
    ensures many { IfOk result (λ uses. vec_len uses ≡ length program.now.buffers) }
    ensures each { IfOk result (λ uses. (b : ℕ) → b < length program.now.buffers →
        uses_at uses.items b ≡ uses_by (reads b) 0 program.now.seqs []) }
{
    let mut uses = no_uses(alloc, program.buffers.as_slice().len())?;
    for (sequence, code) in program.seqs.as_slice().iter().enumerate() {
        note_loop(&mut uses, to_u32(sequence)?, code.turn.as_slice())?;
    }
    Ok(uses)
}

/// A buffer is written at a place.
fn note_write(places: &mut [Option<Place>], place: Place, buffer: u32)
    ensures { (b : ℕ) → b < length places.old →
        write_at places.new b ≡ cond (nat_eq buffer b) (Some place) (write_at places.old b) }
{
    let buffer = buffer as usize;
    if buffer < places.len() {
        places[buffer] = Some(place);
    }
}

/// These buffers are written at a place.
fn note_writes(places: &mut [Option<Place>], place: Place, outs: &[u32])
    ensures { (b : ℕ) → b < length places.old →
        write_at places.new b ≡ cond (list_any (λ c. nat_eq c b) outs.now) (Some place)
        (write_at places.old b) }
{
    for buffer in outs {
        note_write(places, place, *buffer);
    }
}

/// What an instruction at a place writes.
fn note_writing(places: &mut [Option<Place>], place: Place, instr: &Instr)
    ensures { (b : ℕ) → b < length places.old →
        write_at places.new b ≡ cond (writes b instr.now) (Some place) (write_at places.old b) }
{
    match instr {
        Instr::Call { outs, .. } => note_writes(places, place, outs.as_slice()),
        Instr::Recv { buffer, .. } => note_write(places, place, *buffer),
        _ => {}
    }
}

/// What the instructions of a sequence write.
fn note_loop_writes(places: &mut [Option<Place>], sequence: u32, turn: &[Instr])
    ensures { (b : ℕ) → b < length places.old →
        write_at places.new b ≡ write_in (writes b) sequence 0 turn.now (write_at places.old b) }
{
    for (at, instr) in turn.iter().enumerate() {
        note_writing(places, Place { sequence, at }, instr);
    }
}

/// No buffer is written so far.
fn no_writes(alloc: Global, buffers: usize) -> Result<Vec<Option<Place>>, OutOfMemory>
    ensures many { IfOk result (λ places. vec_len places ≡ buffers) }
    ensures none { IfOk result (λ places. (b : ℕ) → write_at places.items b ≡ None) }
{
    let mut places = Vec::new(alloc);
    for _ in 0..buffers {
        places.push(None)?;
    }
    Ok(places)
}

/// The place where each buffer is written, the last one where there are several.
pub fn writes_of(alloc: Global, program: &Program) -> Result<Vec<Option<Place>>, OutOfMemory>
    ensures many { IfOk result (λ places. vec_len places ≡ length program.now.buffers) }
    ensures each { IfOk result (λ places. (b : ℕ) → b < length program.now.buffers →
        write_at places.items b ≡ write_by (writes b) 0 program.now.seqs None) }
{
    let mut places = no_writes(alloc, program.buffers.as_slice().len())?;
    for (sequence, code) in program.seqs.as_slice().iter().enumerate() {
        note_loop_writes(&mut places, to_u32(sequence)?, code.turn.as_slice());
    }
    Ok(places)
}
