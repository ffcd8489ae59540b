//! The semaphore lines round the instructions of a loop, put there for `build`.
ghost use Rattle.std.specs.Prelude.{◌≡◌, ℕ, ◌<◌, ◌++◌, ◌∷◌, [], cond, map, OnOk, IfOk, replicate, vec_len};
ghost use Rattle.sequence_build_laws.specs.declared.Instr.TheVariants.{Pre0};
ghost use Rattle.sequence_build.specs.Around.{Gathers, Surrounds, all_between, between, code_with, codes_with, is_at, line_of, lines_after, lines_before, list_at, loop_with, moment_of, opening_with};

use crate::pairs::Pair;
use crate::uses::Place;
use sequence_build_laws::{Instr, SeqCode};
use std::alloc::Global;
use syn_base::{Items, OutOfMemory, to_u32};

/// A kind of semaphore line.
#[derive(Clone, Copy, Drop)]
enum Line {
    TakeFull,
    TakeEmpty,
    SignalEmpty,
    SignalFull,
}

/// When a pair needs lines.
#[derive(Clone, Copy, Drop)]
enum Moment {
    FirstRead,
    LastRead,
    Write,
}

/// For each place of a loop the pairs, by number and ascending, that are read there first and last for
/// its sequence, and those whose buffer is written there.
#[derive(Drop)]
struct Around {
    firsts: Vec<Vec<u32>>,
    lasts: Vec<Vec<u32>>,
    writes: Vec<Vec<u32>>,
}

/// The instruction of this kind for a pair.
fn line_of(line: Line, pair: u32) -> Instr
    ensures { result ≡ line_of line pair }
{
    match line {
        Line::TakeFull => Instr::Suc1(pair),
        Line::TakeEmpty => Instr::Suc0(pair),
        Line::SignalEmpty => Instr::Pre0(pair),
        Line::SignalFull => Instr::Pre1(pair),
    }
}

/// The place where a pair needs lines of this moment.
fn moment_of(moment: Moment, pair: Pair) -> Option<Place>
    ensures { result ≡ moment_of moment pair }
{
    match moment {
        Moment::FirstRead => Some(Place {
            sequence: pair.reader,
            at: pair.first,
        }),
        Moment::LastRead => Some(Place {
            sequence: pair.reader,
            at: pair.last,
        }),
        Moment::Write => pair.write,
    }
}

/// Appends the number of a pair.
fn push_number(list: &mut Vec<u32>, number: u32) -> Result<(), OutOfMemory>
    ensures { OnOk result (list.new.items ≡ list.old.items ++ number ∷ []) }
{
    list.push(number)?;
    Ok(())
}

/// Adds a pair at a place of a sequence, if it is one of these.
fn note_at(
    lists: &mut Vec<Vec<u32>>,
    sequence: u32,
    place: Option<Place>,
    pair: u32,
) -> Result<(), OutOfMemory>
    ensures many { vec_len lists.new ≡ vec_len lists.old }
    ensures noted { OnOk result ((a : ℕ) → a < vec_len lists.old →
        list_at lists.new.items a ≡ list_at lists.old.items a ++
        cond (is_at place sequence a) (pair ∷ []) []) }
{
    if let Some(place) = place {
        if place.sequence == sequence && place.at < lists.len() {
            push_number(&mut lists[place.at], pair)?;
        }
    }
    Ok(())
}

/// As many places without pairs.
fn no_lists(alloc: Global, count: usize) -> Result<Vec<Vec<u32>>, OutOfMemory>
    ensures many { IfOk result (λ lists. vec_len lists ≡ count) }
    ensures none { IfOk result (λ lists. (a : ℕ) → list_at lists.items a ≡ []) }
{
    let mut lists = Vec::new(alloc);
    for _ in 0..count {
        lists.push(Vec::new(alloc))?;
    }
    Ok(lists)
}

/// The pairs that have this moment at each of the first `count` places of a sequence.
fn pairs_by_place(
    alloc: Global,
    moment: Moment,
    sequence: u32,
    count: usize,
    pairs: &[Pair],
) -> Result<Vec<Vec<u32>>, OutOfMemory>
    ensures { IfOk result (λ lists. Gathers moment sequence count pairs.now lists.items) }
{
    let mut lists = no_lists(alloc, count)?;
    for (pair_number, pair) in pairs.iter().enumerate() {
        note_at(
            &mut lists,
            sequence,
            moment_of(moment, *pair),
            to_u32(pair_number)?,
        )?;
    }
    Ok(lists)
}

/// The lines of the first `count` places of a sequence.
fn around_of(
    alloc: Global,
    sequence: u32,
    count: usize,
    pairs: &[Pair],
) -> Result<Around, OutOfMemory>
    ensures { IfOk result (λ x. Surrounds sequence count pairs.now x) }
{
    Ok(Around {
        firsts: pairs_by_place(alloc, Moment::FirstRead, sequence, count, pairs)?,
        lasts: pairs_by_place(alloc, Moment::LastRead, sequence, count, pairs)?,
        writes: pairs_by_place(alloc, Moment::Write, sequence, count, pairs)?,
    })
}

/// Adds lines of this kind for these pairs.
fn push_lines(out: &mut Vec<Instr>, line: Line, pairs: &[u32]) -> Result<(), OutOfMemory>
    ensures { OnOk result (out.new.items ≡ out.old.items ++ map (line_of line) pairs.now) }
{
    for pair in pairs {
        out.push(line_of(line, *pair))?;
    }
    Ok(())
}

/// The pairs at a place.
fn list_of(lists: &[Vec<u32>], at: usize) -> &[u32]
    ensures { result.now ≡ list_at lists.now at }
{
    match lists.get(at) {
        Some(list) => list.as_slice(),
        None => &[],
    }
}

/// Adds the lines before the instruction of a place.
fn push_before(out: &mut Vec<Instr>, around: &Around, at: usize) -> Result<(), OutOfMemory>
    ensures { OnOk result (out.new.items ≡ out.old.items ++ lines_before around.now at) }
{
    push_lines(out, Line::TakeFull, list_of(around.firsts.as_slice(), at))?;
    push_lines(out, Line::TakeEmpty, list_of(around.writes.as_slice(), at))
}

/// Adds the lines after the instruction of a place.
fn push_after(out: &mut Vec<Instr>, around: &Around, at: usize) -> Result<(), OutOfMemory>
    ensures { OnOk result (out.new.items ≡ out.old.items ++ lines_after around.now at) }
{
    push_lines(out, Line::SignalEmpty, list_of(around.lasts.as_slice(), at))?;
    push_lines(out, Line::SignalFull, list_of(around.writes.as_slice(), at))
}

/// Adds the instruction of a place between its lines.
fn push_between(
    out: &mut Vec<Instr>,
    around: &Around,
    at: usize,
    instr: Instr,
) -> Result<(), OutOfMemory>
    ensures { OnOk result (out.new.items ≡ out.old.items ++ between around.now at instr) }
{
    push_before(out, around, at)?;
    out.push(instr)?;
    push_after(out, around, at)
}

/// The instructions of a loop, each between its lines.
fn all_between(
    alloc: Global,
    around: &Around,
    turn: Vec<Instr>,
) -> Result<Items<Instr>, OutOfMemory>
    ensures { IfOk result (λ xs. xs ≡ all_between around.now 0 turn.items) }
{
    let mut out = Vec::new(alloc);
    let mut at = 0usize;
    for instr in turn {
        push_between(&mut out, around, at, instr)?;
        at += 1;
    }
    Ok(Items::new(out))
}

/// Adds this many signals of a pair's empty semaphore.
fn push_signals(out: &mut Vec<Instr>, pair: u32, depth: u32) -> Result<(), OutOfMemory>
    ensures { OnOk result (out.new.items ≡ out.old.items ++ replicate depth (Pre0 pair)) }
{
    for _ in 0..depth {
        out.push(Instr::Pre0(pair))?;
    }
    Ok(())
}

/// What a sequence does before its loop.
fn opening_of(
    alloc: Global,
    sequence: u32,
    pairs: &[Pair],
    depth: u32,
) -> Result<Items<Instr>, OutOfMemory>
    ensures { IfOk result (λ xs. xs ≡ opening_with depth sequence pairs.now) }
{
    let mut out = Vec::new(alloc);
    for (pair_number, pair) in pairs.iter().enumerate() {
        if pair.reader == sequence {
            push_signals(&mut out, to_u32(pair_number)?, depth)?;
        }
    }
    Ok(Items::new(out))
}

/// A loop with its semaphores.
#[tactic(auto, using(crate::proofs::Noting::around_loop))]
fn guarded_loop(
    alloc: Global,
    sequence: u32,
    turn: Vec<Instr>,
    pairs: &[Pair],
) -> Result<Items<Instr>, OutOfMemory>
    ensures { IfOk result (λ xs. xs ≡ loop_with pairs.now sequence 0 turn.items) }
{
    let around = around_of(alloc, sequence, turn.len(), pairs)?;
    all_between(alloc, &around, turn)
}

/// The sequence of this number with its semaphores.
fn guarded_code(
    alloc: Global,
    sequence: usize,
    code: SeqCode,
    pairs: &[Pair],
    depth: u32,
) -> Result<SeqCode, OutOfMemory>
    ensures { IfOk result (λ q. q ≡ code_with depth pairs.now sequence code) }
{
    let sequence = to_u32(sequence)?;
    let prologue = opening_of(alloc, sequence, pairs, depth)?;
    let SeqCode { seq, turn, .. } = code;
    Ok(SeqCode {
        seq,
        prologue,
        turn: guarded_loop(alloc, sequence, turn.into_vec(), pairs)?,
    })
}

/// The sequences with their semaphores, where the buffers of pairs have `depth` places.
pub fn guarded_codes(
    alloc: Global,
    codes: Vec<SeqCode>,
    pairs: &[Pair],
    depth: u32,
) -> Result<Items<SeqCode>, OutOfMemory>
    ensures { IfOk result (λ seqs. seqs ≡ codes_with depth pairs.now 0 codes.items) }
{
    let mut seqs = Vec::new(alloc);
    for code in codes {
        seqs.push(guarded_code(alloc, seqs.len(), code, pairs, depth)?)?;
    }
    Ok(Items::new(seqs))
}
