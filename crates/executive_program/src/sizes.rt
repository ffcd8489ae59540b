//! How many micro-steps a program has, counted without laying them out, and how many words its table has.
ghost use Rattle.std.specs.Prelude.{◌≡◌, ◌+◌, ◌-◌, ◌*◌, ◌^◌, ◌<◌, ◌≤◌, ◌∷◌, List, None, false, min, slice_index_or};
ghost use Rattle.std.specs.List.{sum_by};
ghost use Rattle.executive_program.specs.declared.program.Instr.{Instr};
ghost use Rattle.executive_program.specs.Sizes.{deep_pairs, looks_in, looks_of, opened_after, pair_depths, plain_in, plain_of, plain_prologues, plain_turns};
ghost use Rattle.executive_program.specs.MicroSteps.{wire_len, words};
ghost use Rattle.executive_program.specs.Steps.{all_turns};
ghost use Rattle.interleavings.specs.Owners.{sum_below};

use crate::expand::{buffer_len, depth_at, elements_in};
use crate::program::{Instr, Program};
use crate::wires::wire_len;

/// The number of micro-steps of an instruction, where each take is one.
fn plain_of(program: &Program, instr: &Instr) -> u128
    ensures { result ≡ plain_of program.now instr.now }
{
    match instr {
        Instr::Call { ins, outs, .. } => {
            elements_in(program, ins.as_slice()) + elements_in(program, outs.as_slice())
        }
        Instr::Send { buffer, .. } | Instr::Recv { buffer, .. } => {
            2 + 2 * buffer_len(program, *buffer) as u128
        }
        _ => 1,
    }
}

/// The number of micro-steps of these instructions, where each take is one, or the last value of the
/// type where it is more.
fn plain_in(program: &Program, list: &[Instr]) -> u128
    ensures { result ≡ min (plain_in program.now list.now) (2 ^ 128 - 1) }
{
    let mut total: u128 = 0;
    for instr in list {
        total = total.saturating_add(plain_of(program, instr));
    }
    total
}

/// The number of micro-steps of all prologues, where each take is one, or the last value of the type
/// where it is more.
pub fn plain_prologues(program: &Program) -> u128
    ensures { result ≡ min (plain_prologues program.now) (2 ^ 128 - 1) }
{
    let mut total: u128 = 0;
    for code in program.seqs.as_slice() {
        total = total.saturating_add(plain_in(program, code.prologue.as_slice()));
    }
    total
}

/// The number of micro-steps of all loops in one reaction, where each take is one, or the last value of
/// the type where it is more.
pub fn plain_turns(program: &Program) -> u128
    ensures { result ≡ min (plain_turns program.now) (2 ^ 128 - 1) }
{
    let mut total: u128 = 0;
    for code in program.seqs.as_slice() {
        total = total.saturating_add(plain_in(program, code.turn.as_slice()));
    }
    total
}

/// The looks of an instruction, by the table of pairs.
fn looks_of(depths: &[u32], instr: &Instr) -> u128
    ensures { result ≡ looks_of (λ q. slice_index_or depths.now q 1) instr.now }
{
    match instr {
        Instr::Suc0(pair) | Instr::Suc1(pair) => {
            if depth_at(depths, *pair) == 1 { 0 } else { 1 }
        }
        _ => 0,
    }
}

/// The looks of these instructions, by the table of pairs, or the last value of the type where they are
/// more.
fn looks_in(depths: &[u32], list: &[Instr]) -> u128
    ensures { result ≡ min (looks_in (λ q. slice_index_or depths.now q 1) list.now) (2 ^ 128 - 1) }
{
    let mut total: u128 = 0;
    for instr in list {
        total = total.saturating_add(looks_of(depths, instr));
    }
    total
}

/// The looks of all loops in one reaction, by the table of pairs, or the last value of the type where
/// they are more.
fn turn_looks(program: &Program, depths: &[u32]) -> u128
    ensures { result ≡ min (sum_by (λ q. looks_in (λ r. slice_index_or depths.now r 1) q.turn)
        program.now.seqs) (2 ^ 128 - 1) }
{
    let mut total: u128 = 0;
    for code in program.seqs.as_slice() {
        total = total.saturating_add(looks_in(depths, code.turn.as_slice()));
    }
    total
}

/// The number of micro-steps of all loops in one reaction of any program, or the last value of the type
/// where it is more. `depths` is the table of pairs.
pub fn turn_micros(program: &Program, depths: &[u32]) -> u128
    requires { depths.now ≡ pair_depths program.now }
    ensures { result ≡ min (all_turns program.now) (2 ^ 128 - 1) }
{
    plain_turns(program).saturating_add(turn_looks(program, depths))
}

/// How far a prologue has been read: the pair that was opened last, whether it was counted, and the
/// number of pairs that were opened several times in succession.
#[derive(Clone, Copy, Drop)]
struct Opened {
    last: Option<u32>,
    again: bool,
    count: u64,
}

impl Opened {
    /// One more signal of a pair.
    fn open(&mut self, pair: u32)
        requires { self.old.count + 1 < 2 ^ 64 }
        ensures value { (xs : List Instr) → self.new.count +
            opened_after self.new.last self.new.again xs ≡ self.old.count +
            opened_after self.old.last self.old.again (Instr.Pre0 pair ∷ xs) }
        ensures few { self.new.count ≤ self.old.count + 1 }
    {
        if self.last != Some(pair) {
            self.last = Some(pair);
            self.again = false;
        } else if !self.again {
            self.again = true;
            self.count += 1;
        }
    }

    /// One more instruction.
    fn add(&mut self, instr: &Instr)
        requires { self.old.count + 1 < 2 ^ 64 }
        ensures value { (xs : List Instr) → self.new.count +
            opened_after self.new.last self.new.again xs ≡ self.old.count +
            opened_after self.old.last self.old.again (instr.now ∷ xs) }
        ensures few { self.new.count ≤ self.old.count + 1 }
    {
        match instr {
            Instr::Pre0(pair) => self.open(*pair),
            _ => {
                self.last = None;
                self.again = false;
            }
        }
    }
}

/// How many pairs a prologue opens several times in succession.
fn opened_often(list: &[Instr]) -> u64
    ensures { result ≡ opened_after None false list.now }
{
    let mut opened = Opened {
        last: None,
        again: false,
        count: 0,
    };
    for instr in list {
        opened.add(instr);
    }
    opened.count
}

/// How many pairs the prologues open several times in succession. In a well-formed program these are the
/// pairs whose buffer has several places.
pub fn deep_pairs(program: &Program) -> u128
    ensures { result ≡ min (deep_pairs program.now) (2 ^ 128 - 1) }
{
    let mut total: u128 = 0;
    for code in program.seqs.as_slice() {
        total = total.saturating_add(opened_often(code.prologue.as_slice()) as u128);
    }
    total
}

/// The number of elements of all buffers in all their places.
fn buffer_words(program: &Program) -> u128
    ensures value { result ≡ sum_by (λ x. x.depth * x.len) program.now.buffers }
    ensures bound { result < 2 ^ 128 - 2 ^ 96 }
{
    let mut total: u128 = 0;
    for buffer in program.buffers.as_slice() {
        total += buffer.depth as u128 * buffer.len as u128;
    }
    total
}

/// The number of elements of the wires of this many media.
fn wire_words(program: &Program, media: u32) -> u128
    ensures value { result ≡ sum_below (wire_len program.now) media }
    ensures bound { result ≤ media * 2 ^ 32 }
{
    let mut total: u128 = 0;
    for medium in 0..media {
        total += wire_len(program, medium) as u128;
    }
    total
}

/// How many words the table of a program has on this many media: the two semaphores of each pair, the turn of
/// each medium, the elements of each buffer once for each of its places, and those of the wires.
pub fn words(program: &Program, media: u32) -> u128
    ensures { result ≡ words program.now media }
{
    let semaphores = 2 * program.pairs.as_slice().len() as u128;
    semaphores + media as u128 + buffer_words(program) + wire_words(program, media)
}
