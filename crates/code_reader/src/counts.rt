//! The count of the words that the table of a program takes, before its numbers are known to be small.
ghost use Rattle.std.specs.Prelude.{◌≡◌, ◌-◌, ◌*◌, ◌^◌, map, min};
ghost use Rattle.std.specs.List.{sum_by};
ghost use Rattle.executive_program.specs.Owners.{sum_below};
ghost use Rattle.executive_program.specs.Instructions.{len_of};
ghost use Rattle.executive_program.specs.MicroSteps.{longest_sent, sent_len};
ghost use Rattle.macro_code.specs.ReadText.{longest_in, wire_len, words};
ghost use Rattle.code_reader.specs.Views.{code_of};
ghost use Rattle.code_lines.specs.Views.{instr_of};
ghost use Rattle.code_reader.specs.Wide.{program_of};

use crate::written::WrittenCode;
use code_lines::Written;
use macro_code::Size;

/// A program in wide numbers: its buffers and the operators of its pairs by number, and its sequences.
#[derive(Drop)]
pub struct WideProgram<'a> {
    pub sizes: Vec<Size>,
    pub owners: Vec<u32>,
    pub seqs: &'a [WrittenCode],
}

/// The number of elements of a buffer, 0 for one that is not there.
fn buffer_len(program: &WideProgram, buffer: u64) -> u64
    ensures { result ≡ len_of (program_of program.now) buffer }
{
    match program.sizes.get(buffer as usize) {
        Some(size) => size.len,
        None => 0,
    }
}

/// The length of the buffer that an instruction sends, 0 for another instruction.
fn sent_len(program: &WideProgram, written: &Written) -> u64
    ensures { result ≡ sent_len (program_of program.now) (instr_of written.now) }
{
    match written {
        Written::Send { buffer, .. } => buffer_len(program, *buffer),
        _ => 0,
    }
}

/// The length of the longest buffer that these instructions send.
fn longest_sent(program: &WideProgram, list: &[Written]) -> u64
    ensures { result ≡ longest_sent (program_of program.now) (map instr_of list.now) }
{
    let mut longest = 0;
    for written in list {
        longest = sent_len(program, written).max(longest);
    }
    longest
}

/// The length of the longest buffer that a sequence sends over a medium, before its loop or inside it.
fn longest_in(program: &WideProgram, medium: u32, code: &WrittenCode) -> u64
    ensures { result ≡ longest_in (program_of program.now) medium (code_of code.now) }
{
    match code.seq.medium {
        Some(found) if found == medium => longest_sent(program, code.prologue.as_slice()).max(
            longest_sent(program, code.turn.as_slice()),
        ),
        _ => 0,
    }
}

/// The length of the wire of a medium.
fn wire_len(program: &WideProgram, medium: u32) -> u64
    ensures { result ≡ wire_len (program_of program.now) medium }
{
    let mut longest = 0;
    for code in program.seqs {
        longest = longest_in(program, medium, code).max(longest);
    }
    longest
}

/// The number of elements of all buffers in all their places, or the last value of the type where they are more.
fn buffer_words(sizes: &[Size]) -> u128
    ensures { result ≡ min (sum_by (λ s. s.depth * s.len) sizes.now) (2 ^ 128 - 1) }
{
    let mut total: u128 = 0;
    for size in sizes {
        total = total.saturating_add(u128::from(size.depth) * u128::from(size.len));
    }
    total
}

/// The number of elements of the wires of this many media, or the last value of the type where they are more.
fn wire_words(program: &WideProgram, media: u32) -> u128
    ensures { result ≡ min (sum_below (wire_len (program_of program.now)) media) (2 ^ 128 - 1) }
{
    let mut total: u128 = 0;
    for medium in 0..media {
        total = total.saturating_add(u128::from(wire_len(program, medium)));
    }
    total
}

/// How many words the table of a program has on this many media, or the last value of the type where they are more.
pub fn words(program: &WideProgram, media: u32) -> u128
    ensures { result ≡ min (words (program_of program.now) media) (2 ^ 128 - 1) }
{
    let semaphores = 2 * program.owners.len() as u128;
    let own = semaphores + u128::from(media);
    own.saturating_add(buffer_words(program.sizes.as_slice()))
        .saturating_add(wire_words(program, media))
}
