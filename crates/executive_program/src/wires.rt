//! The wire of a medium: how long it is.
ghost use Rattle.std.specs.Prelude.{◌≡◌, max};
ghost use Rattle.executive_program.specs.MicroSteps.{sent_len, longest_sent, longest_in, wire_len};

use crate::expand::buffer_len;
use crate::program::{Instr, Program, SeqCode};

/// The length of the buffer that an instruction sends, 0 for another instruction.
fn sent_len(program: &Program, instr: &Instr) -> u32
    ensures { result ≡ sent_len program.now instr.now }
{
    match instr {
        Instr::Send { buffer, .. } => buffer_len(program, *buffer),
        _ => 0,
    }
}

/// The length of the longest buffer that these instructions send.
fn longest_sent(program: &Program, list: &[Instr]) -> u32
    ensures { result ≡ longest_sent program.now list.now }
{
    let mut longest = 0;
    for instr in list {
        longest = sent_len(program, instr).max(longest);
    }
    longest
}

/// The length of the longest buffer that a sequence sends over a medium.
fn longest_in(program: &Program, medium: u32, code: &SeqCode) -> u32
    ensures { result ≡ longest_in program.now medium code.now }
{
    match code.seq.medium {
        Some(found) if found == medium => longest_sent(program, code.turn.as_slice()),
        _ => 0,
    }
}

/// The length of the wire of a medium.
pub fn wire_len(program: &Program, medium: u32) -> u32
    ensures { result ≡ wire_len program.now medium }
{
    let mut longest = 0;
    for code in program.seqs.as_slice() {
        longest = longest_in(program, medium, code).max(longest);
    }
    longest
}
