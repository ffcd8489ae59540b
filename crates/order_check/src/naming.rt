//! The check that what instructions name is there, and that communications stand in communicators.
ghost use Rattle.std.specs.Prelude.{◌≡◌, not, nat_lt, length};
ghost use Rattle.std.specs.List.{list_all};
ghost use Rattle.executive_program.specs.Instructions.{is_communication};
ghost use Rattle.order_check.specs.Checked.{are_below, communicators, counts, is_at_medium, is_counted, is_medium, named, names_in, on_media};

use crate::loops::are_below;
use executive_program::{Instr, Program};
use program_walks::{count_communications, is_communication, transfers};

/// Whether a pair is there.
fn is_pair(program: &Program, pair: u32) -> bool
    ensures { result ≡ nat_lt pair (length program.now.pairs) }
{
    (pair as usize) < program.pairs.as_slice().len()
}

/// Whether a buffer is there.
fn is_buffer(program: &Program, buffer: u32) -> bool
    ensures { result ≡ nat_lt buffer (length program.now.buffers) }
{
    (buffer as usize) < program.buffers.as_slice().len()
}

/// Whether these buffers are there.
fn are_buffers(program: &Program, list: &[u32]) -> bool
    ensures { result ≡ are_below (length program.now.buffers) list.now }
{
    are_below(list, program.buffers.as_slice().len())
}

/// Whether what an instruction names is there, among this many operations.
pub fn names_in(program: &Program, operations: usize, instr: &Instr) -> bool
    ensures { result ≡ names_in program.now operations instr.now }
{
    match instr {
        Instr::Suc0(pair) | Instr::Suc1(pair) | Instr::Pre0(pair) | Instr::Pre1(pair) => {
            is_pair(program, *pair)
        }
        Instr::Call { vertex, ins, outs } => {
            (*vertex as usize) < operations
                && are_buffers(program, ins.as_slice())
                && are_buffers(program, outs.as_slice())
        }
        Instr::Send { buffer, .. } | Instr::Recv { buffer, .. } => is_buffer(program, *buffer),
        Instr::Sync { .. } => true,
    }
}

/// Whether what these instructions name is there, among this many operations.
fn name_in(program: &Program, operations: usize, list: &[Instr]) -> bool
    ensures { result ≡ list_all (names_in program.now operations) list.now }
{
    list.iter()
        .all(|instr| names_in(program, operations, instr))
}

/// Whether what the instructions name is there, among this many operations.
pub fn are_named(program: &Program, operations: usize) -> bool
    ensures { result ≡ named program.now operations }
{
    program
        .seqs
        .as_slice()
        .iter()
        .all(|code| name_in(program, operations, code.turn.as_slice()))
}

/// Whether none of these instructions is a communication.
fn are_no_communications(list: &[Instr]) -> bool
    ensures { result ≡ list_all (λ x. not (is_communication x)) list.now }
{
    list.iter().all(|instr| !is_communication(instr))
}

/// Whether a sequence with these instructions is at a medium, if one of them is a communication.
fn is_at_medium(medium: Option<u32>, list: &[Instr]) -> bool
    ensures { result ≡ is_at_medium medium list.now }
{
    medium.is_some() || are_no_communications(list)
}

/// Whether communications stand in communicators alone.
pub fn are_communicators(program: &Program) -> bool
    ensures { result ≡ communicators program.now }
{
    program
        .seqs
        .as_slice()
        .iter()
        .all(|code| is_at_medium(code.seq.medium, code.turn.as_slice()))
}

/// Whether the medium of a sequence, if it has one, is there.
fn is_medium(media: usize, medium: Option<u32>) -> bool
    ensures { result ≡ is_medium media medium }
{
    match medium {
        Some(medium) => (medium as usize) < media,
        None => true,
    }
}

/// Whether the media of communicators are there.
pub fn are_on_media(program: &Program, media: usize) -> bool
    ensures { result ≡ on_media program.now media }
{
    program
        .seqs
        .as_slice()
        .iter()
        .all(|code| is_medium(media, code.seq.medium))
}

/// Whether a sequence with these instructions, if it is a communicator, has one communication in each transfer of its
/// medium.
fn is_counted(program: &Program, medium: Option<u32>, list: &[Instr]) -> bool
    ensures { result ≡ is_counted program.now medium list.now }
{
    match medium {
        Some(medium) => count_communications(list) == transfers(program, medium as usize),
        None => true,
    }
}

/// Whether each communicator has one communication in each transfer of its medium.
pub fn are_counted(program: &Program) -> bool
    ensures { result ≡ counts program.now }
{
    program.seqs.as_slice().iter().all(|code| is_counted(
        program,
        code.seq.medium,
        code.turn.as_slice(),
    ))
}
