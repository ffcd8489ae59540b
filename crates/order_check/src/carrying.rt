//! The source that a buffer carries: an output of an operation, over any number of transfers.
ghost use Rattle.std.specs.Prelude.{◌≡◌, count_by, slice_get, take};
ghost use Rattle.executive_program.specs.Graph.{same_source};
ghost use Rattle.executive_program.specs.Instructions.{communications, is_communication, medium, turn};
ghost use Rattle.executive_program.specs.MicroSteps.{sent, sent_in, transfers};
ghost use Rattle.executive_program.specs.Places.{carried, output_at};
ghost use Rattle.program_walks.specs.Walks.{all_below};
ghost use Rattle.order_check.specs.Carries.{are_kept, is_kept, origin, origin_at, origin_of, received, sent_by_one, sent_on};

use crate::transferring::{Crossing, buffer_at, receiver_of, sender_of};
use executive_program::{Instr, Program};
use program_walks::{
    is_communication, is_on, medium_of, output_at, transfers, turn_of, writer_of, written_at,
};

/// Where what a buffer holds comes from.
#[derive(Clone, Copy, Drop)]
pub enum Origin {
    /// An output of an operation.
    Made { vertex: u32, port: usize },
    /// A buffer that is sent to it.
    Received(u32),
    /// Nothing writes it.
    Nowhere,
}

/// An output of an operation. In contracts a source of the flat graph.
#[derive(Clone, Copy, Drop)]
pub struct Carried {
    pub vertex: u32,
    pub port: usize,
}

/// The buffer that a communication of these sends, if it is a send.
fn sent_in(list: &[Instr], number: usize) -> Option<u32>
    ensures { result ≡ sent_in list.now number }
{
    let mut left = number;
    for instr in list {
        if is_communication(instr) {
            if left == 0 {
                return sent_by(instr);
            }
            left -= 1;
        }
    }
    None
}

/// The buffer that an instruction sends, if it is a send.
fn sent_by(instr: &Instr) -> Option<u32>
    ensures { result ≡ sent_by_one instr.now }
{
    match instr {
        Instr::Send { buffer, .. } => Some(*buffer),
        _ => None,
    }
}

/// The buffer that a transfer sends.
fn sent(program: &Program, medium: usize, number: usize) -> Option<u32>
    ensures { result ≡ sent program.now medium number }
{
    for code in program.seqs.as_slice() {
        if is_on(medium, code.seq.medium) {
            let found = sent_in(code.turn.as_slice(), number);
            if found.is_some() {
                return found;
            }
        }
    }
    None
}

/// The buffer that a transfer sends, none where there is no medium.
fn sent_on(program: &Program, medium: Option<u32>, number: usize) -> Option<u32>
    ensures { result ≡ sent_on program.now medium number }
{
    match medium {
        Some(medium) => sent(program, medium as usize, number),
        None => None,
    }
}

/// The origin of a buffer that receives what is sent.
fn origin_received(sent: Option<u32>) -> Origin
    ensures { result ≡ received sent }
{
    match sent {
        Some(buffer) => Origin::Received(buffer),
        None => Origin::Nowhere,
    }
}

/// How many of the instructions before a place are communications.
fn count_before(list: &[Instr], at: usize) -> usize
    ensures { result ≡ count_by is_communication (take at list.now) }
{
    list.iter()
        .take(at)
        .filter(|instr| is_communication(*instr))
        .count()
}

/// The number of the communication at a place of a sequence.
fn communications(program: &Program, sequence: usize, at: usize) -> usize
    ensures { result ≡ communications program.now sequence at }
{
    count_before(turn_of(program, sequence), at)
}

/// The origin of what the receive at a place of a sequence writes.
fn received_at(program: &Program, sequence: usize, at: usize) -> Origin
    ensures { result ≡ received (sent_on program.now (medium program.now sequence)
        (communications program.now sequence at)) }
{
    origin_received(sent_on(
        program,
        medium_of(program, sequence),
        communications(program, sequence, at),
    ))
}

/// The origin of what the instruction at a place writes as output `port`.
fn origin_of(program: &Program, sequence: usize, at: usize, port: usize) -> Origin
    ensures { result ≡ origin_of program.now sequence at port (slice_get (turn program.now sequence) at) }
{
    match turn_of(program, sequence).get(at) {
        Some(Instr::Call { vertex, .. }) => Origin::Made {
            vertex: *vertex,
            port,
        },
        Some(Instr::Recv { .. }) => received_at(program, sequence, at),
        _ => Origin::Nowhere,
    }
}

/// The origin of what a buffer holds, where the instruction at a place writes it.
fn origin_at(program: &Program, buffer: usize, sequence: usize, at: usize) -> Origin
    ensures { result ≡ origin_at program.now buffer sequence at }
{
    let port = output_at(turn_of(program, sequence), at, buffer);
    origin_of(program, sequence, at, port)
}

/// The origin of what a buffer holds.
fn comes_from(program: &Program, buffer: usize) -> Origin
    ensures { result ≡ origin program.now buffer }
{
    origin_at(
        program,
        buffer,
        writer_of(program, buffer),
        written_at(program, buffer),
    )
}

/// The source that a buffer carries.
pub fn carried_by(program: &Program, buffer: usize) -> Carried
    ensures vertex { result.vertex ≡ (carried program.now buffer).vertex }
    ensures port { result.port ≡ (carried program.now buffer).port }
{
    let mut at = buffer;
    for _hops in 0..program.buffers.as_slice().len() {
        match comes_from(program, at) {
            Origin::Made { vertex, port } => return Carried { vertex, port },
            Origin::Received(sent) => at = sent as usize,
            Origin::Nowhere => return Carried { vertex: 0, port: 0 },
        }
    }
    Carried { vertex: 0, port: 0 }
}

/// Whether two buffers carry the same source.
fn is_same(program: &Program, one: usize, other: usize) -> bool
    ensures { result ≡ same_source (carried program.now one) (carried program.now other) }
{
    let one = carried_by(program, one);
    let other = carried_by(program, other);
    one.vertex == other.vertex && one.port == other.port
}

/// Whether the received buffer of a transfer carries what the sent one does.
fn is_kept(program: &Program, crossing: Crossing) -> bool
    ensures { result ≡ is_kept program.now crossing.medium crossing.number }
{
    let received = buffer_at(program, receiver_of(program, crossing), crossing.number) as usize;
    let sent = buffer_at(program, sender_of(program, crossing), crossing.number) as usize;
    is_same(program, received, sent)
}

/// Whether this holds of each transfer of a medium.
fn are_kept_on(program: &Program, medium: usize) -> bool
    ensures { result ≡ all_below (λ t. is_kept program.now medium t) (transfers program.now medium) }
{
    (0..transfers(program, medium)).all(|number| is_kept(program, Crossing { medium, number }))
}

/// Whether each received buffer carries what the sent one does, in each transfer of this many media.
pub fn are_kept(program: &Program, media: usize) -> bool
    ensures { result ≡ are_kept program.now media }
{
    (0..media).all(|medium| are_kept_on(program, medium))
}
