//! The check of transfers: each has its send, its receive, and the waits of the other communicators, in this order.
ghost use Rattle.std.specs.Prelude.{◌≡◌, ◌+◌, ◌&&◌, nat_eq, nat_lt, slice_get};
ghost use Rattle.executive_program.specs.Instructions.{len_of, medium, operator, turn};
ghost use Rattle.executive_program.specs.MicroSteps.{is_on, transfers};
ghost use Rattle.executive_program.specs.Places.{buffer_in, communication_at, is_receive, is_send, receives_at, sends_at};
ghost use Rattle.executive_program.specs.WellFormed.{place_in};
ghost use Rattle.program_walks.specs.Walks.{all_at, all_below};
ghost use Rattle.order_check.specs.Transfers.{are_transfers, buffer_at, is_before_next, is_later, is_other, is_received, is_sent, stands_at, waits_at, is_receive_from, is_send_to, is_transfer, is_transfer_between, is_wait, place_of, receiver_of, sender_of, waits};

use executive_program::{Instr, Program, SeqCode};
use program_walks::{
    Stand, communication_at, is_on, len_of, medium_of, operator_of, place_in, transfers, turn_of,
};

/// A transfer by its medium and its number there.
#[derive(Clone, Copy, Drop)]
pub struct Crossing {
    pub medium: usize,
    pub number: usize,
}

/// The sequences at the ends of a transfer.
#[derive(Clone, Copy, Drop)]
struct Ends {
    sender: usize,
    receiver: usize,
}

/// Whether a send stands at a place.
fn is_send(list: &[Instr], at: usize) -> bool
    ensures { result ≡ is_send (slice_get list.now at) }
{
    matches!(list.get(at), Some(Instr::Send { .. }))
}

/// Whether a receive stands at a place.
fn is_receive(list: &[Instr], at: usize) -> bool
    ensures { result ≡ is_receive (slice_get list.now at) }
{
    matches!(list.get(at), Some(Instr::Recv { .. }))
}

/// Whether a sequence sends in a transfer.
fn sends_at(program: &Program, crossing: Crossing, code: &SeqCode) -> bool
    ensures { result ≡ sends_at program.now crossing.medium crossing.number code.now }
{
    let turn = code.turn.as_slice();
    is_on(crossing.medium, code.seq.medium)
        && is_send(turn, communication_at(turn, crossing.number))
}

/// Whether a sequence receives in a transfer.
fn receives_at(program: &Program, crossing: Crossing, code: &SeqCode) -> bool
    ensures { result ≡ receives_at program.now crossing.medium crossing.number code.now }
{
    let turn = code.turn.as_slice();
    is_on(crossing.medium, code.seq.medium)
        && is_receive(turn, communication_at(turn, crossing.number))
}

/// The first sequence that sends in a transfer, or their number.
pub fn sender_of(program: &Program, crossing: Crossing) -> usize
    ensures { result ≡ sender_of program.now crossing.medium crossing.number }
{
    let seqs = program.seqs.as_slice();
    for (sequence, code) in seqs.iter().enumerate() {
        if sends_at(program, crossing, code) {
            return sequence;
        }
    }
    seqs.len()
}

/// The first sequence that receives in a transfer, or their number.
pub fn receiver_of(program: &Program, crossing: Crossing) -> usize
    ensures { result ≡ receiver_of program.now crossing.medium crossing.number }
{
    let seqs = program.seqs.as_slice();
    for (sequence, code) in seqs.iter().enumerate() {
        if receives_at(program, crossing, code) {
            return sequence;
        }
    }
    seqs.len()
}

/// The buffer of the send or the receive at a place, 0 where there is none.
fn buffer_in(list: &[Instr], at: usize) -> u32
    ensures { result ≡ buffer_in (slice_get list.now at) }
{
    match list.get(at) {
        Some(Instr::Send { buffer, .. }) => *buffer,
        Some(Instr::Recv { buffer, .. }) => *buffer,
        _ => 0,
    }
}

/// The buffer of a communication of a sequence.
pub fn buffer_at(program: &Program, sequence: usize, number: usize) -> u32
    ensures { result ≡ buffer_at program.now sequence number }
{
    let turn = turn_of(program, sequence);
    buffer_in(turn, communication_at(turn, number))
}

/// Whether a send to this operator stands at a place.
pub fn is_send_to(list: &[Instr], at: usize, operator: u32) -> bool
    ensures { result ≡ is_send_to operator (slice_get list.now at) }
{
    match list.get(at) {
        Some(Instr::Send { to, .. }) => *to == operator,
        _ => false,
    }
}

/// Whether a receive from this operator stands at a place.
pub fn is_receive_from(list: &[Instr], at: usize, operator: u32) -> bool
    ensures { result ≡ is_receive_from operator (slice_get list.now at) }
{
    match list.get(at) {
        Some(Instr::Recv { from, .. }) => *from == operator,
        _ => false,
    }
}

/// Whether a wait for a transfer between these operators stands at a place, and this holds; true where the list
/// ends before.
pub fn is_wait(list: &[Instr], at: usize, sender: u32, receiver: u32, holds: bool) -> bool
    ensures { result ≡ is_wait sender receiver holds (slice_get list.now at) }
{
    match list.get(at) {
        Some(Instr::Sync { from, to }) => *from == sender && *to == receiver && holds,
        Some(_) => false,
        None => true,
    }
}

/// The place in the order of a communication of a sequence.
fn place_of(program: &Program, order: &[u32], sequence: usize, number: usize) -> usize
    ensures { result ≡ place_of program.now order.now sequence number }
{
    place_in(
        order,
        sequence,
        communication_at(turn_of(program, sequence), number),
    )
}

/// Whether an instruction stands after the receive of a transfer, in the order.
fn is_later(program: &Program, order: &[u32], number: usize, receiver: usize, stand: Stand) -> bool
    ensures { result ≡ is_later program.now order.now number receiver stand.sequence stand.at }
{
    place_of(program, order, receiver, number) < place_in(order, stand.sequence, stand.at)
}

/// Whether a wait for a transfer between the operators of its ends stands at a place, and this holds; true where the
/// list ends before.
fn waits_for_ends(program: &Program, ends: Ends, list: &[Instr], at: usize, holds: bool) -> bool
    ensures { result ≡ is_wait (operator program.now ends.sender)
        (operator program.now ends.receiver) holds (slice_get list.now at) }
{
    is_wait(
        list,
        at,
        operator_of(program, ends.sender),
        operator_of(program, ends.receiver),
        holds,
    )
}

/// Whether the instruction at a place, if there is one, waits for a transfer, after its receive.
fn waits_at(
    program: &Program,
    order: &[u32],
    number: usize,
    ends: Ends,
    list: &[Instr],
    stand: Stand,
) -> bool
    ensures { result ≡ waits_at program.now order.now number ends.sender ends.receiver
        stand.sequence list.now stand.at }
{
    let later = is_later(program, order, number, ends.receiver, stand);
    waits_for_ends(program, ends, list, stand.at, later)
}

/// Whether the communication of a transfer's number, if there is one, waits for the transfer, after its receive.
fn waits_in(
    program: &Program,
    order: &[u32],
    number: usize,
    ends: Ends,
    list: &[Instr],
    sequence: usize,
) -> bool
    ensures { result ≡ waits_at program.now order.now number ends.sender ends.receiver sequence
        list.now (communication_at list.now number) }
{
    let at = communication_at(list, number);
    waits_at(program, order, number, ends, list, Stand { sequence, at })
}

/// Whether a sequence is a communicator of the medium and no end of the transfer.
fn is_other(medium: usize, ends: Ends, sequence: usize, found: Option<u32>) -> bool
    ensures { result ≡ is_other medium ends.sender ends.receiver sequence found }
{
    is_on(medium, found) && sequence != ends.sender && sequence != ends.receiver
}

/// Whether a sequence waits for a transfer, if it is to.
fn waits(
    program: &Program,
    order: &[u32],
    crossing: Crossing,
    ends: Ends,
    sequence: usize,
    code: &SeqCode,
) -> bool
    ensures { result ≡ waits program.now order.now crossing.medium crossing.number ends.sender
        ends.receiver sequence code.now }
{
    !is_other(crossing.medium, ends, sequence, code.seq.medium)
        || waits_in(
            program,
            order,
            crossing.number,
            ends,
            code.turn.as_slice(),
            sequence,
        )
}

/// Whether all other communicators of the medium wait for a transfer.
fn all_wait(program: &Program, order: &[u32], crossing: Crossing, ends: Ends) -> bool
    ensures { result ≡ all_at (waits program.now order.now crossing.medium crossing.number
        ends.sender ends.receiver) 0 program.now.seqs }
{
    for (sequence, code) in program.seqs.as_slice().iter().enumerate() {
        if !waits(program, order, crossing, ends, sequence, code) {
            return false;
        }
    }
    true
}

/// Whether a transfer has its send: in a communicator of its medium, to the operator that receives.
fn is_sent(program: &Program, crossing: Crossing, ends: Ends) -> bool
    ensures { result ≡ is_sent program.now crossing.medium crossing.number ends.sender ends.receiver }
{
    is_on(crossing.medium, medium_of(program, ends.sender))
        && is_sent_to(
            program,
            crossing.number,
            ends.sender,
            operator_of(program, ends.receiver),
        )
}

/// Whether a communication of a sequence is a send to an operator.
fn is_sent_to(program: &Program, number: usize, sender: usize, operator: u32) -> bool
    ensures { result ≡ is_send_to operator (slice_get (turn program.now sender) (stands_at program.now sender number)) }
{
    let turn = turn_of(program, sender);
    is_send_to(turn, communication_at(turn, number), operator)
}

/// Whether a transfer has its receive: in a communicator of its medium, from the operator that sends.
fn is_received(program: &Program, crossing: Crossing, ends: Ends) -> bool
    ensures { result ≡ is_received program.now crossing.medium crossing.number ends.sender ends.receiver }
{
    is_on(crossing.medium, medium_of(program, ends.receiver))
        && is_got_from(
            program,
            crossing.number,
            ends.receiver,
            operator_of(program, ends.sender),
        )
}

/// Whether a communication of a sequence is a receive from an operator.
fn is_got_from(program: &Program, number: usize, receiver: usize, operator: u32) -> bool
    ensures { result ≡ is_receive_from operator
        (slice_get (turn program.now receiver) (stands_at program.now receiver number)) }
{
    let turn = turn_of(program, receiver);
    is_receive_from(turn, communication_at(turn, number), operator)
}

/// Whether the send of a transfer stands before its receive, in the order.
fn is_in_order(program: &Program, order: &[u32], number: usize, ends: Ends) -> bool
    ensures { result ≡ nat_lt (place_of program.now order.now ends.sender number)
        (place_of program.now order.now ends.receiver number) }
{
    place_of(program, order, ends.sender, number) < place_of(program, order, ends.receiver, number)
}

/// Whether a place of the order is before the send of a transfer.
fn is_before(program: &Program, order: &[u32], next: Crossing, received: usize) -> bool
    ensures { result ≡ nat_lt received (place_of program.now order.now
        (sender_of program.now next.medium next.number) next.number) }
{
    received < place_of(program, order, sender_of(program, next), next.number)
}

/// Whether the receive of a transfer stands before the next send of the medium, in the order.
fn is_before_next(program: &Program, order: &[u32], crossing: Crossing, receiver: usize) -> bool
    ensures { result ≡ is_before_next program.now order.now crossing.medium crossing.number receiver }
{
    let total = transfers(program, crossing.medium);
    if crossing.number >= total {
        return true;
    }
    let next = Crossing {
        medium: crossing.medium,
        number: crossing.number + 1,
    };
    next.number >= total
        || is_before(
            program,
            order,
            next,
            place_of(program, order, receiver, crossing.number),
        )
}

/// Whether the buffer that is received is as long as the one that is sent.
fn is_as_long(program: &Program, number: usize, ends: Ends) -> bool
    ensures { result ≡ nat_eq (len_of program.now (buffer_at program.now ends.receiver number))
        (len_of program.now (buffer_at program.now ends.sender number)) }
{
    let received = buffer_at(program, ends.receiver, number) as usize;
    let sent = buffer_at(program, ends.sender, number) as usize;
    len_of(program, received) == len_of(program, sent)
}

/// Whether a transfer is right between two sequences.
fn is_transfer_between(program: &Program, order: &[u32], crossing: Crossing, ends: Ends) -> bool
    ensures { result ≡ is_transfer_between program.now order.now crossing.medium crossing.number
        ends.sender ends.receiver }
{
    is_sent(program, crossing, ends)
        && is_received(program, crossing, ends)
        && all_wait(program, order, crossing, ends)
        && is_in_order(program, order, crossing.number, ends)
        && is_before_next(program, order, crossing, ends.receiver)
        && is_as_long(program, crossing.number, ends)
}

/// Whether a transfer is right.
fn is_transfer(program: &Program, order: &[u32], crossing: Crossing) -> bool
    ensures { result ≡ is_transfer program.now order.now crossing.medium crossing.number }
{
    let sender = sender_of(program, crossing);
    let receiver = receiver_of(program, crossing);
    is_transfer_between(program, order, crossing, Ends { sender, receiver })
}

/// Whether the transfers of a medium are right.
fn are_transfers_on(program: &Program, order: &[u32], medium: usize) -> bool
    ensures { result ≡ all_below (λ t. is_transfer program.now order.now medium t) (transfers program.now medium) }
{
    (0..transfers(program, medium)).all(|number| is_transfer(
        program,
        order,
        Crossing { medium, number },
    ))
}

/// Whether each transfer of this many media has its send, its receive and the waits of the others in order,
/// each before the next, and receives into a buffer as long as the one that is sent.
pub fn are_transfers(program: &Program, order: &[u32], media: usize) -> bool
    ensures { result ≡ are_transfers program.now order.now media }
{
    (0..media).all(|medium| are_transfers_on(program, order, medium))
}
