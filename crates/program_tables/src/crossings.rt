//! The table of transfers, by medium.
ghost use Rattle.std.specs.Prelude.{◌≡◌, ℕ, ◌<◌, length, slice_get, IfOk};
ghost use Rattle.executive_program.specs.Places.{buffer_in, is_receive, is_send};
ghost use Rattle.program_tables.specs.MarkRows.{row};
ghost use Rattle.program_tables.specs.Communications.{communicators_of, places_of};
ghost use Rattle.program_tables.specs.Crossings.{crossing, crossing_by, crossings, crossings_on, first_where, receives_in, sends_in};

use crate::communications::place_of_communication;
use crate::mark_table::{Mark, MarkTable};
use executive_program::{Instr, Program};
use program_walks::{transfers, turn_of};
use std::alloc::Global;
use syn_base::{Items, OutOfMemory};

/// A transfer: the sending sequence with the place of the send in its loop, the receiving sequence with the
/// place of the receive, and the buffers that are sent and received.
#[derive(Clone, Copy, Drop)]
pub struct Crossing {
    pub sender: usize,
    pub send_at: usize,
    pub receiver: usize,
    pub receive_at: usize,
    pub sent: u32,
    pub received: u32,
}

/// Whether a send stands at a place.
fn is_send(list: &[Instr], at: usize) -> bool
    ensures { result ≡ is_send (slice_get list.now at) }
{
    matches!(list.get(at), Some(Instr::Send { .. }))
}

/// Whether a receive stands at a place.
fn is_receive(list: &[Instr], at: usize) -> bool
    ensures { result ≡ is_receive (slice_get list.now at) }
{
    matches!(list.get(at), Some(Instr::Recv { .. }))
}

/// The buffer of the send or the receive at a place, 0 where there is none.
fn buffer_in(list: &[Instr], at: usize) -> u32
    ensures { result ≡ buffer_in (slice_get list.now at) }
{
    match list.get(at) {
        Some(Instr::Send { buffer, .. }) => *buffer,
        Some(Instr::Recv { buffer, .. }) => *buffer,
        _ => 0,
    }
}

/// Whether a communication of a sequence, by its number, is a send.
fn sends_in(program: &Program, places: &[Items<usize>], sequence: usize, number: usize) -> bool
    requires { places.now ≡ places_of program.now }
    ensures { result ≡ sends_in program.now number sequence }
{
    is_send(
        turn_of(program, sequence),
        place_of_communication(program, places, sequence, number),
    )
}

/// Whether a communication of a sequence, by its number, is a receive.
fn receives_in(program: &Program, places: &[Items<usize>], sequence: usize, number: usize) -> bool
    requires { places.now ≡ places_of program.now }
    ensures { result ≡ receives_in program.now number sequence }
{
    is_receive(
        turn_of(program, sequence),
        place_of_communication(program, places, sequence, number),
    )
}

/// The first of these communicators that sends in a transfer, or the number of sequences.
fn sender_among(
    program: &Program,
    places: &[Items<usize>],
    communicators: &[Mark],
    number: usize,
) -> usize
    requires { places.now ≡ places_of program.now }
    ensures { result ≡ first_where (length program.now.seqs) (sends_in program.now number) communicators.now }
{
    for mark in communicators {
        if sends_in(program, places, mark.sequence, number) {
            return mark.sequence;
        }
    }
    program.seqs.as_slice().len()
}

/// The first of these communicators that receives in a transfer, or the number of sequences.
fn receiver_among(
    program: &Program,
    places: &[Items<usize>],
    communicators: &[Mark],
    number: usize,
) -> usize
    requires { places.now ≡ places_of program.now }
    ensures { result ≡ first_where (length program.now.seqs) (receives_in program.now number) communicators.now }
{
    for mark in communicators {
        if receives_in(program, places, mark.sequence, number) {
            return mark.sequence;
        }
    }
    program.seqs.as_slice().len()
}

/// The transfer of a number, between these two sequences.
fn crossing_by(
    program: &Program,
    places: &[Items<usize>],
    number: usize,
    sender: usize,
    receiver: usize,
) -> Crossing
    requires { places.now ≡ places_of program.now }
    ensures { result ≡ crossing_by program.now number sender receiver }
{
    let send_at = place_of_communication(program, places, sender, number);
    let receive_at = place_of_communication(program, places, receiver, number);
    Crossing {
        sender,
        send_at,
        receiver,
        receive_at,
        sent: buffer_in(turn_of(program, sender), send_at),
        received: buffer_in(turn_of(program, receiver), receive_at),
    }
}

/// The transfer of a number on a medium, whose communicators are these.
fn make_crossing(
    program: &Program,
    places: &[Items<usize>],
    communicators: &[Mark],
    medium: usize,
    number: usize,
) -> Crossing
    requires table { places.now ≡ places_of program.now }
    requires all { communicators.now ≡ communicators_of program.now medium }
    ensures { result ≡ crossing program.now medium number }
{
    let sender = sender_among(program, places, communicators, number);
    let receiver = receiver_among(program, places, communicators, number);
    crossing_by(program, places, number, sender, receiver)
}

/// The transfers of a medium in order.
fn crossings_on(
    alloc: Global,
    program: &Program,
    places: &[Items<usize>],
    communicators: &[Mark],
    medium: usize,
) -> Result<Vec<Crossing>, OutOfMemory>
    requires table { places.now ≡ places_of program.now }
    requires all { communicators.now ≡ communicators_of program.now medium }
    ensures { IfOk result (λ row. row.items ≡ crossings_on program.now medium) }
{
    let mut row = Vec::new(alloc);
    for number in 0..transfers(program, medium) {
        row.push(make_crossing(program, places, communicators, medium, number))?;
    }
    Ok(row)
}

/// For each medium below `media` its transfers in order, as many as its first communicator has
/// communications.
pub fn find_crossings(
    alloc: Global,
    program: &Program,
    places: &[Items<usize>],
    communicators: &MarkTable,
    media: usize,
) -> Result<Vec<Items<Crossing>>, OutOfMemory>
    requires table { places.now ≡ places_of program.now }
    requires all { (m : ℕ) → m < media → row communicators.now m ≡ communicators_of program.now m }
    ensures { IfOk result (λ rows. rows.items ≡ crossings program.now media) }
{
    let mut rows = Vec::new(alloc);
    for medium in 0..media {
        let found = crossings_on(alloc, program, places, communicators.of(medium), medium)?;
        rows.push(Items::new(found))?;
    }
    Ok(rows)
}
