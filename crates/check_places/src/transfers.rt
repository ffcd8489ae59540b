//! Where transfers are wrong.
ghost use Rattle.std.specs.Prelude.{◌≡◌, ℕ, ◌&&◌, slice_get};
ghost use Rattle.sequence_build_laws.specs.Instructions.{operator, turn};
ghost use Rattle.order_check.specs.Checked.{is_at_medium, is_counted, is_medium};
ghost use Rattle.program_tables.specs.Crossings.{crossing, crossings, crossings_on};
ghost use Rattle.check_laws.specs.Tests.{waits_between};
ghost use Rattle.order_check.specs.Transfers.{is_other, is_receive_from, is_send_to};
ghost use Rattle.check_places.specs.First.{first_from};
ghost use Rattle.check_places.specs.Transfers.{awaited_place, count_place, first_on, first_over, medium_place, moved_place, moved_place_by, outside_place, transfers_place};

use crate::first::{broken, first_of, in_loop, unless};
use crate::place::{Place, Rule, Subject};
use order_check::{is_receive_from, is_send_to, is_wait};
use program_tables::Crossing;
use program_walks::{
    communication_at, count_communications, is_on, operator_of, transfers, turn_of,
};
use sequence_build_laws::{Instr, Program, SeqCode};
use syn_base::Items;

/// Whether a sequence with these instructions is a communicator, or has no communication.
fn is_at_medium(medium: Option<u32>, list: &[Instr]) -> bool
    ensures { result ≡ is_at_medium medium list.now }
{
    medium.is_some() || count_communications(list) == 0
}

/// The first communication outside the communicators.
fn outside_place(program: &Program) -> Option<Place>
    ensures { result ≡ first_from outside_place 0 program.now.seqs }
{
    for (sequence, code) in program.seqs.as_slice().iter().enumerate() {
        let turn = code.turn.as_slice();
        if !is_at_medium(code.seq.medium, turn) {
            let spot = in_loop(sequence, communication_at(turn, 0));
            return broken(Rule::OutsideThread, Subject::Sequence(sequence), spot);
        }
    }
    None
}

/// Whether the medium of a sequence, if it has one, is there.
fn is_medium(media: usize, medium: Option<u32>) -> bool
    ensures { result ≡ is_medium media medium }
{
    match medium {
        Some(medium) => (medium as usize) < media,
        None => true,
    }
}

/// The first communicator of a medium that is not there.
fn medium_place(program: &Program, media: usize) -> Option<Place>
    ensures { result ≡ first_from (medium_place media) 0 program.now.seqs }
{
    for (sequence, code) in program.seqs.as_slice().iter().enumerate() {
        if !is_medium(media, code.seq.medium) {
            return broken(Rule::UnknownMedium, Subject::Sequence(sequence), None);
        }
    }
    None
}

/// Whether a sequence, if it is a communicator, has as many communications as the first one of its medium.
fn is_counted(program: &Program, code: &SeqCode) -> bool
    ensures { result ≡ is_counted program.now code.now.seq.medium code.now.turn }
{
    match code.seq.medium {
        Some(medium) => {
            count_communications(code.turn.as_slice()) == transfers(program, medium as usize)
        }
        None => true,
    }
}

/// The first communicator that has more or fewer communications than the first one of its medium.
fn count_place(program: &Program) -> Option<Place>
    ensures { result ≡ first_from (count_place program.now) 0 program.now.seqs }
{
    for (sequence, code) in program.seqs.as_slice().iter().enumerate() {
        if !is_counted(program, code) {
            return broken(Rule::UnequalTransfers, Subject::Sequence(sequence), None);
        }
    }
    None
}

/// A transfer by its medium and its number there, with its ends.
#[derive(Clone, Copy, Drop)]
struct Moved {
    medium: usize,
    number: usize,
    ends: Crossing,
}

/// What places tell of it.
fn subject_of(moved: Moved) -> Subject
    ensures { result ≡ Subject.Transfer moved.medium moved.number }
{
    Subject::Transfer {
        medium: moved.medium,
        number: moved.number,
    }
}

/// Whether a sequence is another communicator of a medium than the ends of a transfer.
fn is_other(moved: Moved, sequence: usize, medium: Option<u32>) -> bool
    ensures { result ≡ is_other moved.medium moved.ends.sender moved.ends.receiver sequence medium }
{
    is_on(moved.medium, medium) && sequence != moved.ends.sender && sequence != moved.ends.receiver
}

/// Whether a sequence waits for a transfer, if it is another communicator of its medium.
fn waits(program: &Program, moved: Moved, sequence: usize, code: &SeqCode) -> bool
    ensures { result ≡ waits_between program.now moved.medium moved.number moved.ends.sender
        moved.ends.receiver sequence code.now }
{
    let turn = code.turn.as_slice();
    !is_other(moved, sequence, code.seq.medium)
        || is_wait(
            turn,
            communication_at(turn, moved.number),
            operator_of(program, moved.ends.sender),
            operator_of(program, moved.ends.receiver),
            true,
        )
}

/// The first other communicator of its medium that does not wait for a transfer.
fn awaited_place(program: &Program, moved: Moved) -> Option<Place>
    ensures { result ≡ first_from (awaited_place program.now moved.medium moved.number moved.ends) 0
        program.now.seqs }
{
    for (sequence, code) in program.seqs.as_slice().iter().enumerate() {
        if !waits(program, moved, sequence, code) {
            let at = communication_at(code.turn.as_slice(), moved.number);
            return broken(Rule::NotAwaited, subject_of(moved), in_loop(sequence, at));
        }
    }
    None
}

/// Whether a transfer is sent to the operator that receives.
fn is_sent(program: &Program, ends: Crossing) -> bool
    ensures { result ≡ is_send_to (operator program.now ends.receiver)
        (slice_get (turn program.now ends.sender) ends.send_at) }
{
    is_send_to(
        turn_of(program, ends.sender),
        ends.send_at,
        operator_of(program, ends.receiver),
    )
}

/// Whether a transfer is received from the operator that sends.
fn is_received(program: &Program, ends: Crossing) -> bool
    ensures { result ≡ is_receive_from (operator program.now ends.sender)
        (slice_get (turn program.now ends.receiver) ends.receive_at) }
{
    is_receive_from(
        turn_of(program, ends.receiver),
        ends.receive_at,
        operator_of(program, ends.sender),
    )
}

/// Where a transfer is wrong.
fn moved_place(program: &Program, moved: Moved) -> Option<Place>
    ensures { result ≡ moved_place_by program.now moved.medium moved.number moved.ends }
{
    let subject = subject_of(moved);
    let ends = moved.ends;
    let count = program.seqs.as_slice().len();
    let not_sent = unless(ends.sender < count, broken(Rule::NotSent, subject, None));
    let not_received = unless(
        ends.receiver < count,
        broken(Rule::NotReceived, subject, None),
    );
    let sent = in_loop(ends.sender, ends.send_at);
    let sent_elsewhere = unless(
        is_sent(program, ends),
        broken(Rule::SentElsewhere, subject, sent),
    );
    let received = in_loop(ends.receiver, ends.receive_at);
    let received_elsewhere = unless(
        is_received(program, ends),
        broken(Rule::ReceivedElsewhere, subject, received),
    );
    let to_others = first_of(received_elsewhere, awaited_place(program, moved));
    first_of(
        not_sent,
        first_of(not_received, first_of(sent_elsewhere, to_others)),
    )
}

/// The first of these transfers of a medium that is wrong.
fn moved_place_on(program: &Program, medium: usize, found: &[Crossing]) -> Option<Place>
    requires { found.now ≡ crossings_on program.now medium }
    ensures { result ≡ first_on program.now (moved_place program.now) medium }
{
    for (number, ends) in found.iter().enumerate() {
        let moved = Moved {
            medium,
            number,
            ends: *ends,
        };
        if let Some(place) = moved_place(program, moved) {
            return Some(place);
        }
    }
    None
}

/// The first of all transfers that is wrong.
fn first_moved(program: &Program, found: &[Items<Crossing>], media: usize) -> Option<Place>
    requires { found.now ≡ crossings program.now media }
    ensures { result ≡ first_over program.now (moved_place program.now) media }
{
    for (medium, on_it) in found.iter().enumerate() {
        if let Some(place) = moved_place_on(program, medium, on_it.as_slice()) {
            return Some(place);
        }
    }
    None
}

/// Where transfers are wrong first: communications outside communicators, media that are not there, unequal numbers of
/// communications, and then a single transfer. The table has the transfers.
pub fn transfers_place(program: &Program, found: &[Items<Crossing>], media: usize) -> Option<Place>
    requires { found.now ≡ crossings program.now media }
    ensures { result ≡ transfers_place program.now media }
{
    let unequal = first_of(count_place(program), first_moved(program, found, media));
    first_of(
        outside_place(program),
        first_of(medium_place(program, media), unequal),
    )
}
