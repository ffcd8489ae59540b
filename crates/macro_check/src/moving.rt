//! The check of transfers: each has one send, one receive, and a wait at each other communicator of its medium.
ghost use Rattle.std.specs.Prelude.{◌≡◌, ℕ, ◌<◌, ◌&&◌, not, nat_eq};
ghost use Rattle.std.specs.List.{list_all};
ghost use Rattle.sequence_build_laws.specs.MicroSteps.{transfers};
ghost use Rattle.program_tables.specs.MarkRows.{row};
ghost use Rattle.program_tables.specs.Communications.{communicators_of, places_of};
ghost use Rattle.program_tables.specs.Crossings.{crossing, crossing_by, crossings, crossings_on};
ghost use Rattle.program_walks.specs.Walks.{all_below};
ghost use Rattle.order_check.specs.Transfers.{is_received, is_sent};
ghost use Rattle.check_laws.specs.Tests.{are_moved, are_transferred, is_moved};
ghost use Rattle.macro_check.specs.Tabled.{other_waits, waits_in};

use order_check::{
    are_communicators, are_counted, are_on_media, is_receive_from, is_send_to, is_wait,
};
use program_tables::{Crossing, Mark, MarkTable, place_of_communication};
use program_walks::{is_on, medium_of, operator_of, turn_of};
use sequence_build_laws::Program;
use syn_base::Items;

/// Whether a transfer has its send: in a communicator of its medium, to the operator that receives.
fn is_sent(program: &Program, medium: usize, number: usize, moved: Crossing) -> bool
    requires { moved ≡ crossing_by program.now number moved.sender moved.receiver }
    ensures { result ≡ is_sent program.now medium number moved.sender moved.receiver }
{
    is_on(medium, medium_of(program, moved.sender))
        && is_send_to(
            turn_of(program, moved.sender),
            moved.send_at,
            operator_of(program, moved.receiver),
        )
}

/// Whether a transfer has its receive: in a communicator of its medium, from the operator that sends.
fn is_received(program: &Program, medium: usize, number: usize, moved: Crossing) -> bool
    requires { moved ≡ crossing_by program.now number moved.sender moved.receiver }
    ensures { result ≡ is_received program.now medium number moved.sender moved.receiver }
{
    is_on(medium, medium_of(program, moved.receiver))
        && is_receive_from(
            turn_of(program, moved.receiver),
            moved.receive_at,
            operator_of(program, moved.sender),
        )
}

/// Whether a communication of a sequence waits for the transfer between these two; true where it has none of
/// this number.
fn waits(
    program: &Program,
    places: &[Items<usize>],
    number: usize,
    moved: Crossing,
    sequence: usize,
) -> bool
    requires { places.now ≡ places_of program.now }
    ensures { result ≡ waits_in program.now number moved.sender moved.receiver sequence }
{
    is_wait(
        turn_of(program, sequence),
        place_of_communication(program, places, sequence, number),
        operator_of(program, moved.sender),
        operator_of(program, moved.receiver),
        true,
    )
}

/// Whether a sequence is no end of a transfer.
fn is_other(moved: Crossing, sequence: usize) -> bool
    ensures { result ≡ (not (nat_eq sequence moved.sender) && not (nat_eq sequence moved.receiver)) }
{
    sequence != moved.sender && sequence != moved.receiver
}

/// Whether those of these communicators that are no ends of a transfer wait for it.
fn all_wait(
    program: &Program,
    places: &[Items<usize>],
    communicators: &[Mark],
    number: usize,
    moved: Crossing,
) -> bool
    requires { places.now ≡ places_of program.now }
    ensures { result ≡ list_all (other_waits program.now number moved.sender moved.receiver) communicators.now }
{
    for mark in communicators {
        if is_other(moved, mark.sequence) && !waits(program, places, number, moved, mark.sequence) {
            return false;
        }
    }
    true
}

/// Whether a transfer has its send, its receive, and the waits of these communicators.
fn is_moved_by(
    program: &Program,
    places: &[Items<usize>],
    communicators: &[Mark],
    medium: usize,
    number: usize,
    moved: Crossing,
) -> bool
    requires table { places.now ≡ places_of program.now }
    requires made { moved ≡ crossing_by program.now number moved.sender moved.receiver }
    ensures { result ≡ (is_sent program.now medium number moved.sender moved.receiver &&
        is_received program.now medium number moved.sender moved.receiver &&
        list_all (other_waits program.now number moved.sender moved.receiver) communicators.now) }
{
    is_sent(program, medium, number, moved)
        && is_received(program, medium, number, moved)
        && all_wait(program, places, communicators, number, moved)
}

/// Whether a transfer has its send, its receive, and the waits of the other communicators.
fn is_moved(
    program: &Program,
    places: &[Items<usize>],
    communicators: &[Mark],
    medium: usize,
    number: usize,
    moved: Crossing,
) -> bool
    requires table { places.now ≡ places_of program.now }
    requires all { communicators.now ≡ communicators_of program.now medium }
    requires here { moved ≡ crossing program.now medium number }
    ensures { result ≡ is_moved program.now medium number }
{
    is_moved_by(program, places, communicators, medium, number, moved)
}

/// Whether this holds of each transfer of a medium.
fn are_moved_on(
    program: &Program,
    places: &[Items<usize>],
    communicators: &[Mark],
    medium: usize,
    found: &[Crossing],
) -> bool
    requires table { places.now ≡ places_of program.now }
    requires all { communicators.now ≡ communicators_of program.now medium }
    requires here { found.now ≡ crossings_on program.now medium }
    ensures { result ≡ all_below (λ t. is_moved program.now medium t) (transfers program.now medium) }
{
    for (number, moved) in found.iter().enumerate() {
        if !is_moved(program, places, communicators, medium, number, *moved) {
            return false;
        }
    }
    true
}

/// Whether this holds of each transfer.
fn are_moved(
    program: &Program,
    places: &[Items<usize>],
    communicators: &MarkTable,
    found: &[Items<Crossing>],
    media: usize,
) -> bool
    requires table { places.now ≡ places_of program.now }
    requires all { (m : ℕ) → m < media → row communicators.now m ≡ communicators_of program.now m }
    requires here { found.now ≡ crossings program.now media }
    ensures { result ≡ are_moved program.now media }
{
    for (medium, on_it) in found.iter().enumerate() {
        if !are_moved_on(
            program,
            places,
            communicators.of(medium),
            medium,
            on_it.as_slice(),
        ) {
            return false;
        }
    }
    true
}

/// Whether communications stand in communicators of this many media alone, each has one in each transfer of its
/// medium, and each transfer has one send, one receive and the waits of the others. The tables have the places
/// of the communications, the communicators of each medium and the transfers.
pub fn are_transferred(
    program: &Program,
    places: &[Items<usize>],
    communicators: &MarkTable,
    found: &[Items<Crossing>],
    media: usize,
) -> bool
    requires table { places.now ≡ places_of program.now }
    requires all { (m : ℕ) → m < media → row communicators.now m ≡ communicators_of program.now m }
    requires here { found.now ≡ crossings program.now media }
    ensures { result ≡ are_transferred program.now media }
{
    are_communicators(program)
        && are_on_media(program, media)
        && are_counted(program)
        && are_moved(program, places, communicators, found, media)
}
