//! The check that the sequences of a program are those of an architecture, in order.
ghost use Rattle.std.specs.Prelude.{◌≡◌, ◌<◌, length, true};
ghost use Rattle.std.specs.List.{flat_map, range_with_len};
ghost use Rattle.program_walks.specs.Walks.{passed};
ghost use Rattle.order_check.specs.Sequenced.{are_sequences, is_sequence};
ghost use Rattle.executive_program.specs.Archi.{stands_at};
ghost use Rattle.executive_program.specs.Sequences.{communicators, sequences_of};
ghost use Rattle.executive_program.specs.Instructions.{same_medium};

use executive_program::{Medium, SeqCode};

/// Whether an operator stands at a medium.
fn stands_at(medium: &Medium, operator: usize) -> bool
    ensures { result ≡ stands_at medium.now operator }
{
    medium
        .stands
        .as_slice()
        .iter()
        .any(|stand| operator == *stand as usize)
}

/// Whether a sequence is at this medium, or at none where this is none.
fn is_same_medium(found: Option<u32>, medium: Option<usize>) -> bool
    ensures { result ≡ same_medium found medium }
{
    match (found, medium) {
        (None, None) => true,
        (Some(found), Some(medium)) => found as usize == medium,
        _ => false,
    }
}

/// Whether there is a sequence of this number, and it is that of an operator at a medium, or the operator's
/// computation sequence.
fn is_sequence(seqs: &[SeqCode], number: usize, operator: usize, medium: Option<usize>) -> bool
    ensures within { result ≡ true → number < length seqs.now }
    ensures right { result ≡ is_sequence seqs.now number (record { operator = operator; medium = medium }) }
{
    number < seqs.len()
        && seqs[number].seq.operator as usize == operator
        && is_same_medium(seqs[number].seq.medium, medium)
}

/// The number after an operator's communicators, if they are the sequences from `first` on.
fn after_communicators(
    seqs: &[SeqCode],
    first: usize,
    operator: usize,
    media: &[Medium],
) -> Option<usize>
    ensures { result ≡ passed (is_sequence seqs.now) first (communicators operator 0 media.now) }
{
    let mut next = first;
    for (number, medium) in media.iter().enumerate() {
        if stands_at(medium, operator) {
            if !is_sequence(seqs, next, operator, Some(number)) {
                return None;
            }
            next += 1;
        }
    }
    Some(next)
}

/// The number after an operator's sequences, if they are the sequences from `first` on.
fn after_sequences(
    seqs: &[SeqCode],
    first: usize,
    operator: usize,
    media: &[Medium],
) -> Option<usize>
    ensures { result ≡ passed (is_sequence seqs.now) first (sequences_of media.now operator) }
{
    if !is_sequence(seqs, first, operator, None) {
        return None;
    }
    after_communicators(seqs, first + 1, operator, media)
}

/// Whether these are the sequences of this many operators at these media, in order.
pub fn are_sequences(seqs: &[SeqCode], operators: usize, media: &[Medium]) -> bool
    ensures { result ≡ are_sequences seqs.now (flat_map (sequences_of media.now) (range_with_len 0 operators)) }
{
    let mut next = 0;
    for operator in 0..operators {
        match after_sequences(seqs, next, operator, media) {
            Some(after) => next = after,
            None => return false,
        }
    }
    seqs.len() == next
}
