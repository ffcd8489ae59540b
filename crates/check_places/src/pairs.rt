//! Where pairs of semaphores are wrong.
ghost use Rattle.std.specs.Prelude.{◌≡◌, ◌<◌, ◌&&◌, nat_eq, nat_lt, not, length, slice_get, None};
ghost use Rattle.std.specs.List.{list_all};
ghost use Rattle.program_walks.specs.Pairs.{has_operator};
ghost use Rattle.sequence_build_laws.specs.WellFormed.{operator_of};
ghost use Rattle.sequence_build_laws.specs.Places.{written_at, writer_of};
ghost use Rattle.program_tables.specs.declared.roles.Role.TheVariants.{Read};
ghost use Rattle.program_tables.specs.Marks.{first_at, marks_of};
ghost use Rattle.program_walks.specs.Walks.{implies};
ghost use Rattle.macro_check.specs.Tabled.{AreTables};
ghost use Rattle.check_places.specs.declared.place.Rule.TheVariants.{FurtherPair};
ghost use Rattle.check_places.specs.declared.place.Subject.TheVariants.{Pair};
ghost use Rattle.check_places.specs.First.{broken, first_failing, first_from, unless};
ghost use Rattle.program_tables.specs.declared.readings.Reading.{Reading};
ghost use Rattle.program_tables.specs.Readings.{ArePairs, readings};
ghost use Rattle.check_places.specs.Pairs.{declared_place, is_signalled_after, is_signalled_last, is_taken_before, is_taken_first, pair_place, pairs_place, reader_place, spot_in, writer_place};

use crate::first::{broken, first_of, in_loop, unless};
use crate::place::{Place, Rule, Spot, Subject};
use macro_check::Tables;
use program_tables::{Mark, PairTables, Reading, Write, first_at, is_lone, write_of};
use sequence_build_laws::Program;

/// Whether a pair and a buffer are there and belong to the same operator.
fn has_operator(program: &Program, pair: usize, buffer: usize) -> bool
    ensures { result ≡ has_operator (slice_get program.now.pairs pair) (operator_of program.now buffer) }
{
    match (
        program.pairs.as_slice().get(pair),
        program.buffers.as_slice().get(buffer),
    ) {
        (Some(operator), Some(found)) => *operator == found.operator,
        _ => false,
    }
}

/// Whether these places are one instruction of a sequence, which stands before another one of it.
fn is_taken_before(sequence: usize, at: usize, takes: &[Mark]) -> bool
    ensures { result ≡ is_taken_before sequence at takes.now }
{
    is_lone(takes, sequence) && first_at(takes) < at
}

/// Whether these places are one instruction of a sequence, which stands after another one of it.
fn is_signalled_after(sequence: usize, at: usize, signals: &[Mark]) -> bool
    ensures { result ≡ is_signalled_after sequence at signals.now }
{
    is_lone(signals, sequence) && at < first_at(signals)
}

/// Whether those of these reads that are in a sequence stand after a place of it.
fn are_after(sequence: usize, at: usize, reads: &[Mark]) -> bool
    ensures { result ≡ list_all (λ m. implies (nat_eq m.sequence sequence) (nat_lt at m.at)) reads.now }
{
    reads
        .iter()
        .all(|mark| mark.sequence != sequence || at < mark.at)
}

/// Whether those of these reads that are in a sequence stand before a place of it.
fn are_before(sequence: usize, at: usize, reads: &[Mark]) -> bool
    ensures { result ≡ list_all (λ m. implies (nat_eq m.sequence sequence) (nat_lt m.at at)) reads.now }
{
    reads
        .iter()
        .all(|mark| mark.sequence != sequence || mark.at < at)
}

/// Whether these places are one instruction of a sequence, which stands before its reads among those.
fn is_taken_first(sequence: usize, reads: &[Mark], takes: &[Mark]) -> bool
    ensures { result ≡ is_taken_first sequence reads.now takes.now }
{
    is_lone(takes, sequence) && are_after(sequence, first_at(takes), reads)
}

/// Whether these places are one instruction of a sequence, which stands after its reads among those.
fn is_signalled_last(sequence: usize, reads: &[Mark], signals: &[Mark]) -> bool
    ensures { result ≡ is_signalled_last sequence reads.now signals.now }
{
    is_lone(signals, sequence) && are_before(sequence, first_at(signals), reads)
}

/// The first of these places that is in a sequence.
fn first_in(sequence: usize, marks: &[Mark]) -> Option<Mark>
    ensures { result ≡ first_failing (λ m. not (nat_eq m.sequence sequence)) marks.now }
{
    for mark in marks {
        if mark.sequence == sequence {
            return Some(*mark);
        }
    }
    None
}

/// The first of these places that is in a sequence, as an instruction.
fn spot_in(sequence: usize, marks: &[Mark]) -> Option<Spot>
    ensures { result ≡ spot_in sequence marks.now }
{
    match first_in(sequence, marks) {
        Some(mark) => in_loop(mark.sequence, mark.at),
        None => None,
    }
}

/// Whether a pair is there and on the operator of its buffer, or where it is not.
fn declared_place(
    program: &Program,
    pair: usize,
    reading: Reading,
    read: Option<Spot>,
) -> Option<Place>
    ensures { result ≡ declared_place program.now pair reading.buffer read }
{
    let subject = Subject::Pair(pair);
    first_of(
        unless(
            pair < program.pairs.as_slice().len(),
            broken(Rule::MissingPair, subject, read),
        ),
        unless(
            has_operator(program, pair, reading.buffer),
            broken(Rule::PairElsewhere, subject, read),
        ),
    )
}

/// Where the writer's semaphores of a pair are wrong: taken once before the write, signalled once after it.
fn writer_place(program: &Program, tables: &PairTables, pair: usize, write: Write) -> Option<Place>
    requires tables { ArePairs program.now tables.now }
    requires within { pair < length program.now.pairs }
    ensures { result ≡ writer_place program.now pair write.writer write.at }
{
    let subject = Subject::Pair(pair);
    let spot = in_loop(write.writer, write.at);
    first_of(
        unless(
            is_taken_before(write.writer, write.at, tables.empty_taken.of(pair)),
            broken(Rule::EmptyNotTaken, subject, spot),
        ),
        unless(
            is_signalled_after(write.writer, write.at, tables.full_signalled.of(pair)),
            broken(Rule::FullNotSignalled, subject, spot),
        ),
    )
}

/// Where the reader's semaphores of a pair are wrong: taken once before its reads, signalled once after them.
fn reader_place(
    program: &Program,
    tables: &PairTables,
    pair: usize,
    sequence: usize,
    reads: &[Mark],
    read: Option<Spot>,
) -> Option<Place>
    requires tables { ArePairs program.now tables.now }
    requires within { pair < length program.now.pairs }
    ensures { result ≡ reader_place program.now pair sequence reads.now read }
{
    let subject = Subject::Pair(pair);
    first_of(
        unless(
            is_taken_first(sequence, reads, tables.full_taken.of(pair)),
            broken(Rule::FullNotTaken, subject, read),
        ),
        unless(
            is_signalled_last(sequence, reads, tables.empty_signalled.of(pair)),
            broken(Rule::EmptyNotSignalled, subject, read),
        ),
    )
}

/// Where the pair of a buffer and a sequence that reads it is wrong.
fn pair_place(program: &Program, tables: &Tables, pair: usize, reading: Reading) -> Option<Place>
    requires tables { AreTables program.now tables.now }
    requires within { reading.buffer < length program.now.buffers }
    ensures { result ≡ pair_place program.now pair
        (record { buffer = reading.buffer; sequence = reading.sequence }) }
{
    let reads = tables.reads.of(reading.buffer);
    let read = spot_in(reading.sequence, reads);
    let undeclared = declared_place(program, pair, reading, read);
    if undeclared.is_some() {
        return undeclared;
    }
    let write = write_of(program, reading.buffer, tables.writes.of(reading.buffer));
    first_of(
        writer_place(program, &tables.pairs, pair, write),
        reader_place(program, &tables.pairs, pair, reading.sequence, reads, read),
    )
}

/// The first pair of these buffers and readers that is wrong.
fn first_pair(program: &Program, tables: &Tables, found: &[Reading]) -> Option<Place>
    requires tables { AreTables program.now tables.now }
    requires all { found.now ≡ readings program.now }
    ensures { result ≡ first_from (λ q (r : Reading). pair_place program.now q
        (record { buffer = r.buffer; sequence = r.sequence })) 0 found.now }
{
    for (pair, reading) in found.iter().enumerate() {
        if let Some(place) = pair_place(program, tables, pair, *reading) {
            return Some(place);
        }
    }
    None
}

/// The pair of this number, which is one too many where it is there.
fn further_place(program: &Program, pair: usize) -> Option<Place>
    ensures { result ≡ unless (not (nat_lt pair (length program.now.pairs)))
        (broken FurtherPair (Pair pair) None) }
{
    unless(
        pair >= program.pairs.as_slice().len(),
        broken(Rule::FurtherPair, Subject::Pair(pair), None),
    )
}

/// The first pair that does not guard its buffer for its reader, or else the first that is too many.
pub fn pairs_place(program: &Program, tables: &Tables) -> Option<Place>
    requires { AreTables program.now tables.now }
    ensures { result ≡ pairs_place program.now }
{
    let count = tables.readings.as_slice().len();
    first_of(
        first_pair(program, tables, tables.readings.as_slice()),
        further_place(program, count),
    )
}
