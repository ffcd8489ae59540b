//! The end of a fabric, for `Fabric::close`: what its drivers have of their own is gathered.
ghost use Rattle.std.specs.Prelude.{◌≡◌, ◌<◌, ◌+◌, ◌%◌, ℕ, length, map, min, slice_index_or, sum};
ghost use Rattle.std.specs.Option.{ForSome};
ghost use Rattle.word_rule.specs.Held.{HasRow};
ghost use Rattle.word_rule.specs.Driven.{closed, last_number};
ghost use Rattle.word_table.specs.Closed.{IsClosedAt, EndsWhole};
ghost use Rattle.word_table.specs.Driver.{AreDrivers, counts_of};
ghost use Rattle.word_table.specs.Ends.{AreWide, FitsTo, Gathers, IsGathered, IsSameFabric, SeatHolds, TakesCells, TakesCounts, TakesRow, TakesRows, seat_with};
ghost use Rattle.word_table.specs.Parts.{AreDriverParts, AreFabricParts, fabric_view};

use crate::closed::Closed;
use crate::driven::Driven;
use crate::driver_parts::DriverParts;
use crate::fabric::{Driver, Fabric};
use crate::fabric_parts::FabricParts;
use crate::remains::Remains;
use executive_program::Kind;
use syn_base::{ActRows, Items};
use word_rule::{Job, WordSeat, WordTable, full_is_ended, put_row};

/// The counts of a group's sequences are taken over.
fn take_counts(counts: &mut Vec<u64>, others: &[u64], groups: u32, group: u32)
    requires some { 0 < groups }
    requires many { length others.now ≡ length counts.old.items }
    ensures { TakesCounts counts.old.items counts.new.items others.now groups group }
{
    for s in 0..counts.len() {
        if s % groups as usize == group as usize {
            counts[s] = others[s];
        }
    }
}

/// The cells of a group's delays are taken over.
fn take_cells(
    cells: &mut Vec<Items<i64>>,
    mut others: Vec<Vec<i64>>,
    owners: &[u32],
    groups: u32,
    group: u32,
)
    requires some { 0 < groups }
    requires many { length others.items ≡ length cells.old.items }
    ensures { TakesCells cells.old.items cells.new.items (map (λ c. c.items) others.items) owners.now groups group }
{
    while let Some(cell) = others.pop() {
        let d = others.len();
        if d < owners.len() && owners[d] % groups == group {
            cells[d] = Items::new(cell);
        }
    }
}

/// The rows of an actuator are taken over.
fn take_row(rows: &mut ActRows, others: &ActRows, actuator: usize)
    requires many { length others.now.reactions ≡ length rows.old.reactions }
    requires wide { AreWide rows.old }
    requires here { (actuator < length rows.old.lens) × (actuator < length others.now.lens) }
    requires len { slice_index_or others.now.lens actuator 0 ≡ slice_index_or rows.old.lens actuator 0 }
    ensures { TakesRow rows.old rows.new others.now actuator }
{
    for k in 0..rows.count() {
        put_row(rows, k, actuator, others.vector(k, actuator));
    }
}

/// The rows of a group's actuators are taken over.
fn take_rows(
    rows: &mut ActRows,
    others: &ActRows,
    job: &Job,
    callers: &[u32],
    groups: u32,
    group: u32,
)
    requires some { 0 < groups }
    requires many { length others.now.reactions ≡ length rows.old.reactions }
    requires wide { AreWide rows.old }
    requires callers { length callers.now ≡ length job.now.graph.vertices }
    requires laid { (v : ℕ) → HasRow job.now rows.old.lens v }
    requires others_laid { (v : ℕ) → slice_index_or callers.now v 0 % groups ≡ group →
        HasRow job.now others.now.lens v }
    ensures { TakesRows job.now rows.old rows.new others.now callers.now groups group }
{
    let vertices = job.flat().vertices();
    for v in 0..vertices.len() {
        if callers[v] % groups == group {
            if let Kind::Actuator(actuator) = &vertices[v].kind {
                take_row(rows, others, *actuator as usize);
            }
        }
    }
}

/// What a driver has of its own is taken over, and its seat is handed back.
fn gather<'a>(remains: &mut Remains, driver: DriverParts<'a>) -> WordSeat<'a>
    requires driver { AreDriverParts driver × (driver.group < driver.groups) }
    requires fits { FitsTo driver remains.old }
    ensures gathers { Gathers driver.entry remains.old remains.new }
    ensures seat { result ≡ driver.entry.seat }
{
    let DriverParts {
        seat,
        job,
        groups,
        group,
        counts,
        own,
    } = driver;
    take_counts(&mut remains.counts, counts.as_slice(), groups, group);
    let (cells, rows) = own.into_parts();
    take_cells(
        &mut remains.cells,
        cells,
        remains.cell_owners.as_slice(),
        groups,
        group,
    );
    take_rows(
        &mut remains.rows,
        &rows,
        job,
        remains.callers.as_slice(),
        groups,
        group,
    );
    seat
}

/// A seat that takes over what another one drives, if there is another.
fn join_seats<'a>(
    table: &WordTable<'a>,
    seat: Option<WordSeat<'a>>,
    other: WordSeat<'a>,
) -> WordSeat<'a>
    requires seat { ForSome seat (λ s. s.table ≡ table.now.table) }
    requires other { other.table ≡ table.now.table }
    ensures { result ≡ seat_with seat.entry other.entry }
{
    match seat {
        None => other,
        Some(mut seat) => {
            table.join(&mut seat, other);
            seat
        }
    }
}

/// What all drivers have of their own is gathered, and their seats are made one.
fn gather_all<'a>(
    fabric: &mut FabricParts<'a>,
    mut drivers: Vec<Driver<'a>>,
) -> Option<WordSeat<'a>>
    requires fabric { AreFabricParts fabric.old }
    requires drivers { AreDrivers (fabric_view fabric.old) drivers.items }
    ensures same { IsSameFabric fabric.old fabric.new }
    ensures gathered { IsGathered fabric.old.job.now fabric.old.groups 0
        (counts_of (fabric_view fabric.old) drivers.entry.items) fabric.new.remains }
    ensures seat { SeatHolds fabric.old.job.now fabric.old.table.table fabric.old.groups 0 result
        (counts_of (fabric_view fabric.old) drivers.entry.items) }
{
    let mut seat = None;
    while let Some(driver) = drivers.pop() {
        let mine = gather(&mut fabric.remains, driver.parts);
        seat = Some(join_seats(&fabric.table, seat, mine));
    }
    seat
}

/// The sum of a number and these counts, up to the last value of its type.
fn add_counts(number: u64, counts: &[u64]) -> u64
    ensures { result ≡ min (number + sum counts.now) last_number }
{
    let mut number = number;
    for count in counts {
        number = number.saturating_add(*count);
    }
    number
}

impl<'a> Fabric<'a> {
    /// Ends the fabric, of which these are all the drivers, by the numbers of their groups. The number of
    /// `driven` rises by the micro-steps that were made, and the counts and the words of this table take
    /// the place of those that it kept. It takes no memory.
    pub fn close(self, drivers: Vec<Driver<'a>>, driven: &mut Driven) -> Closed
        requires { AreDrivers self drivers.items }
        ensures driven { driven.new ≡ closed self.entry.job (counts_of self.entry drivers.entry.items) driven.old }
        ensures closed { IsClosedAt self.entry.job (counts_of self.entry drivers.entry.items) result }
        ensures ended { EndsWhole self.entry drivers.entry.items driven.old driven.new result }
    {
        full_is_ended();
        let mut fabric = self.parts;
        let seat = gather_all(&mut fabric, drivers);
        let FabricParts { table, remains, .. } = fabric;
        let Remains {
            counts,
            mut words,
            cells,
            rows,
            ..
        } = remains;
        let Some(seat) = seat else { unreachable!() };
        table.close(seat, counts.as_slice(), &mut words);
        driven.number = add_counts(driven.number, counts.as_slice());
        driven.counts = counts;
        driven.words = words;
        Closed {
            rows,
            cells: Items::new(cells),
        }
    }
}
