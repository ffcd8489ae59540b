//! The board: what the decisions so far have done, by number. A placement and its arrivals are read
//! off it.
ghost use Rattle.std.specs.Prelude.{◌≡◌, ℕ, ◌<◌, ◌≤◌, ◌+◌, ◌*◌, ◌^◌, max, length, slice_index_or, None, All, IfOk};
ghost use Rattle.syn_base.specs.Limits.{most_operations};
ghost use Rattle.schedule.specs.FlatValid.{HasFewOutputs};
ghost use Rattle.schedule.specs.Acts.{copy};
ghost use Rattle.comm_routing.specs.Board.{Fits, FitsAll, HasOutput, HasPlace, HasRoute, HasWay, held_in, len_in, on_in, time_in};
ghost use Rattle.comm_routing.specs.Candidates.{is_placed_in};
ghost use Rattle.comm_routing.specs.Placing.{ticks_in};
ghost use Rattle.route_table.specs.Table.{route_in};
ghost use Rattle.comm_routing.specs.Tables.{after_operation, after_transfer, after_transfers, with_outputs};
ghost use Rattle.comm_routing.specs.Start.{IsStart, all_lens};
ghost use Rattle.comm_routing.specs.Walk.{fetch, fetch_all, pass, step, steps, walk};

use crate::start::{firsts, lens, no_dates, no_ends, no_places, zeros};
use route_table::Routes;
use schedule::{Decision, Hop, Medium, Source, Transfer, Vertex};
use std::alloc::Global;
use std::marker::Model;
use syn_base::OutOfMemory;

/// The ends of the media, by number.
pub(crate) type Ends = [u64; 16];

/// Copies and last ends after the decisions so far. Outputs are numbered operation by operation.
#[derive(Drop)]
pub struct Board {
    operators: u32,
    /// The number of each operation's first output.
    first: Vec<u32>,
    /// The length of each output.
    lens: Vec<u32>,
    /// By output and operator, from when on the value is held there.
    held: Vec<Option<u64>>,
    /// The operator of each operation that is placed.
    places: Vec<Option<u32>>,
    /// The end of each operation that is placed.
    ended: Vec<u64>,
    ends: Ends,
    /// The last end on each operator.
    busy: [u64; 16],
}

impl Model for Board {
    ghost use Rattle.comm_routing.specs.Board as specs;

    ghost Value = { specs.Board };

    ghost view = { λ s. record {
      operators = s.operators;
      first = s.first.items;
      lens = s.lens.items;
      held = s.held.items;
      places = s.places.items;
      ended = s.ended.items;
      ends = s.ends;
      busy = s.busy;
    } };
}

impl Board {
    /// Nothing is done so far.
    pub(crate) fn new(
        alloc: Global,
        vertices: &[Vertex],
        operators: u32,
    ) -> Result<Board, OutOfMemory>
        requires few { (length vertices.now ≤ most_operations) × (operators ≤ 16) }
        requires outputs { All HasFewOutputs vertices.now }
        ensures { IfOk result (IsStart vertices.now operators) }
    {
        let lens = lens(alloc, vertices)?;
        let places = held_places(vertices, &lens, operators);
        Ok(Board {
            operators,
            first: firsts(alloc, vertices)?,
            lens,
            held: no_dates(alloc, places)?,
            places: no_places(alloc, vertices.len())?,
            ended: zeros(alloc, vertices.len())?,
            ends: no_ends(),
            busy: no_ends(),
        })
    }

    /// From when on the operator holds the value, if it does.
    pub(crate) fn held(&self, source: Source, operator: u32) -> Option<u64>
        requires { HasPlace self.now (copy operator source) }
        ensures { result ≡ held_in self.now (copy operator source) }
    {
        self.held[self.output(source) * self.operators as usize + operator as usize]
    }

    /// The length of an output.
    fn len(&self, source: Source) -> u32
        requires { HasOutput self.now source }
        ensures { result ≡ len_in self.now source }
    {
        self.lens[self.output(source)]
    }

    /// The number of an output among those of all operations.
    fn output(&self, source: Source) -> usize
        requires { source.vertex < length self.now.first }
        ensures { result ≡ slice_index_or self.now.first source.vertex 0 + source.port }
    {
        self.first[source.vertex as usize] as usize + source.port as usize
    }

    /// The value is held where the transfer leads. It takes no memory.
    fn carry(&mut self, transfer: Transfer)
        requires place { HasPlace self.old (copy transfer.to transfer.source) }
        requires medium { transfer.medium < 16 }
        ensures { self.new ≡ after_transfer self.old transfer }
    {
        let place = self.output(transfer.source) * self.operators as usize + transfer.to as usize;
        self.held[place] = Some(transfer.end);
        self.ends[transfer.medium as usize] = transfer.end;
    }

    /// The operation is placed, and its operator holds its outputs. It takes no memory.
    pub(crate) fn run(&mut self, decision: &Decision, outs: &[u32])
        requires operation { (decision.now.op < length self.old.first) ×
            (decision.now.op < length self.old.places) × (decision.now.op < length self.old.ended) }
        requires operator { decision.now.operator < 16 }
        requires places { (j : ℕ) → j < length outs.now →
            (slice_index_or self.old.first decision.now.op 0 + j) * self.old.operators +
            decision.now.operator < length self.old.held }
        ensures { self.new ≡ after_operation self.old outs.now decision.now }
    {
        let op = decision.op as usize;
        let first = self.first[op];
        hold(
            &mut self.held,
            self.operators as usize,
            decision.operator as usize,
            first,
            outs,
            decision.end,
        );
        self.places[op] = Some(decision.operator);
        self.ended[op] = decision.end;
        self.busy[decision.operator as usize] = decision.end;
    }

    /// The last end on an operator.
    pub(crate) fn busy(&self, operator: u32) -> u64
        requires { operator < 16 }
        ensures { result ≡ slice_index_or self.now.busy operator 0 }
    {
        self.busy[operator as usize]
    }

    /// The end of an operation, 0 where it is not placed.
    pub(crate) fn end(&self, op: u32) -> u64
        ensures { result ≡ slice_index_or self.now.ended op 0 }
    {
        let op = op as usize;
        if op < self.ended.len() {
            self.ended[op]
        } else {
            0
        }
    }

    /// The last ends of the media.
    pub(crate) fn last_ends(&self) -> Ends
        ensures { result ≡ self.now.ends }
    {
        self.ends
    }

    /// Whether an operation is placed.
    pub(crate) fn is_placed(&self, op: usize) -> bool
        ensures { result ≡ is_placed_in self.now op }
    {
        op < self.places.len() && self.places[op].is_some()
    }

    /// The operator on which an operation is placed, 0 where it is not.
    pub(crate) fn on(&self, op: u32) -> u32
        ensures { result ≡ on_in self.now op }
    {
        let op = op as usize;
        if op >= self.places.len() {
            return 0;
        }
        match self.places[op] {
            Some(operator) => operator,
            None => 0,
        }
    }
}

/// How many places the table of held values has.
fn held_places(vertices: &[Vertex], lens: &[u32], operators: u32) -> usize
    requires few { (length vertices.now ≤ most_operations) × (operators ≤ 16) }
    requires outputs { All HasFewOutputs vertices.now }
    requires lens { lens.now ≡ all_lens vertices.now }
    ensures { result ≡ length lens.now * operators }
{
    lens.len() * operators as usize
}

/// Outputs from this one on are held on the operator from a date on.
fn hold(
    held: &mut Vec<Option<u64>>,
    operators: usize,
    operator: usize,
    first: u32,
    outs: &[u32],
    date: u64,
)
    requires places { (j : ℕ) → j < length outs.now → (first + j) * operators + operator < length held.old.items }
    ensures { held.new.items ≡ with_outputs operators operator first outs.now date held.old.items }
{
    let mut output = first as usize;
    for _out in outs {
        held[output * operators + operator] = Some(date);
        output += 1;
    }
}

/// The values are held where the transfers lead. It takes no memory.
pub(crate) fn carry_all(board: &mut Board, transfers: &[Transfer])
    requires places { All (λ c. HasPlace board.old (copy c.to c.source) × (c.medium < 16)) transfers.now }
    ensures { board.new ≡ after_transfers board.old transfers.now }
{
    for transfer in transfers {
        board.carry(*transfer);
    }
}

/// How long a medium carries the value.
fn time(board: &Board, medium: &Medium, source: Source) -> u64
    requires { HasOutput board.now source }
    ensures { result ≡ medium.now.fixed + len_in board.now source * medium.now.per }
{
    medium.fixed as u64 + board.len(source) as u64 * medium.per as u64
}

/// The value is carried over a medium, as soon as it is free.
fn over(
    board: &Board,
    media: &[Medium],
    number: u32,
    source: Source,
    ends: &mut Ends,
    date: u64,
) -> u64
    requires medium { (number < length media.now) × (length media.now ≤ 16) }
    requires output { HasOutput board.now source }
    requires fits { max (slice_index_or ends.old number 0) date + time_in media.now board.now number source < 2 ^ 64 }
    ensures { walk ends.new result ≡ pass (time_in media.now board.now) (held_in board.now) source
        number (walk ends.old date) }
{
    let number = number as usize;
    let end = ends[number].max(date) + time(board, &media[number], source);
    ends[number] = end;
    end
}

/// The date at which the value is at the end of the route, which it goes hop by hop.
fn date_along(
    board: &Board,
    media: &[Medium],
    source: Source,
    route: &[Hop],
    ends: &mut Ends,
    date: u64,
) -> u64
    requires few { length media.now ≤ 16 }
    requires output { HasOutput board.now source }
    requires route { HasRoute media.now board.now source route.now }
    requires fits { Fits media.now board.now source (walk ends.old date) route.now }
    ensures { walk ends.new result ≡ steps (time_in media.now board.now) (held_in board.now) source
        (walk ends.old date) route.now }
{
    let mut date = date;
    for hop in route {
        date = to_far(board, media, source, *hop, ends, date);
    }
    date
}

/// The date at which the value is at the far operator of a hop.
pub(crate) fn to_far(
    board: &Board,
    media: &[Medium],
    source: Source,
    hop: Hop,
    ends: &mut Ends,
    date: u64,
) -> u64
    requires medium { (hop.medium < length media.now) × (length media.now ≤ 16) }
    requires place { HasPlace board.now (copy hop.to source) }
    requires fits { max (slice_index_or ends.old hop.medium 0) date +
        time_in media.now board.now hop.medium source < 2 ^ 64 }
    ensures { walk ends.new result ≡ step (time_in media.now board.now) (held_in board.now) source
        (walk ends.old date) hop }
{
    match board.held(source, hop.to) {
        Some(date) => date,
        None => over(board, media, hop.medium, source, ends, date),
    }
}

/// The date at which the value is on the operator: from when on it is held there, or by the route from the
/// operator of its operation.
fn fetch_date(
    board: &Board,
    media: &[Medium],
    routes: &Routes,
    source: Source,
    operator: u32,
    ends: &mut Ends,
) -> u64
    requires few { length media.now ≤ 16 }
    requires operator { operator < routes.now.operators }
    requires way { HasWay media.now board.now (route_in routes.now) routes.now.operators operator source }
    requires fits { Fits media.now board.now source
        (walk ends.old (ticks_in (held_in board.now
        (copy (on_in board.now source.vertex) source))))
        (route_in routes.now (on_in board.now source.vertex) operator) }
    ensures { walk ends.new result ≡ fetch (time_in media.now board.now) (held_in board.now)
        (on_in board.now) (route_in routes.now) operator source ends.old }
{
    if let Some(date) = board.held(source, operator) {
        return date;
    }
    let from = board.on(source.vertex);
    let date = date_or_zero(board.held(source, from));
    date_along(
        board,
        media,
        source,
        routes.route(from, operator),
        ends,
        date,
    )
}

/// The date, or 0 where there is none.
pub(crate) fn date_or_zero(date: Option<u64>) -> u64
    ensures { result ≡ ticks_in date }
{
    match date {
        Some(date) => date,
        None => 0,
    }
}

/// The latest date at which these values would be held on the operator, if they were brought there one after
/// the other. It takes no memory.
pub(crate) fn arrival(
    board: &Board,
    media: &[Medium],
    routes: &Routes,
    sources: &[Source],
    operator: u32,
) -> u64
    requires few { length media.now ≤ 16 }
    requires operator { operator < routes.now.operators }
    requires ways { All (HasWay media.now board.now (route_in routes.now) routes.now.operators operator) sources.now }
    requires fits { FitsAll media.now board.now (route_in routes.now) operator sources.now (walk board.now.ends 0) }
    ensures { result ≡ (fetch_all (time_in media.now board.now) (held_in board.now)
        (on_in board.now) (route_in routes.now) operator sources.now (walk board.now.ends 0)).date }
{
    let mut ends = board.ends;
    let mut latest = 0;
    for source in sources {
        latest = fetch_date(board, media, routes, *source, operator, &mut ends).max(latest);
    }
    latest
}
