//! Windows over the copies of values on operators: whether each act reads what is held when it
//! starts. `is_valid` checks one window after the other.
ghost use Rattle.std.specs.Prelude.{◌≡◌, ℕ, ◌<◌, ◌+◌, ◌&&◌, ◌++◌, ◌∷◌, List, None, Some, IsTrue, true, length, map, slice_index_or};
ghost use Rattle.std.specs.List.{list_all};
ghost use Rattle.durations.specs.declared.Vertex.{Vertex};
ghost use Rattle.schedule.specs.Acts.{Act, acts_of, carry, copy, outputs_from, run, sources_of};
ghost use Rattle.schedule.specs.Windows.{IsEmpty, are_fed, covers, is_by, is_in_time, is_new, lesser_date, noted, noted_all, place, window_places};

use crate::decision::{Decision, Transfer};
use durations::{Guard, Source, Vertex};

/// How many operations a table covers.
const OPERATIONS: u32 = 16;
/// The most outputs of an operation.
const MOST_OUTPUTS: u32 = 64;
/// The most operators.
const MOST_OPERATORS: u32 = 16;

/// From when on a copy is held, by its place.
type Held = [Option<u64>; 16384];

/// From when on the operators hold copies of the outputs of sixteen operations, of which the first has
/// this number. Each operation has at most 64 outputs, and there are at most 16 operators.
#[derive(Drop)]
pub(crate) struct Window {
    first: u32,
    held: Held,
}

impl Window {
    /// Nothing is held so far.
    pub fn new(first: u32) -> Window
        ensures { IsEmpty result first }
    {
        Window {
            first,
            held: nothing_held(),
        }
    }

    /// Whether these decisions, one after the other, read what is held by then, and bring what is not
    /// there, as far as copies of this window go.
    pub fn are_fed(&mut self, vertices: &[Vertex], decisions: &[Decision]) -> bool
        requires { length self.old.held ≡ window_places }
        ensures { result ≡ are_fed vertices.now self.old (acts_of decisions.now) }
    {
        for decision in decisions {
            if !self.take(vertices, decision) {
                return false;
            }
        }
        true
    }

    /// Takes a decision, where its acts read what is held by then and bring what is not there.
    fn take(&mut self, vertices: &[Vertex], decision: &Decision) -> bool
        requires { length self.old.held ≡ window_places }
        ensures size { length self.new.held ≡ window_places }
        ensures fed { (rest : List Act) → are_fed vertices.now self.old
            (map carry decision.now.transfers ++ run decision.now ∷ rest) ≡
            (result && are_fed vertices.now self.new rest) }
    {
        if !self.carry_all(decision.transfers.as_slice()) {
            return false;
        }
        self.run(vertices, decision)
    }

    /// Takes transfers one after the other, as long as each carries what is held by then and brings
    /// what is not there.
    fn carry_all(&mut self, transfers: &[Transfer]) -> bool
        requires { length self.old.held ≡ window_places }
        ensures size { length self.new.held ≡ window_places }
        ensures fed { (vertices : List Vertex) (rest : List Act) →
            are_fed vertices self.old (map carry transfers.now ++ rest) ≡
            (result && are_fed vertices self.new rest) }
    {
        for transfer in transfers {
            if !self.carry(*transfer) {
                return false;
            }
        }
        true
    }

    /// Takes a transfer, where its near operator holds the value when it starts, and its far
    /// operator does not have it.
    fn carry(&mut self, transfer: Transfer) -> bool
        requires { length self.old.held ≡ window_places }
        ensures size { length self.new.held ≡ window_places }
        ensures fed { result ≡ (is_new self.old (copy transfer.to transfer.source) &&
            (is_in_time self.old transfer.start (copy transfer.from transfer.source) && true)) }
        ensures noted { IsTrue result → self.new ≡ record {
          first = self.old.first;
          held = noted self.old.first self.old.held transfer.end
              (copy transfer.to transfer.source);
        } }
    {
        if !self.is_new(transfer.to, transfer.source) {
            return false;
        }
        if !self.is_in_time(transfer.start, transfer.from, transfer.source) {
            return false;
        }
        self.note(transfer.end, transfer.to, transfer.source);
        true
    }

    /// Takes a decision's operation, where what it reads is held when it starts. An operation that
    /// is not there reads and makes nothing.
    fn run(&mut self, vertices: &[Vertex], decision: &Decision) -> bool
        requires { length self.old.held ≡ window_places }
        ensures size { length self.new.held ≡ window_places }
        ensures fed { (rest : List Act) → are_fed vertices.now self.old (run decision.now ∷ rest) ≡
            (result && are_fed vertices.now self.new rest) }
    {
        let op = decision.op as usize;
        if op >= vertices.len() {
            return true;
        }
        let vertex = &vertices[op];
        if !self.reads(decision, vertex) {
            return false;
        }
        self.note_outputs(decision, vertex.outs.as_slice());
        true
    }

    /// Whether all that the operation reads is held on its operator when it starts.
    #[tactic(auto, using(crate::proofs::Starts::reads_by_parts))]
    fn reads(&self, decision: &Decision, vertex: &Vertex) -> bool
        requires { length self.now.held ≡ window_places }
        ensures { result ≡ list_all (is_in_time self.now decision.now.start)
            (map (copy decision.now.operator) (sources_of (Some vertex.now))) }
    {
        self.reads_guards(decision, vertex.guards.as_slice())
            && self.reads_inputs(decision, vertex.ins.as_slice())
    }

    /// Whether what these guards read is held on the decision's operator when it starts.
    fn reads_guards(&self, decision: &Decision, guards: &[Guard]) -> bool
        requires { length self.now.held ≡ window_places }
        ensures { result ≡ list_all (λ g. is_in_time self.now decision.now.start
            (copy decision.now.operator g.source)) guards.now }
    {
        guards.iter().all(|guard| self.is_in_time(decision.start, decision.operator, guard.source))
    }

    /// Whether these sources are held on the decision's operator when it starts.
    fn reads_inputs(&self, decision: &Decision, sources: &[Source]) -> bool
        requires { length self.now.held ≡ window_places }
        ensures { result ≡ list_all (λ x. is_in_time self.now decision.now.start
            (copy decision.now.operator x)) sources.now }
    {
        sources.iter().all(|source| self.is_in_time(decision.start, decision.operator, *source))
    }

    /// The operator holds the operation's outputs from its end on. The table has places for 64
    /// outputs, so no others are noted.
    fn note_outputs(&mut self, decision: &Decision, outs: &[u32])
        requires { length self.old.held ≡ window_places }
        ensures size { length self.new.held ≡ window_places }
        ensures noted { self.new ≡ record {
          first = self.old.first;
          held = noted_all self.old.first self.old.held decision.now.end
              (map (copy decision.now.operator) (outputs_from decision.now.op 0 outs.now));
        } }
    {
        for (port, _out) in outs.iter().enumerate() {
            if port < MOST_OUTPUTS as usize {
                let source = Source {
                    vertex: decision.op,
                    port: port as u32,
                };
                self.note(decision.end, decision.operator, source);
            }
        }
    }

    /// The copy is held from this date on, or from an earlier one.
    fn note(&mut self, date: u64, operator: u32, source: Source)
        requires { length self.old.held ≡ window_places }
        ensures size { length self.new.held ≡ window_places }
        ensures noted { self.new ≡ record {
          first = self.old.first;
          held = noted self.old.first self.old.held date (copy operator source);
        } }
    {
        if self.covers(operator, source) {
            let place = self.place(operator, source);
            let date = lesser(self.held[place], date);
            self.held[place] = Some(date);
        }
    }

    /// Whether the copy is not there so far. Of copies that the table does not cover, any may come.
    fn is_new(&self, operator: u32, source: Source) -> bool
        requires { length self.now.held ≡ window_places }
        ensures { result ≡ is_new self.now (copy operator source) }
    {
        !self.covers(operator, source) || self.held[self.place(operator, source)].is_none()
    }

    /// Whether the copy is held by this date. Of copies that the table does not cover, any may be
    /// read.
    fn is_in_time(&self, date: u64, operator: u32, source: Source) -> bool
        requires { length self.now.held ≡ window_places }
        ensures { result ≡ is_in_time self.now date (copy operator source) }
    {
        !self.covers(operator, source) || is_by(self.held[self.place(operator, source)], date)
    }

    /// Whether the table has a place for the copy.
    fn covers(&self, operator: u32, source: Source) -> bool
        ensures { result ≡ covers self.now.first (copy operator source) }
    {
        self.first <= source.vertex
            && source.vertex - self.first < OPERATIONS
            && source.port < MOST_OUTPUTS
            && operator < MOST_OPERATORS
    }

    /// The place of the copy in the table.
    fn place(&self, operator: u32, source: Source) -> usize
        requires { IsTrue (covers self.now.first (copy operator source)) }
        ensures place { result ≡ place self.now.first (copy operator source) }
        ensures within { result < window_places }
    {
        let output = (source.vertex - self.first) * MOST_OUTPUTS + source.port;
        (output * MOST_OPERATORS + operator) as usize
    }
}

/// A table in which no copy is held. It stands in a function of its own, whose clause says what
/// each place has.
#[tactic(auto, using(crate::proofs::Starts::no_entry))]
fn nothing_held() -> Held
    ensures size { length result ≡ window_places }
    ensures none { (i : ℕ) → slice_index_or result i None ≡ None }
{
    [None; 16384]
}

/// Whether there is a date, and it is no later than this one.
fn is_by(start: Option<u64>, date: u64) -> bool
    ensures { result ≡ is_by start date }
{
    match start {
        Some(start) => start <= date,
        None => false,
    }
}

/// The lesser of both dates, or the second one where the first is not there.
fn lesser(start: Option<u64>, date: u64) -> u64
    ensures { result ≡ lesser_date start date }
{
    match start {
        Some(start) => start.min(date),
        None => date,
    }
}
