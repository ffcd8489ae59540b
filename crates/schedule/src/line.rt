//! The lines of a schedule: the acts of each operator and of each medium, one after another.
//! `is_valid` checks them first.
ghost use Rattle.std.specs.Prelude.{◌≡◌, ℕ, ◌<◌, ◌≤◌, ◌==◌, ◌&&◌, ◌+◌, ◌++◌, ◌∷◌, List, None, Some, IsTrue, length, map, slice_index_or, slice_set, is_some};
ghost use Rattle.std.specs.List.{list_all, range_with_len};
ghost use Rattle.syn_base.specs.Limits.{bound_of, most_operations};
ghost use Rattle.syn_base.specs.declared.limits.LimitKind.TheVariants.{Media, Operators};
ghost use Rattle.durations.specs.Archi.{stands_at};
ghost use Rattle.durations.specs.FlatValid.{is_number};
ghost use Rattle.schedule.specs.Acts.{Act, acts_of, carry, run};
ghost use Rattle.schedule.specs.Valid.{is_carried, lasts};
ghost use Rattle.schedule.specs.Lines.{IsSetting, IsStart, HasPlaces, are_in_line, are_all_placed, follows, may_carry, may_run, runs_in_time};

use crate::decision::{Decision, Transfer};
use crate::setting::Setting;
use durations::{Kind, Medium, Source, Vertex, len_of};

/// The operator of each operation that is placed, by number.
type Places = [Option<u32>; 2048];
/// A date for each operator, or for each medium.
type Dates = [u64; 16];

/// What the acts so far have left: the operator of each operation that is placed, and the last ends of
/// operators and media.
#[derive(Drop)]
pub(crate) struct Lines {
    places: Places,
    busy: Dates,
    ends: Dates,
}

impl Lines {
    /// No act was done so far.
    pub fn new() -> Lines
        ensures { IsStart result }
    {
        Lines {
            places: no_places(),
            busy: no_dates(),
            ends: no_dates(),
        }
    }

    /// Whether these decisions may follow, one after the other, and place each operation that is left.
    pub fn are_in_line(&mut self, setting: &Setting, decisions: &[Decision]) -> bool
        requires setting { IsSetting setting.now }
        requires sizes { HasPlaces self.old }
        ensures { result ≡ are_in_line setting.now self.old (acts_of decisions.now) }
    {
        for decision in decisions {
            if !self.take(setting, decision) {
                return false;
            }
        }
        self.are_all_placed(setting.vertices.len())
    }

    /// Takes a decision, where it may follow.
    fn take(&mut self, setting: &Setting, decision: &Decision) -> bool
        requires setting { IsSetting setting.now }
        requires sizes { HasPlaces self.old }
        ensures sizes { HasPlaces self.new }
        ensures follows { (rest : List Act) → are_in_line setting.now self.old
            (map carry decision.now.transfers ++ run decision.now ∷ rest) ≡
            (result && are_in_line setting.now self.new rest) }
    {
        if !self.carry_all(setting, decision.transfers.as_slice()) {
            return false;
        }
        if !self.may_run(setting, decision) {
            return false;
        }
        self.run(decision);
        true
    }

    /// Takes transfers one after the other, as long as each may follow.
    fn carry_all(&mut self, setting: &Setting, transfers: &[Transfer]) -> bool
        requires setting { IsSetting setting.now }
        requires sizes { HasPlaces self.old }
        ensures sizes { HasPlaces self.new }
        ensures follows { (rest : List Act) → are_in_line setting.now self.old
            (map carry transfers.now ++ rest) ≡ (result && are_in_line setting.now self.new rest) }
    {
        for transfer in transfers {
            if !self.may_carry(setting, *transfer) {
                return false;
            }
            self.carry(*transfer);
        }
        true
    }

    /// Takes a transfer: its medium is free from its end on.
    fn carry(&mut self, transfer: Transfer)
        requires { transfer.medium < length self.old.ends }
        ensures { self.new ≡ record {
          places = self.old.places;
          busy = self.old.busy;
          ends = slice_set self.old.ends transfer.medium transfer.end;
        } }
    {
        self.ends[transfer.medium as usize] = transfer.end;
    }

    /// Takes a decision's operation: it is placed, and its operator is free from its end on.
    fn run(&mut self, decision: &Decision)
        requires { (decision.now.op < length self.old.places) × (decision.now.operator < length self.old.busy) }
        ensures { self.new ≡ record {
          places = slice_set self.old.places decision.now.op
              (Some decision.now.operator);
          busy = slice_set self.old.busy decision.now.operator
              decision.now.end;
          ends = self.old.ends;
        } }
    {
        self.places[decision.op as usize] = Some(decision.operator);
        self.busy[decision.operator as usize] = decision.end;
    }

    /// Whether the transfer carries a value over its medium in its time, when the medium is free.
    fn may_carry(&self, setting: &Setting, transfer: Transfer) -> bool
        requires sizes { HasPlaces self.now }
        requires few { length setting.now.media.now ≤ bound_of Media }
        ensures may { result ≡ may_carry setting.now self.now transfer }
        ensures medium { IsTrue result → transfer.medium < bound_of Media }
    {
        let len = len_of(setting.vertices, transfer.source);
        if len < 1 {
            return false;
        }
        let medium = transfer.medium as usize;
        if medium >= setting.media.len() {
            return false;
        }
        is_carried(&setting.media[medium], len, transfer) && self.ends[medium] <= transfer.start
    }

    /// Whether the operation is there and may run: not placed before, in its time, beside its get
    /// half.
    fn may_run(&self, setting: &Setting, decision: &Decision) -> bool
        requires setting { IsSetting setting.now }
        requires sizes { HasPlaces self.now }
        ensures may { result ≡ may_run setting.now self.now decision.now }
        ensures places { IsTrue result →
            (decision.now.op < most_operations) × (decision.now.operator < bound_of Operators) }
    {
        let op = decision.op as usize;
        if op >= setting.vertices.len() {
            return false;
        }
        let vertex = &setting.vertices[op];
        self.follows(decision.operator, &vertex.kind, vertex.twin)
            && self.runs_in_time(setting, decision)
    }

    /// Whether the operation was not placed before, and runs on its operator for its time when the
    /// operator is free.
    fn runs_in_time(&self, setting: &Setting, decision: &Decision) -> bool
        requires setting { IsSetting setting.now }
        requires sizes { HasPlaces self.now }
        requires operation { decision.now.op < length setting.now.vertices.now }
        ensures may { result ≡ runs_in_time setting.now self.now decision.now }
        ensures operator { IsTrue result → decision.now.operator < bound_of Operators }
    {
        let operator = decision.operator as usize;
        if operator >= setting.operators {
            return false;
        }
        let ticks = setting.durations.ticks(decision.op, decision.operator);
        lasts(ticks, decision.start, decision.end)
            && self.places[decision.op as usize].is_none()
            && self.busy[operator] <= decision.start
    }

    /// Whether the get half runs on the operator, where the operation is the set half.
    fn follows(&self, operator: u32, kind: &Kind, twin: Option<u32>) -> bool
        requires { HasPlaces self.now }
        ensures { result ≡ follows self.now operator kind.now twin }
    {
        match kind {
            Kind::Set => match twin {
                Some(twin) => self.stands_on(twin, operator),
                None => true,
            },
            _ => true,
        }
    }

    /// Whether the operation is placed on this operator.
    fn stands_on(&self, op: u32, operator: u32) -> bool
        requires { HasPlaces self.now }
        ensures { result ≡ is_number (slice_index_or self.now.places op None) operator }
    {
        let op = op as usize;
        if op >= self.places.len() {
            return false;
        }
        match self.places[op] {
            Some(place) => place == operator,
            None => false,
        }
    }

    /// Whether each of this many operations is placed.
    fn are_all_placed(&self, operations: usize) -> bool
        requires few { operations ≤ most_operations }
        requires sizes { HasPlaces self.now }
        ensures { result ≡
            list_all (λ v. is_some (slice_index_or self.now.places v None)) (range_with_len 0 operations) }
    {
        (0..operations).all(|op| self.is_placed(op))
    }

    /// Whether the operation is placed.
    fn is_placed(&self, op: usize) -> bool
        requires { HasPlaces self.now }
        ensures { result ≡ is_some (slice_index_or self.now.places op None) }
    {
        op < self.places.len() && self.places[op].is_some()
    }
}

/// A table in which no operation is placed. It stands in a function of its own, whose clause says
/// what each place has.
#[tactic(auto, using(crate::proofs::Starts::no_entry))]
fn no_places() -> Places
    ensures size { length result ≡ most_operations }
    ensures none { (v : ℕ) → slice_index_or result v None ≡ None }
{
    [None; 2048]
}

/// A table in which nothing has ended.
fn no_dates() -> Dates
    ensures size { length result ≡ bound_of Operators }
    ensures none { (o : ℕ) → slice_index_or result o 0 ≡ 0 }
{
    [0; 16]
}

/// Whether the medium joins both operators, and carries this many elements in this time.
fn is_carried(medium: &Medium, len: u32, transfer: Transfer) -> bool
    ensures { result ≡ is_carried (Some medium.now) len transfer }
{
    let time = u64::from(medium.fixed) + u64::from(len) * u64::from(medium.per);
    stands_at(medium, transfer.from)
        && stands_at(medium, transfer.to)
        && takes(transfer.start, transfer.end, time)
}

/// Whether the operator stands at the medium.
fn stands_at(medium: &Medium, operator: u32) -> bool
    ensures { result ≡ stands_at medium.now operator }
{
    medium
        .stands
        .as_slice()
        .iter()
        .any(|stand| operator == *stand)
}

/// Whether it lasts as long as the entry says.
fn lasts(ticks: Option<u64>, start: u64, end: u64) -> bool
    ensures { result ≡ lasts ticks start end }
{
    match ticks {
        Some(ticks) => takes(start, end, ticks),
        None => false,
    }
}

/// Whether exactly this many ticks lie between both dates.
fn takes(start: u64, end: u64, ticks: u64) -> bool
    ensures { result ≡ (end == start + ticks) }
{
    start <= end && end - start == ticks
}
