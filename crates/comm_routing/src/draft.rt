//! The draft: the decisions so far, with the tables that tell of them. `pressure_heuristic` places
//! one operation after another by it.
use crate::placing::start;
use crate::progress::{Progress, arrival_next, begin, find_next, may_place_next, place_next};
use crate::reads::all_reads;
use crate::site::Site;
use route_table::Routes;
use schedule::{Archi, Decision, Durations, Flat, Schedule, Source};
use std::alloc::Global;
use std::marker::Model;
use syn_base::{Items, OutOfMemory};

/// The decisions so far, on a flat graph and an architecture with its routes, where operations last so
/// long. Operations and operators are numbered from 0. It keeps the candidates and their arrivals.
/// Contracts see these four parts and the decisions.
#[derive(Drop)]
pub struct Draft<'a> {
    alloc: Global,
    site: Site<'a>,
    reads: Vec<Items<Source>>,
    progress: Progress,
}

impl<'a> Model for Draft<'a> {
    ghost use Rattle.std.specs.Coded.{codes};
    ghost use Rattle.schedule.specs.BodyCode.{expr_code};
    ghost use Rattle.schedule.specs.Graph.{graph_code};
    ghost use Rattle.comm_routing.specs.Draft.{Drafted, Keeps, draft_code, drafted};

    ghost Value = { Drafted };

    ghost coded = { draft_code (graph_code (Prim.hlevel codes) (expr_code (Prim.hlevel codes))) (Prim.hlevel codes)
        (Prim.hlevel codes) (Prim.hlevel codes) (Prim.hlevel codes) };

    ghost view = { λ s. drafted s.site s.progress.decisions.items };

    ghost invariant = { λ s. Keeps (drafted s.site s.progress.decisions.items) s.progress.board s.reads.items
        s.progress.candidates };
}

impl<'a> Draft<'a> {
    ghost use Rattle.std.specs.Prelude.{◌≡◌, ◌^◌, ◌<◌, [], IfOk, IsTrue, OnErr, OnOk, length};
    ghost use Rattle.std.specs.List.{filter, range_with_len};
    ghost use Rattle.route_table.specs.Table.{IsTableOf};
    ghost use Rattle.schedule.specs.Fitting.{IsOf};
    ghost use Rattle.schedule.specs.Acts.{acts_of};
    ghost use Rattle.comm_routing.specs.Placing.{arrival, is_candidate, may_place, start};
    ghost use Rattle.comm_routing.specs.Draft.{after_placing, task_of};

    /// Nothing is decided so far. The durations are those of the flat graph and the architecture, and the
    /// routes are the architecture's.
    pub fn new(
        alloc: Global,
        flat: &'a Flat,
        archi: &'a Archi,
        durations: &'a Durations,
        routes: &'a Routes,
    ) -> Result<Draft<'a>, OutOfMemory>
        requires fits { IsOf flat.now archi.now durations.now }
        requires routes { IsTableOf archi.now routes.now }
        ensures { IfOk result (λ d. d ≡ record {
          graph = flat.now;
          archi = archi.now;
          routes = routes.now;
          durations = durations.now;
          decisions = [];
        }) }
    {
        let site = Site {
            flat,
            archi,
            routes,
            durations,
        };
        // The proof takes from the first call that the architecture is valid, and from the second that
        // each operation may stand on some operator, and a set half wherever its get half may.
        let _operators = archi.operators();
        let _operations = durations.operations();
        let reads = all_reads(alloc, flat.vertices())?;
        let progress = begin(alloc, &site, reads.as_slice())?;
        Ok(Draft {
            alloc,
            site,
            reads,
            progress,
        })
    }

    /// Whether the operation is a candidate and may stand on the operator. It takes no memory.
    pub fn may_place(&self, op: u32, operator: u32) -> bool
        ensures { result ≡ may_place (task_of self.now) (acts_of self.now.decisions) op operator }
    {
        may_place_next(&self.site, &self.progress, op, operator)
    }

    /// The candidates, ascending. It takes no memory.
    pub fn ready(&self) -> &[u32]
        ensures { result.now ≡ filter (is_candidate (task_of self.now)
            (acts_of self.now.decisions)) (range_with_len 0 (length self.now.graph.vertices)) }
    {
        self.progress.candidates.ready.as_slice()
    }

    /// The greatest date at which the sources of a candidate would be held on the operator, if it were
    /// placed there now; 0 without sources. It takes no memory.
    pub fn arrival(&self, op: u32, operator: u32) -> u64
        requires { IsTrue (may_place (task_of self.now) (acts_of self.now.decisions) op operator) }
        ensures { result ≡ arrival (task_of self.now) (acts_of self.now.decisions) op operator }
    {
        arrival_next(
            &self.site,
            self.reads.as_slice(),
            &self.progress,
            op,
            operator,
        )
    }

    /// Finds the arrival of a candidate on the operator and keeps it, so that `arrival` and `try_place`
    /// need not find it again while nothing is carried. It takes no memory.
    pub fn find(&mut self, op: u32, operator: u32)
        requires { IsTrue (may_place (task_of self.old) (acts_of self.old.decisions) op operator) }
        ensures { self.new ≡ self.old }
    {
        find_next(
            &self.site,
            self.reads.as_slice(),
            op,
            operator,
            &mut self.progress,
        );
    }

    /// The start that a candidate would have on the operator: the greatest of its arrival, the
    /// operator's last end and, for a set half, the end of its get half. It takes no memory.
    pub fn try_place(&self, op: u32, operator: u32) -> u64
        requires { IsTrue (may_place (task_of self.now) (acts_of self.now.decisions) op operator) }
        ensures start { result ≡ start (task_of self.now) (acts_of self.now.decisions) op operator }
        ensures low { result < 2 ^ 62 }
    {
        let arrival = self.arrival(op, operator);
        let vertex = &self.site.flat.vertices()[op as usize];
        start(
            &self.progress.board,
            arrival,
            operator,
            &vertex.kind,
            vertex.twin,
        )
    }

    /// Adds the decision that places the operation on the operator, with its transfers. After a refusal
    /// all is as before.
    pub fn place(&mut self, op: u32, operator: u32) -> Result<(), OutOfMemory>
        requires { IsTrue (may_place (task_of self.old) (acts_of self.old.decisions) op operator) }
        ensures placed { OnOk result (self.new ≡ after_placing self.old op operator) }
        ensures refused { OnErr result (self.new ≡ self.old) }
    {
        place_next(
            self.alloc,
            &self.site,
            self.reads.as_slice(),
            op,
            operator,
            &mut self.progress,
        )
    }

    /// The decisions so far.
    pub fn decisions(&self) -> &[Decision]
        ensures { result.now ≡ self.now.decisions }
    {
        self.progress.decisions.as_slice()
    }

    /// Hands out the decisions so far.
    pub fn finish(self) -> Schedule
        ensures { result.decisions ≡ self.entry.decisions }
    {
        let progress = self.progress;
        Schedule {
            decisions: Items::new(progress.decisions),
        }
    }
}
