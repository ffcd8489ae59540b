//! The operators on which clusters stand.
use crate::clusters::Clusters;
use crate::filling::Filling;
use plan_costs::{NEVER, NOBODY, PLACES, Plan, Tables, date_at, number_at, put_date, put_number};
use std::alloc::Global;
use syn_base::OutOfMemory;

/// By cluster its operator.
#[derive(Drop)]
pub(crate) struct Homes<'a> {
    clusters: &'a Clusters,
    homes: Vec<u32>,
    /// By operator how long all clusters last that stand there.
    loads: [u64; PLACES],
    /// How many quarters of the time of what is carried to other clusters count as load.
    quarters: u64,
}

impl<'a> Homes<'a> {
    /// One cluster after another, each on the one of these operators that is then loaded least.
    pub fn new(
        alloc: Global,
        tables: &Tables,
        clusters: &'a Clusters,
        operators: &[u32],
        quarters: u64,
    ) -> Result<Homes<'a>, OutOfMemory> {
        let mut homes = Homes {
            clusters,
            homes: vec![in alloc; NOBODY; clusters.count()]?,
            loads: [0; PLACES],
            quarters,
        };
        let mut number = 0u32;
        for _cluster in 0..clusters.count() {
            homes.settle(tables, number, operators);
            number = number.saturating_add(1);
        }
        Ok(homes)
    }

    /// Gives a cluster the operator that is loaded least with it.
    fn settle(&mut self, tables: &Tables, number: u32, operators: &[u32]) {
        let mut least = NEVER;
        let mut home = NOBODY;
        for operator in operators {
            let load = self.load_with(tables, number, *operator);
            if load < least {
                least = load;
                home = *operator;
            }
        }
        put_number(self.homes.as_mut_slice(), number, home);
        let load = self.loaded(tables, number, home);
        put_date(&mut self.loads, home, load);
    }

    /// How long an operator is busy with a cluster and those before it.
    fn loaded(&self, tables: &Tables, number: u32, operator: u32) -> u64 {
        let mut load = date_at(&self.loads, operator);
        for op in self.clusters.of(number) {
            load = load.saturating_add(tables.stands.ticks(*op, operator));
        }
        load
    }

    /// The same with what is carried between the cluster and others that have an operator.
    fn load_with(&self, tables: &Tables, number: u32, operator: u32) -> u64 {
        let mut carried = 0u64;
        for op in self.clusters.of(number) {
            carried = carried
                .saturating_add(self.carried_to(tables, *op, operator))
                .saturating_add(self.carried_from(tables, *op, operator));
        }
        let carried = carried.saturating_mul(self.quarters) / 4;
        self.loaded(tables, number, operator)
            .saturating_add(carried)
    }

    /// How long what an operation on an operator reads is carried.
    fn carried_to(&self, tables: &Tables, op: u32, operator: u32) -> u64 {
        let mut carried = 0u64;
        for output in tables.links.reads.of(op) {
            let hops = self.hops(tables, tables.outputs.maker(*output), operator);
            carried = carried.saturating_add(
                tables.outputs.mean_time(*output).saturating_mul(hops),
            );
        }
        carried
    }

    /// How long the first output of an operation on an operator is carried to those that depend on it.
    fn carried_from(&self, tables: &Tables, op: u32, operator: u32) -> u64 {
        let time = tables.outputs.mean_time(tables.outputs.first(op));
        let mut carried = 0u64;
        for after in tables.links.after.of(op) {
            let hops = self.hops(tables, *after, operator);
            carried = carried.saturating_add(time.saturating_mul(hops));
        }
        carried
    }

    /// How many hops an operation, if it has an operator, is away from this one.
    fn hops(&self, tables: &Tables, op: u32, operator: u32) -> u64 {
        let home = self.home(op);
        if home == NOBODY {
            return 0;
        }
        tables.route(home, operator).len() as u64
    }

    /// The operator of an operation, or `NOBODY`.
    fn home(&self, op: u32) -> u32 {
        number_at(self.homes.as_slice(), self.clusters.number(op))
    }

    /// Fills a plan in the order of the clusters, each operation on the operator of its cluster.
    pub fn fill(&self, tables: &Tables, plan: &mut Plan) {
        plan.clear();
        let mut filling = Filling::new();
        for op in &self.clusters.order {
            if !tables.is_ready_made(*op) {
                filling.add(tables, plan, *op, self.home(*op));
            }
        }
    }
}
