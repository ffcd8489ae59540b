//! The table of routes, which `comm_routing` carries values along.
ghost use Rattle.std.specs.Prelude.{◌≡◌, ℕ, ◌+◌, ◌*◌, ◌<◌, ◌≤◌, ◌≢◌, ◌⊎◌, [], All, length, slice_index_or, IfOk};
ghost use Rattle.syn_base.specs.Limits.{bound_of};
ghost use Rattle.syn_base.specs.declared.limits.LimitKind.TheVariants.{Operators};
ghost use Rattle.route_table.specs.Table.{RouteTable, level_in, most_hops, route_in};
ghost use Rattle.route_table.specs.Search.{is_at, is_known};

use archi_graph::Hop;
use std::alloc::Global;
use std::marker::Model;
use syn_base::{Items, OutOfMemory};

/// The least route between each two operators. Operators are numbered from 0, as in the
/// architecture. Contracts see a `RouteTable`: how many operators there are, and the routes.
#[derive(Drop)]
pub struct Routes {
    operators: u32,
    routes: Vec<Items<Hop>>,
}

impl Model for Routes {
    ghost use Rattle.std.specs.Prelude.{◌≡◌, ◌*◌, ◌≤◌, All, length};
    ghost use Rattle.syn_base.specs.Limits.{bound_of};
    ghost use Rattle.syn_base.specs.declared.limits.LimitKind.TheVariants.{Operators};
    ghost use Rattle.route_table.specs.Table.{RouteTable, most_hops};

    ghost Value = { RouteTable };

    ghost view = { λ s. record { operators = s.operators; routes = s.routes.items } };

    ghost invariant = { λ s. (s.operators ≤ bound_of Operators) × (length s.routes.items ≡ s.operators * s.operators) ×
        All (λ r. length r ≤ most_hops) s.routes.items };
}

impl Routes {
    /// The least route from one operator to the other: the fewest hops, then the least list of media,
    /// then the least list of operators. From an operator to itself it has no hop.
    pub fn route(&self, from: u32, to: u32) -> &[Hop]
        requires { (from < self.now.operators) × (to < self.now.operators) }
        ensures { result.now ≡ route_in self.now from to }
    {
        self.routes[place(self.operators, from, to)].as_slice()
    }

    /// The level of the second operator, seen from the first one: how many hops the least route to it
    /// has, 0 from an operator to itself. The levels certify the table: each medium changes a level by at
    /// most one.
    pub fn level(&self, from: u32, to: u32) -> u32
        requires { (from < self.now.operators) × (to < self.now.operators) }
        ensures { result ≡ level_in self.now from to }
    {
        self.routes[place(self.operators, from, to)]
            .as_slice()
            .len() as u32
    }

    /// A table of this many operators in which only the routes from operators to themselves are there.
    pub(crate) fn new(alloc: Global, operators: u32) -> Result<Routes, OutOfMemory>
        requires { operators ≤ bound_of Operators }
        ensures { IfOk result (λ t. (t.operators ≡ operators) ×
            (length t.routes ≡ operators * operators) × ((from to : ℕ) → route_in t from to ≡ [])) }
    {
        Ok(Routes {
            operators,
            routes: empty_routes(alloc, operators * operators)?,
        })
    }

    /// Whether the route is there. It takes no memory.
    pub(crate) fn is_known(&self, from: u32, to: u32) -> bool
        requires { (from < self.now.operators) × (to < self.now.operators) }
        ensures { result ≡ is_known self.now from to }
    {
        from == to || self.level(from, to) > 0
    }

    /// Whether the route is there and has this many hops. It takes no memory.
    pub(crate) fn is_at(&self, hops: u32, from: u32, to: u32) -> bool
        requires { (from < self.now.operators) × (to < self.now.operators) }
        ensures { result ≡ is_at self.now hops from to }
    {
        self.is_known(from, to) && self.level(from, to) == hops
    }

    /// Puts a route in its place. It takes no memory.
    pub(crate) fn put(&mut self, from: u32, to: u32, route: Items<Hop>)
        requires places { (from < self.old.operators) × (to < self.old.operators) }
        requires short { length route ≤ most_hops }
        ensures operators { self.new.operators ≡ self.old.operators }
        ensures size { length self.new.routes ≡ length self.old.routes }
        ensures put { route_in self.new from to ≡ route }
        ensures others { (o d : ℕ) → o < self.old.operators → d < self.old.operators →
            ((o ≢ from) ⊎ (d ≢ to)) → route_in self.new o d ≡ route_in self.old o d }
    {
        let place = place(self.operators, from, to);
        self.routes[place] = route;
    }

    /// How many operators there are.
    pub fn operators(&self) -> u32
        ensures { result ≡ self.now.operators }
    {
        self.operators
    }
}

/// The place of a route in a table of this many operators.
fn place(operators: u32, from: u32, to: u32) -> usize
    requires few { operators ≤ bound_of Operators }
    requires places { (from < operators) × (to < operators) }
    ensures place { result ≡ from * operators + to }
    ensures within { result < operators * operators }
{
    (from * operators + to) as usize
}

/// This many routes without hops.
fn empty_routes(alloc: Global, count: u32) -> Result<Vec<Items<Hop>>, OutOfMemory>
    requires { count ≤ 256 }
    ensures length { IfOk result (λ v. length v.items ≡ count) }
    ensures empty { IfOk result (λ v. (i : ℕ) → slice_index_or v.items i [] ≡ []) }
    ensures short { IfOk result (λ v. All (λ r. length r ≤ most_hops) v.items) }
{
    let mut routes = Vec::new(alloc);
    for _ in 0..count {
        routes.push(Items::new(Vec::new(alloc)))?;
    }
    Ok(routes)
}
