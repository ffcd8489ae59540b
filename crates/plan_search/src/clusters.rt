//! Clusters: chains of operations, each of which is to stand on one operator, so that little is carried.
use plan_costs::{NOBODY, Tables, number_at, put_number};
use std::alloc::Global;
use syn_base::{OutOfMemory, to_u32};

/// The operations in clusters, those that are ready made in none.
#[derive(Drop)]
pub(crate) struct Clusters {
    /// By operation the number of its cluster, or `NOBODY`.
    numbers: Vec<u32>,
    /// The operations, cluster by cluster.
    members: Vec<u32>,
    /// By cluster the place of its first member.
    firsts: Vec<u32>,
    /// The operations in the order along which the chains go.
    pub order: Vec<u32>,
}

impl Clusters {
    /// The chains along an order: each begins with the first operation that is in no cluster, and goes on
    /// with the first one in the order that depends on its last one and is in no cluster.
    pub fn new(alloc: Global, tables: &Tables, order: Vec<u32>) -> Result<Clusters, OutOfMemory> {
        let places = places_in(alloc, order.as_slice())?;
        let mut clusters = Clusters {
            numbers: vec![in alloc; NOBODY; order.len()]?,
            members: Vec::with_capacity(alloc, order.len())?,
            firsts: Vec::new(alloc),
            order,
        };
        for place in 0..tables.operations {
            let op = number_at(clusters.order.as_slice(), place);
            if clusters.number(op) == NOBODY && !tables.is_ready_made(op) {
                clusters.add_chain(tables, places.as_slice(), op)?;
            }
        }
        Ok(clusters)
    }

    /// Adds the chain that begins with an operation.
    fn add_chain(&mut self, tables: &Tables, places: &[u32], op: u32) -> Result<(), OutOfMemory> {
        let number = to_u32(self.firsts.len())?;
        self.firsts.push(to_u32(self.members.len())?)?;
        let mut at = op;
        for _link in 0..tables.operations {
            put_number(self.numbers.as_mut_slice(), at, number);
            self.members.push(at)?;
            at = self.next(tables, places, at);
            if at == NOBODY {
                return Ok(());
            }
        }
        Ok(())
    }

    /// The first operation in the order that depends on this one and is in no cluster, or `NOBODY`.
    fn next(&self, tables: &Tables, places: &[u32], op: u32) -> u32 {
        let mut next = NOBODY;
        let mut first = NOBODY;
        for after in tables.links.after.of(op) {
            let place = number_at(places, *after);
            if self.number(*after) == NOBODY && place < first {
                next = *after;
                first = place;
            }
        }
        next
    }

    /// How many clusters there are.
    pub fn count(&self) -> usize {
        self.firsts.len()
    }

    /// The number of the cluster of an operation, or `NOBODY`.
    pub fn number(&self, op: u32) -> u32 {
        number_at(self.numbers.as_slice(), op)
    }

    /// The operations of a cluster.
    pub fn of(&self, number: u32) -> &[u32] {
        let members = self.members.len();
        let first = (number_at(self.firsts.as_slice(), number) as usize).min(members);
        let next = number_at(self.firsts.as_slice(), number.saturating_add(1)) as usize;
        &self.members.as_slice()[first..next.min(members).max(first)]
    }
}

/// By operation its place in an order.
fn places_in(alloc: Global, order: &[u32]) -> Result<Vec<u32>, OutOfMemory> {
    let mut places = vec![in alloc; NOBODY; order.len()]?;
    let mut place = 0u32;
    for op in order {
        put_number(places.as_mut_slice(), *op, place);
        place = place.saturating_add(1);
    }
    Ok(places)
}
