//! What is to be scheduled, in flat tables of numbers, which are made once.
use crate::links::Links;
use crate::outputs::Outputs;
use crate::site::Site;
use crate::stands::Stands;
use durations::Hop;
use route_table::Routes;
use syn_base::{OutOfMemory, to_u32};

/// The operations and the architecture.
#[derive(Drop)]
pub struct Tables<'a> {
    /// How many operations there are.
    pub operations: u32,
    pub outputs: Outputs,
    pub links: Links,
    pub stands: Stands,
    routes: &'a Routes,
}

impl<'a> Tables<'a> {
    /// The tables of a flat graph on an architecture.
    pub fn new(site: &Site<'a>) -> Result<Tables<'a>, OutOfMemory> {
        let vertices = site.flat.vertices();
        let operations = to_u32(vertices.len())?;
        let outputs = Outputs::new(site.alloc, vertices, site.archi.media())?;
        let links = Links::new(site.alloc, vertices, &outputs)?;
        let stands = Stands::new(site.alloc, vertices, site.durations)?;
        Ok(Tables {
            operations,
            outputs,
            links,
            stands,
            routes: site.routes,
        })
    }

    /// The least route from one operator to another, none where there is no such operator.
    pub fn route(&self, from: u32, to: u32) -> &'a [Hop] {
        let operators = self.routes.operators();
        if from < operators && to < operators {
            return self.routes.route(from, to);
        }
        &[]
    }

    /// Whether an operation depends on none and takes no time, as constants and most get halves: it
    /// is placed when its first reader is.
    pub fn is_ready_made(&self, op: u32) -> bool {
        self.links.before.of(op).is_empty()
            && !self.links.after.of(op).is_empty()
            && self.stands.is_instant(op)
    }
}
