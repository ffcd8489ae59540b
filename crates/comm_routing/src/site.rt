//! The site of a draft: what is scheduled, and on what.
use route_table::Routes;
use schedule::{Archi, Durations, Flat};

/// A flat graph, an architecture with its routes, and how long operations last.
#[derive(Clone, Copy)]
pub(crate) struct Site<'a> {
    pub flat: &'a Flat,
    pub archi: &'a Archi,
    pub routes: &'a Routes,
    pub durations: &'a Durations,
}
