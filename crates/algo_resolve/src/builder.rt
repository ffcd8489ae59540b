//! The checked definitions with a plan for each, from which vertices are built.
use crate::passing::Passing;
use crate::plan::Plan;
use algo_laws::{Def, Edge, Ports, Reference, Source};
use body_lang::Port;
use syn_base::{Items, Shared};

/// The definitions of a text that has passed its checks, with what their vertices have in common.
#[derive(Clone, Copy)]
pub struct Builder<'a> {
    /// In the order of the text.
    pub defs: &'a [Def],
    /// For each definition the places of those that it names.
    pub links: &'a [Items<u32>],
    /// The ports of each definition, by its place.
    pub table: &'a [Ports],
    /// The plan of each definition, by its place.
    pub plans: &'a [Plan],
    /// What each definition passes on, by its place, for each depth to which it is followed.
    pub rounds: &'a [Items<Passing>],
}

/// A graph among them.
#[derive(Clone, Copy)]
pub struct WiredGraph<'a> {
    pub ins: &'a [Port],
    pub references: &'a [Reference],
    pub edges: &'a [Edge],
    /// The place of the definition of each reference.
    pub places: &'a [u32],
    /// The sources of the inputs of each reference.
    pub wires: &'a [Shared<Source>],
}
