//! The checked definitions, with their links and ports, from which plans are made.
use algo_laws::{Def, Ports};
use syn_base::Items;

/// The definitions of a text that has passed its checks.
#[derive(Clone, Copy)]
pub struct Checked<'a> {
    /// In the order of the text.
    pub defs: &'a [Def],
    /// For each definition the places of those that it names.
    pub links: &'a [Items<u32>],
    /// The ports of each definition, by its place.
    pub table: &'a [Ports],
}
