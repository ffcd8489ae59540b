//! The ports of a definition, which the checks find and the resolver reads.
use algo_text::Port;
use syn_base::Items;

/// The inputs and outputs of a definition, in order. The conditioning input of a switch stands first, and
/// the outer ports of a repetition in the order of its lines.
#[derive(Drop)]
pub struct Ports {
    pub ins: Items<Port>,
    pub outs: Items<Port>,
}
