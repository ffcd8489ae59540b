//! How large an output would be, and whether it is within its bound: for whoever runs an algorithm.
ghost use Rattle.std.specs.Prelude.{◌≡◌, ◌*◌, sum, IfOk};
ghost use Rattle.algo_laws.specs.Ends.{actuator_lengths};
ghost use Rattle.compiler.specs.Outputs.{excess};

use algo_laws::Tree;
use std::alloc::Global;
use syn_base::{LimitFault, LimitKind, OutOfMemory, Shape};

/// How many elements the actuators take in a reaction.
pub fn output_width(alloc: Global, tree: &Tree) -> Result<usize, OutOfMemory>
    ensures { IfOk result (λ width. width ≡ sum (actuator_lengths tree.now)) }
{
    let lens = tree.actuator_lens(alloc)?;
    let shape = Shape::new(alloc, &lens)?;
    Ok(shape.width())
}

/// Whether this many reactions of this many elements are more than an output may have.
pub fn excess(reactions: usize, width: usize) -> Option<LimitFault>
    ensures { result ≡ excess (reactions * width) }
{
    let count = reactions as u128 * width as u128;
    let which = LimitKind::Output;
    let bound = which.bound();
    if count > bound {
        Some(LimitFault {
            which,
            count,
            bound,
        })
    } else {
        None
    }
}
