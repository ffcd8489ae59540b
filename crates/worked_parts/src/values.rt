//! What actuators took, as one list.
ghost use Rattle.std.specs.Prelude.{◌<◌, length};

use std::alloc::Global;
use syn_base::{ActRows, OutOfMemory};

/// Adds what the actuators took in a reaction.
fn add_reaction(rows: &ActRows, reaction: usize, values: &mut Vec<i64>) -> Result<(), OutOfMemory>
    requires { reaction < length rows.now.reactions }
{
    for actuator in 0..rows.lens().len() {
        values.extend_from_slice(rows.vector(reaction, actuator))?;
    }
    Ok(())
}

/// What the actuators took, reaction by reaction.
pub fn values_of(alloc: Global, rows: &ActRows) -> Result<Vec<i64>, OutOfMemory> {
    let mut values = Vec::new(alloc);
    for reaction in 0..rows.count() {
        add_reaction(rows, reaction, &mut values)?;
    }
    Ok(values)
}
