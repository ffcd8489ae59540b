//! The texts of a load: an algorithm, an architecture and a sensor table that are made from a number, to measure
//! how fast the executive runs. `syndex_program` calls `load_texts`, which makes all three, for the command `load`.
#![tactic(auto)]

ghost use Rattle.std.specs.Prelude.{◌≡◌, ◌≤◌, IfOk};
ghost use Rattle.load_texts.specs.Algorithm.{algorithm_text};
ghost use Rattle.load_texts.specs.Architecture.{architecture_text};
ghost use Rattle.load_texts.specs.Table.{table_text};

mod algorithm;
mod architecture;
mod generator;
mod layers;
mod lines;
mod table;

use std::alloc::Global;
use syn_base::OutOfMemory;

/// The three texts of load `n`, which is 1 to 1,000: its algorithm, with 1 + n mod 8 layers of four
/// functions between a sensor and two actuators; its architecture, four operators on two media; and its
/// sensor table of 100 + n reactions.
pub fn load_texts(alloc: Global, n: u32) -> Result<(Vec<u8>, Vec<u8>, Vec<u8>), OutOfMemory>
    requires from { 1 ≤ n }
    requires to { n ≤ 1000 }
    ensures algorithm { IfOk result (λ texts. texts.0.items ≡ algorithm_text n) }
    ensures architecture { IfOk result (λ texts. texts.1.items ≡ architecture_text) }
    ensures table { IfOk result (λ texts. texts.2.items ≡ table_text n) }
{
    let algorithm = algorithm::algorithm_of(alloc, n)?;
    let architecture = architecture::architecture(alloc)?;
    let table = table::table_of(alloc, n)?;
    Ok((algorithm, architecture, table))
}
