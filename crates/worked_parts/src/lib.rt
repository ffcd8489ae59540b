//! What the tests of several crates share: gates that show which steps are asked for, by which threads and in
//! what order, texts, and what actuators took as one list.
#![tactic(auto)]

mod gates;
mod texts;
mod values;

pub use gates::{Counting, Holding, Meeting};
pub use texts::{BUS, TWICE, TWICE_CODE};
pub use values::values_of;

// What the worked examples run on: files and outputs in memory.
pub use outside::{
    Failed, File, Files, Gate, GateFree, ReadAnswer, Shelf, ShelfMem, ShelfSure, SinkMem, SinkSure,
    read_whole, write_whole,
};
