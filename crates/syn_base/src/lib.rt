//! What every other crate speaks of: 64-bit numbers and their arithmetic, names, rows of vectors, lists that
//! several owners share, texts that grow at their end, limits, and want of memory.
//!
//! `Shared` is a list that is made once; each of its owners sees the same elements, and the last one frees
//! them. `algo_tree` keeps in it what all uses of a definition have in common, so that a vertex takes the same
//! memory whatever its ports. By `append` and `append_count` all crates that print lines write them; after want
//! of memory a text is as it was before the call.
#![tactic(auto)]

mod arithmetic;
mod integer;
mod items;
mod lens;
mod limits;
mod memory;
mod name;
mod narrow;
mod rows;
mod shape;
mod shared;
mod text;

pub use arithmetic::{Op, apply};
pub use integer::{NumFault, print_int, printed_reads_back, read_int};
pub use items::Items;
pub use lens::len_at;
pub use limits::{LimitFault, LimitKind};
pub use memory::OutOfMemory;
pub use name::{Name, NameFault};
pub use narrow::to_u32;
pub use rows::{ActRows, SensorRows};
pub use shape::Shape;
pub use shared::Shared;
pub use text::{append, append_count};
