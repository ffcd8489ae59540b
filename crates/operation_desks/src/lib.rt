//! The memory in which the operations of a flat graph are computed, laid out before a run begins:
//! registers, a desk for each operation, the cells of the delays and the rows of the actuators.
//!
//! A micro-step that loads puts an element in the registers of its sequence, a desk reads them (`Desk::read`), computes
//! its operation (`Desk::fire`) and gives the outputs back to them (`Desk::give`), and none of it takes memory.
//! `all_registers` and `desks_of` lay registers and desks out, `copy_of`, `row_lens` and `zero_rows` cells and rows;
//! `desks_for` and `row_lens` do so for some operations alone.
//! Nothing here knows of jobs or of words that sequences share; `semaphore_core` stands on it.
#![tactic(auto)]

mod desk;
mod laying;
mod opening;
mod reading;
mod registers;
mod rooms;

pub use desk::Desk;
pub use laying::{desks_for, desks_of};
pub use opening::{actuator_lens, copy_of, opening_of, row_lens, sensor_lens, zero_rows, zeros};
pub use registers::Registers;
pub use rooms::{addressable, all_registers};
