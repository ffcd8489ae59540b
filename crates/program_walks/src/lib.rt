//! Walks over a program that allocate no memory: what an instruction is, reads and writes, and where the
//! instructions stand that write a buffer, call an operation or act on a pair of semaphores.
//!
//! They also find places in a serial order. The checks of programs are made of them, and those of buffers stand
//! here: each buffer is written once and near, and as deep as it may be (`buffers_are_right`), a pair of
//! semaphores guards it for each reader (`pairs_guard`), and the prologues signal once for each place
//! (`prologues_open`). Each is exact, and a part of what makes the program well formed by a serial order.
//! `order_check` asks them.
#![tactic(auto)]

mod acts;
mod buffers;
mod clauses;
mod guarding;
mod instructions;
mod opening;
mod parts;
mod placing;
mod searches;

pub use acts::{Act, Stand, first_act, is_only};
pub use clauses::{buffers_are_right, pairs_guard, prologues_open};
pub use instructions::{count_communications, is_communication, reads, signals_empty, writes};
pub use parts::{depth_of, len_of, medium_of, operator_of, turn_of};
pub use placing::{count_in, place_in};
pub use searches::{
    caller_of, communication_at, first_call, is_entry, is_on, output_at, transfers, waits_for,
    writer_of, written_at,
};
