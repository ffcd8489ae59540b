//! The exact check of a serial order of one reaction: `is_order` returns whether a program is well formed by
//! it, for a flat graph and an architecture. It allocates no memory.
//!
//! Whoever builds a program of its own and wants to run it asks it first. The sequences, the loops, what
//! instructions name, and calls and transfers are checked here, buffers with their pairs and prologues in
//! `program_walks`. Each operation is called once on what carries its sources (`operations_are_called`), each
//! transfer has its send, its receive and its waits in order (`transfers_are_right`), and receives what is sent
//! (`transfers_keep_sources`).
#![tactic(auto)]

mod calling;
mod carrying;
mod clauses;
mod loops;
mod naming;
mod order;
mod sequencing;
mod transferring;

pub use calling::{has_len, has_output, ins_of, outs_of};
pub use carrying::Origin;
pub use clauses::{operations_are_called, transfers_are_right, transfers_keep_sources};
pub use naming::{are_communicators, are_counted, are_on_media, names_in};
pub use order::is_order;
pub use sequencing::are_sequences;
pub use transferring::{is_receive_from, is_send_to, is_wait};
