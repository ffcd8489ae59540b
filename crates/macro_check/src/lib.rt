//! The exact check of programs from any source: `macro_check` returns a serial order of one
//! reaction, or the first cause for which the program is not well formed for a flat graph and an
//! architecture.
//!
//! Whoever runs macro-code that this compiler did not make asks it first. It takes time in proportion to the program,
//! by tables of where operations, buffers and pairs are named and a list of the sequences to look at. `find_tables`
//! makes these tables, and the questions about buffers that are asked over them are exported for whoever tells more
//! of a refused program than its cause.
#![tactic(auto)]

mod awaiting;
mod calling;
mod carrying;
mod cause;
mod check;
mod fitting;
mod guarding;
mod moving;
mod naming;
mod running;
mod short;
mod tables;
mod writing;

pub use awaiting::awaited;
pub use carrying::{find_sources, origin_in};
pub use cause::CheckError;
pub use check::macro_check;
pub use check_cause::{CheckCause, Stop};
pub use fitting::{carries, gives_at};
pub use naming::is_there;
pub use short::loops_are_short;
pub use tables::{Tables, find_tables};
pub use writing::{carries_alike, is_as_long, is_call};
