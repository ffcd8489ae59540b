//! Tables of where a program names its operations, buffers and pairs of semaphores, and of its transfers, with the
//! checks that read them, each in time proportional to the program.
//!
//! `MarkTable` has, for each number below a count, all places that name it. Made of the places of a program
//! (`find_marks`) it says where each operation, buffer and pair of semaphores is named. `find_crossings` and its
//! neighbours find the communications of each sequence and the communicators of each medium. Over these tables
//! `are_buffers`, `guards` and `are_opened` are the exact checks of buffers, pairs of semaphores and prologues.
//! `macro_check` asks them of programs of any origin; `program_walks` has the same checks without memory.
#![tactic(auto)]

mod buffers;
mod communications;
mod crossings;
mod mark_table;
mod marks;
mod openings;
mod pairs;
mod queries;
mod readings;
mod roles;

pub use buffers::{are_buffers, is_in};
pub use communications::{
    communication_numbers, communication_places, find_communicators, number_at,
    place_of_communication,
};
pub use crossings::{Crossing, find_crossings};
pub use mark_table::{Mark, MarkTable};
pub use marks::find_marks;
pub use openings::are_opened;
pub use pairs::{PairTables, find_pairs, guards};
pub use queries::{Write, are_at, call_of, first_at, is_lone, write_of};
pub use readings::{Reading, find_readings};
pub use roles::{Role, numbers_named};
