//! The chart of a schedule as a picture in SVG: a lane for each operator and each medium, a bar for each
//! operation and each transfer, an axis of dates, and an arrow from each transfer to whoever reads what it
//! brings; and the dates of its reactions in the same lanes.
//!
//! `print_picture` appends a chart. Its laws say that the picture tells the truth. `dates_picture` computes the
//! dates and draws when each operation and each transfer starts and ends in each reaction, with a colour for
//! each reaction, and dashed lines where each repetition of the chart would end.
#![tactic(auto)]

mod arrows;
mod bars;
mod board;
mod dates;
mod frame;
mod laws;
mod picture;
mod reaction;
mod sheet;

pub use bars::{append_label, append_title_of_run, append_title_of_transfer};
pub use dates::dates_picture;
pub use frame::{Lane, begin_lane, height_of_lanes};
pub use laws::{
    each_has_one_bar, lanes_are_in_order, names_need_no_escape, what_lasts_is_seen, who_takes_reads,
};
pub use picture::{begin_picture, end_picture, print_picture};
pub use sheet::{Sheet, operation_name, operators_in};
