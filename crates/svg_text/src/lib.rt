//! Writes pictures in SVG: their elements, one a line, the places of dates, and the colours, which colour-blind
//! readers tell apart.
//!
//! `chart_picture` puts its pictures together with it, and `plot_rows` the picture of what the actuators take:
//! for each actuator a panel with a line for each element over the reactions, and with its least and its
//! greatest value.
//!
//! Laws say that names, and paths of operations, need no escape between quotes in JSON, DOT and XML. The crates
//! that write pictures, traces and graphs rely on them.
#![tactic(auto)]

mod axis;
mod curve;
mod level;
mod names;
mod plot;
mod range;
mod scale;
mod shapes;
mod style;
mod text;

pub use axis::append_axis;
pub use names::{names_need_no_escape, paths_need_no_escape};
pub use plot::plot_rows;
pub use range::Range;
pub use scale::{STEPS, Scale, fits, middle, widened};
pub use shapes::{
    Point, append_arrow, append_class, append_head, append_line, begin_bar, begin_group,
    begin_shade, begin_tile, end_bar,
};
pub use style::{END, END_GROUP, LEGEND, STYLE};
pub use text::{begin_aside, begin_text, end_text};
