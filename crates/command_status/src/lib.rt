//! How a command ends: its status, the number with which the program ends, and the line that says why; and the
//! writing of a text by one call, which is an end of most commands.
#![tactic(auto)]

mod actual;
mod architecture;
mod code;
mod line;
mod status;
mod written;

pub use line::{report, say};
pub use status::Status;
pub use written::{put_text, write_text};

// What the clauses here speak of: plans, and the causes for which texts are refused.
pub use actual_defs::{ActualError, ActualFault};
pub use check_cause::{CheckCause, Stop};
pub use command_plan::{Failed, File, Gate, ReadAnswer, Shelf, Sink, read_whole, write_whole};
pub use macro_code::{CodeCause, CodeError, print_code};
pub use sensor_table::{SensorCause, SensorError, SensorFault, read_sensors, template_text};
