//! Where a program from another source is wrong: `find_why` names the first place that shows the first cause for which
//! `macro_check` refuses it, or for a program without a serial order what each sequence waits for.
//!
//! A `Place` has the rule that is broken, the operation, buffer, pair, transfer or sequence of which it is asked, and
//! the instruction that shows it. The laws say what is wrong there by the rule, that all that is looked at before it is
//! right, and that there is no place exactly where the program is well formed. `why_text` writes what is found for
//! people.
#![tactic(auto)]

mod buffers;
mod calls;
mod first;
mod laws;
mod names;
mod pairs;
mod place;
mod prologues;
mod transfers;
mod values;
mod waits;
mod why;

pub use laws::{why_explains, why_is_exact};
pub use place::{Part, Place, Rule, Spot, Subject, Waiting, Why};
pub use why::find_why;
