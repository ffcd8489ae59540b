//! The exact check of a schedule, `is_valid`, for schedules of any origin.
ghost use Rattle.std.specs.Prelude.{◌≡◌, ◌<◌, ◌≤◌, ◌+◌, ◌/◌, length};
ghost use Rattle.std.specs.List.{list_all, range_with_len};
ghost use Rattle.syn_base.specs.Limits.{most_operations};
ghost use Rattle.durations.specs.Table.{entry_in};
ghost use Rattle.schedule.specs.Acts.{acts_of};
ghost use Rattle.schedule.specs.Valid.{is_valid};
ghost use Rattle.schedule.specs.Windows.{are_fed_from};

use crate::decision::{Decision, Schedule};
use crate::line::Lines;
use crate::setting::Setting;
use crate::window::Window;
use durations::{Archi, Durations, Flat, Vertex};

/// Whether a schedule is valid for a flat graph on an architecture, by these durations of operations. Of
/// each act counts what the acts before it have done: decision by decision its transfers, and then its
/// operation. Each operation is placed once, on an operator where it may stand, and lasts its time.
/// Acts of one operator, or of one medium, follow each other without an overlap. A transfer joins two
/// operators of its medium, lasts its time, carries a value that its near operator holds when it
/// starts, and that its far operator does not have. What an operation reads is held on its operator
/// when it starts. A set half stands on the operator of its get half, after it.
///
/// The durations may be of any graph and any architecture: where they have no entry, nothing may stand.
///
/// It takes no memory. The acts are gone through once with a table of operations and lines, and once
/// more for every sixteen operations with a table of the copies of their outputs: no value is searched.
pub fn is_valid(flat: &Flat, archi: &Archi, durations: &Durations, schedule: &Schedule) -> bool
    ensures { result ≡ is_valid flat.now archi.now (entry_in durations.now) schedule.now }
{
    let setting = Setting {
        vertices: flat.vertices(),
        operators: archi.operators().len(),
        media: archi.media(),
        durations,
    };
    let decisions = schedule.decisions.as_slice();
    let mut lines = Lines::new();
    lines.are_in_line(&setting, decisions) && are_fed(setting.vertices, decisions)
}

/// Whether each act reads what is held, and brings what is not there.
fn are_fed(vertices: &[Vertex], decisions: &[Decision]) -> bool
    requires { length vertices.now ≤ most_operations }
    ensures { result ≡ list_all (are_fed_from vertices.now (acts_of decisions.now))
        (range_with_len 0 ((length vertices.now + 15) / 16)) }
{
    let windows = (vertices.len() as u32 + 15) / 16;
    (0..windows).all(|window| are_fed_from(vertices, decisions, window))
}

/// The same of copies of the outputs of sixteen operations, of which the first has number 16 * `window`.
fn are_fed_from(vertices: &[Vertex], decisions: &[Decision], window: u32) -> bool
    requires { window < 1000 }
    ensures { result ≡ are_fed_from vertices.now (acts_of decisions.now) window }
{
    let mut window = Window::new(window * 16);
    window.are_fed(vertices, decisions)
}
