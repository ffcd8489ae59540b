//! The marks by their references, for the pass.
ghost use Rattle.std.specs.Prelude.{◌≡◌, ◌<◌, [], IfOk, map};
ghost use Rattle.std.specs.List.{All};
ghost use Rattle.multi_period.specs.Marks.{mark_at};
ghost use Rattle.syn_base.specs.Numbers.{numbers_below};

use crate::mark::Mark;
use std::alloc::Global;
use syn_base::OutOfMemory;

/// No mark on any of this many references.
fn no_marks(alloc: Global, count: usize) -> Result<Vec<Option<Mark>>, OutOfMemory>
    ensures { IfOk result (λ t. t.items ≡ map (mark_at []) (numbers_below count)) }
{
    let mut table = Vec::new(alloc);
    for place in 0..count {
        table.push(None)?;
    }
    Ok(table)
}

/// For each of this many references the mark that is on it.
pub fn mark_table(
    alloc: Global,
    marks: &[Mark],
    count: usize,
) -> Result<Vec<Option<Mark>>, OutOfMemory>
    requires { All (λ m. m.reference < count) marks.now }
    ensures { IfOk result (λ t. t.items ≡ map (mark_at marks.now) (numbers_below count)) }
{
    let mut table = no_marks(alloc, count)?;
    for left in (0..marks.len()).rev() {
        let mark = marks[left];
        table[mark.reference as usize] = Some(mark);
    }
    Ok(table)
}
