//! The pass over the main graph: `periods`, which `elaboration` calls.
ghost use Rattle.std.specs.Prelude.{◌≡◌, ◌≤◌, ◌<◌, IfOk, length};
ghost use Rattle.std.specs.List.{All};
ghost use Rattle.syn_base.specs.Limits.{most_operations};
ghost use Rattle.algo_tree.specs.Counted.{operations};
ghost use Rattle.algo_tree.specs.View.{view, vertices_view};
ghost use Rattle.multi_period.specs.Laws.{DoesAsMarked};
ghost use Rattle.multi_period.specs.Marks.{mark_at, MayHave, MayHaveMarks, AreMarked};
ghost use Rattle.multi_period.specs.Periods.{period_by as one_period, all_periods, periods as tree_made};
ghost use Rattle.multi_period.specs.Seen.{label_seen};
ghost use Rattle.multi_period.specs.Within.{Gives, made_within};

use crate::count::added;
use crate::fault::PeriodError;
use crate::graph::period;
use crate::mark::Mark;
use crate::table::mark_table;
use algo_tree::{Tree, Vertex, share_vertex, with_inside};
use std::alloc::Global;
use syn_base::{LimitFault, LimitKind, OutOfMemory};

/// The tree in which each marked reference has become a graph that runs it in each reaction that the
/// number of its mark divides: it does what the meaning with these marks says.
///
/// `Limit` comes exactly where that tree would stand for more than 2,048 flat operations, with
/// their number, and before anything is made. Want of memory comes only where it would not. Time
/// and memory are in proportion to the tree that is made.
pub fn periods(alloc: Global, tree: &Tree, marks: &[Mark]) -> Result<Tree, PeriodError>
    requires { MayHaveMarks marks.now tree.now }
    ensures gives { Gives result (made_within marks.now tree.now) }
    ensures meaning { IfOk result (DoesAsMarked marks.now tree.now) }
{
    let count = count_made(tree, marks);
    let bound = LimitKind::Operations.bound();
    if count > bound {
        return Err(PeriodError::Limit(LimitFault {
            which: LimitKind::Operations,
            count,
            bound,
        }));
    }
    match make_tree(alloc, tree, marks) {
        Ok(made) => Ok(made),
        Err(_) => Err(PeriodError::OutOfMemory),
    }
}

/// How many flat operations the made tree stands for. It takes no memory.
fn count_made(tree: &Tree, marks: &[Mark]) -> u128
    requires { MayHaveMarks marks.now tree.now }
    ensures { result ≡ operations (tree_made marks.now tree.now) }
{
    let main = tree.main();
    u128::from(tree.operations()) + added(&main.inner, marks)
}

/// The made tree, where it stands for few enough operations.
fn make_tree(alloc: Global, tree: &Tree, marks: &[Mark]) -> Result<Tree, OutOfMemory>
    requires may { MayHaveMarks marks.now tree.now }
    requires few { operations (tree_made marks.now tree.now) ≤ most_operations }
    ensures is { IfOk result (λ t. t ≡ tree_made marks.now tree.now) }
    ensures meaning { IfOk result (DoesAsMarked marks.now tree.now) }
{
    let main = tree.main();
    let inner = each_period(alloc, &main.inner, marks)?;
    Ok(Tree::new(with_inside(alloc, main, inner)?))
}

/// The vertices of the main graph, where the marked ones have become graphs.
fn each_period(
    alloc: Global,
    vertices: &[Vertex],
    marks: &[Mark],
) -> Result<Vec<Vertex>, OutOfMemory>
    requires marked { AreMarked (mark_at marks.now) (vertices_view vertices.now) }
    requires within { All (λ m. m.reference < length vertices.now) marks.now }
    ensures { let made = all_periods (mark_at marks.now) (vertices_view vertices.now) in
        IfOk result (λ us. vertices_view us.items ≡ made) }
{
    let table = mark_table(alloc, marks, vertices.len())?;
    let mut all = Vec::new(alloc);
    for place in 0..vertices.len() {
        all.push(period_by(alloc, &vertices[place], table[place])?)?;
    }
    Ok(all)
}

/// What a vertex with this mark, or with none, becomes.
fn period_by(alloc: Global, vertex: &Vertex, mark: Option<Mark>) -> Result<Vertex, OutOfMemory>
    requires { MayHave mark (label_seen vertex.now) }
    ensures { IfOk result (λ u. view u ≡ one_period mark (view vertex.now)) }
{
    match mark {
        Some(mark) => period(alloc, vertex, mark),
        None => share_vertex(alloc, vertex),
    }
}
