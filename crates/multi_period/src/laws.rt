//! Laws of marked references, each the contract of a function that does nothing.
ghost use Rattle.std.specs.Prelude.{◌≡◌, ℕ, List, []};
ghost use Rattle.algo_tree.specs.Tree.{Label, Vertex, Vertices};
ghost use Rattle.algo_tree.specs.Meaning.{vertices_in, act_row};
ghost use Rattle.algo_tree.specs.Valid.{IsTree};
ghost use Rattle.multi_period.specs.Periods.{periods};
ghost use Rattle.multi_period.specs.declared.mark.Mark.{Mark};
ghost use Rattle.multi_period.specs.Marks.{mark_at, AreMarked, IsMark};
ghost use Rattle.multi_period.specs.Meaning.{act_row_at};
ghost use Rattle.multi_period.specs.Laws.{PeriodsKeep, PeriodCounts, PeriodsCount, PeriodsAreTrees, PeriodsKeepValues};
ghost use Rattle.syn_base.specs.Vectors.{Values};

/// The made tree does what the meaning with periods says.
pub fn periods_keep_the_meaning()
    ensures { (marks : List Mark) (main : Vertex) → IsTree main
        → AreMarked (mark_at marks) (vertices_in main) → PeriodsKeep marks main }
{}

/// Where nothing is marked the meaning with periods is the synchronous meaning.
pub fn nothing_marked()
    ensures { (main : Vertex) → IsTree main → (rows : List Values) (k : ℕ)
        → act_row_at [] main rows k ≡ act_row main rows k }
{}

/// Without marks the made tree is the tree itself.
pub fn unmarked_trees_stay()
    ensures { (main : Vertex) → periods [] main ≡ main }
{}

/// The made tree is a valid tree where it has few enough operations: names stand where names are asked
/// for, if longer ones, and numbers in paths have 32 bits. Each marked reference has become as many
/// operations as are said.
pub fn periods_are_trees()
    ensures valid { (marks : List Mark) (main : Vertex) → IsTree main
        → AreMarked (mark_at marks) (vertices_in main) → PeriodsAreTrees marks main }
    ensures whole { (marks : List Mark) (main : Vertex) → IsTree main
        → AreMarked (mark_at marks) (vertices_in main) → PeriodsCount marks main }
    ensures count { (m : Mark) (l : Label) (us : Vertices) → IsMark m l → PeriodCounts m l us }
{}

/// Each delay keeps in the made tree what it keeps by the meaning with periods: one inside a marked
/// reference deeper inside.
pub fn periods_keep_values()
    ensures { (marks : List Mark) (main : Vertex) → IsTree main
        → AreMarked (mark_at marks) (vertices_in main) → PeriodsKeepValues marks main }
{}
