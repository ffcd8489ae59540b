//! The check that the order follows the loops of a program.
ghost use Rattle.std.specs.Prelude.{◌≡◌, nat_eq, length};
ghost use Rattle.std.specs.List.{count_by};
ghost use Rattle.executive_program.specs.Instructions.{turn};
ghost use Rattle.order_check.specs.Checked.{are_below, counts_loops, follows_loops};

use executive_program::Program;
use program_walks::{count_in, turn_of};

/// Whether these numbers are below `bound`.
pub fn are_below(list: &[u32], bound: usize) -> bool
    ensures { result ≡ are_below bound list.now }
{
    list.iter().all(|entry| (*entry as usize) < bound)
}

/// Whether the order names a sequence as often as its loop has instructions.
fn is_named_as_often(program: &Program, order: &[u32], sequence: usize) -> bool
    ensures { result ≡ nat_eq (count_by (λ t. nat_eq t sequence) order.now) (length (turn program.now sequence)) }
{
    count_in(order, sequence) == turn_of(program, sequence).len()
}

/// Whether the order names each sequence as often as its loop has instructions.
fn counts_loops(program: &Program, order: &[u32]) -> bool
    ensures { result ≡ counts_loops program.now order.now }
{
    (0..program.seqs.as_slice().len()).all(|sequence| is_named_as_often(program, order, sequence))
}

/// Whether each entry of the order names a sequence, and each sequence as often as its loop has instructions.
pub fn are_followed(program: &Program, order: &[u32]) -> bool
    ensures { result ≡ follows_loops program.now order.now }
{
    are_below(order, program.seqs.as_slice().len()) && counts_loops(program, order)
}
