//! The check of a program with a serial order, which callers of the crate ask for.
ghost use Rattle.std.specs.Prelude.{◌≡◌, length};
ghost use Rattle.std.specs.Bool.{Decides};
ghost use Rattle.std.specs.List.{flat_map, range_with_len};
ghost use Rattle.executive_program.specs.Sequences.{sequences, sequences_of};
ghost use Rattle.executive_program.specs.WellFormed.{IsOrder};
ghost use Rattle.order_check.specs.Order.{are_guards_right, are_numbers_right, are_values_right, is_order};

use crate::clauses::{operations_are_called, transfers_are_right, transfers_keep_sources};
use crate::loops::are_followed;
use crate::naming::{are_communicators, are_counted, are_named, are_on_media};
use crate::sequencing::are_sequences;
use executive_program::{Archi, Flat, Medium, Program};
use program_walks::{buffers_are_right, pairs_guard, prologues_open};

/// Whether what the instructions name is there, communications stand in communicators of this many media,
/// and each has one in each transfer of its medium.
fn are_numbers_right(program: &Program, operations: usize, media: usize) -> bool
    ensures { result ≡ are_numbers_right program.now operations media }
{
    are_named(program, operations)
        && are_communicators(program)
        && are_on_media(program, media)
        && are_counted(program)
}

/// Whether the buffers are right, the pairs of semaphores guard them, and the prologues open them. The
/// pairs come before the prologues, which count them.
fn are_guards_right(program: &Program, order: &[u32]) -> bool
    ensures { result ≡ are_guards_right program.now order.now }
{
    buffers_are_right(program, order) && pairs_guard(program, order) && prologues_open(program)
}

/// Whether each operation is called right, and each transfer is right and keeps the source.
fn are_values_right(program: &Program, order: &[u32], flat: &Flat, media: usize) -> bool
    ensures { result ≡ are_values_right program.now order.now flat.now.vertices media }
{
    operations_are_called(program, flat, order)
        && transfers_are_right(program, order, media)
        && transfers_keep_sources(program, media)
}

/// The whole test, over this many operators and these media.
fn passes(program: &Program, order: &[u32], flat: &Flat, operators: usize, media: &[Medium]) -> bool
    ensures { result ≡ is_order program.now flat.now.vertices
        (flat_map (sequences_of media.now) (range_with_len 0 operators)) (length media.now)
        order.now }
{
    are_sequences(program.seqs.as_slice(), operators, media)
        && are_followed(program, order)
        && are_numbers_right(program, flat.vertices().len(), media.len())
        && are_guards_right(program, order)
        && are_values_right(program, order, flat, media.len())
}

/// Whether a program is well formed for a flat graph and an architecture by the serial order that takes,
/// entry by entry of `order`, the next loop instruction of the named sequence. It is false where an entry
/// names no sequence, or one whose loop is used up. It takes no memory.
pub fn is_order(program: &Program, flat: &Flat, archi: &Archi, order: &[u32]) -> bool
    ensures { Decides result (IsOrder program.now flat.now (sequences archi.now) (length archi.now.media) order.now) }
{
    passes(program, order, flat, archi.operators().len(), archi.media())
}
