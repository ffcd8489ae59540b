//! The lines of what the actuators take, for the commands that run an algorithm.
ghost use Rattle.std.specs.Prelude.{◌≡◌, ◌+◌, ◌<◌, ◌≤◌, ◌++◌, [], length, map, slice_index_or, IfOk, OnOk};
ghost use Rattle.algo_tree.specs.Ends.{actuator_lengths};
ghost use Rattle.act_text.specs.Names.{actuator_names};
ghost use Rattle.act_text.specs.Text.{values_text, actuator_line, reaction_text, text_from, output_text};

use crate::names::actuators_of;
use algo_tree::Tree;
use std::alloc::Global;
use syn_base::{ActRows, OutOfMemory, append, append_count, print_int};

/// The output text of an algorithm whose actuators took these rows: for each reaction in order and each
/// actuator reference of the main graph in declared order the line `k name v0 v1` and so on.
pub fn acts_text(alloc: Global, tree: &Tree, acts: &ActRows) -> Result<Vec<u8>, OutOfMemory>
    requires { acts.now.lens ≡ actuator_lengths tree.now }
    ensures { IfOk result (λ text. text.items ≡ output_text (actuator_names tree.now) acts.now.reactions) }
{
    // The rows have a count of 64 bits: so no number of a reaction from 0 on is too large.
    let _count = acts.count();
    acts_text_from(alloc, tree, acts, 0)
}

/// The lines of these rows where the first of them is that of reaction `first`.
pub fn acts_text_from(
    alloc: Global,
    tree: &Tree,
    acts: &ActRows,
    first: usize,
) -> Result<Vec<u8>, OutOfMemory>
    requires lens { acts.now.lens ≡ actuator_lengths tree.now }
    requires numbers { first + length acts.now.reactions ≤ usize.MAX }
    ensures { IfOk result (λ text. text.items ≡ text_from first (actuator_names tree.now) acts.now.reactions) }
{
    let names = actuators_of(alloc, tree)?;
    output(alloc, &names, acts, first)
}

/// For each reaction in order and each actuator in declared order the line `k name v0 v1` and so on.
fn output(
    alloc: Global,
    names: &[&[u8]],
    rows: &ActRows,
    first: usize,
) -> Result<Vec<u8>, OutOfMemory>
    requires names { length names.now ≤ length rows.now.lens }
    requires numbers { first + length rows.now.reactions ≤ usize.MAX }
    ensures { IfOk result (λ text. text.items ≡ text_from first (map (λ s. s.now) names.now) rows.now.reactions) }
{
    let mut text = Vec::new(alloc);
    for k in 0..rows.count() {
        append_reaction(&mut text, names, rows, k, first + k)?;
    }
    Ok(text)
}

/// Appends the lines of row k, which is that of reaction `number`.
fn append_reaction(
    text: &mut Vec<u8>,
    names: &[&[u8]],
    rows: &ActRows,
    k: usize,
    number: usize,
) -> Result<(), OutOfMemory>
    requires names { length names.now ≤ length rows.now.lens }
    requires reaction { k < length rows.now.reactions }
    ensures { OnOk result (text.new.items ≡ text.old.items ++
        reaction_text number 0 (map (λ s. s.now) names.now)
        (slice_index_or rows.now.reactions k [])) }
{
    for (a, name) in names.iter().enumerate() {
        append_line(text, number, name, rows.vector(k, a))?;
    }
    Ok(())
}

/// Appends the line of one actuator.
fn append_line(text: &mut Vec<u8>, k: usize, name: &[u8], values: &[i64]) -> Result<(), OutOfMemory>
    ensures { OnOk result (text.new.items ≡ text.old.items ++ actuator_line k name.now values.now) }
{
    append_count(text, k)?;
    append(text, b" ")?;
    append(text, name)?;
    append_values(text, values)?;
    append(text, b"\n")
}

/// Appends the values, a space before each.
fn append_values(text: &mut Vec<u8>, values: &[i64]) -> Result<(), OutOfMemory>
    ensures { OnOk result (text.new.items ≡ text.old.items ++ values_text values.now) }
{
    for value in values {
        append(text, b" ")?;
        print_int(*value, text)?;
    }
    Ok(())
}
