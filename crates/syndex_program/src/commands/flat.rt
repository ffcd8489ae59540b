//! The command `flat A`: the listing of a flat graph. `commands` calls `listing_text`.
ghost use Rattle.std.specs.Prelude.{◌≡◌, IfOk};
ghost use Rattle.flat_text.specs.Listing.{listing};
ghost use Rattle.top_plans.specs.Reads.{text_in};
ghost use Rattle.top_plans.specs.Run.{Makes};
ghost use Rattle.top_plans.specs.FlatOf.{flat_of};
ghost use Rattle.top_plans.specs.Shelf.{Stays};
ghost use Rattle.top_plans.specs.Plans.{text_plan};
ghost use Rattle.command_words.specs.declared.table.AlgorithmText.TheVariants.{Listing};

use algo_tree::Tree;
use compiler::flatten_tree;
use flat_text::print_flat;
use std::alloc::Global;
use syn_base::OutOfMemory;
use top_plans::{Shelf, Status, read_algorithm};

/// The listing of an algorithm's flat graph, or why there is none.
pub fn listing_text<S: Shelf>(
    alloc: Global,
    shelf: &mut S,
    algorithm: &str,
) -> Result<Vec<u8>, Status>
    ensures stays { Stays (S.held shelf.old) (S.held shelf.new) }
    ensures makes { Makes (S.held shelf.old) (S.held shelf.new) (text_plan Listing algorithm.now) (text_in result) }
{
    let algorithm = read_algorithm(alloc, shelf, algorithm)?;
    Ok(print_listing(alloc, &algorithm.tree)?)
}

/// The listing of the flat graph of a tree.
fn print_listing(alloc: Global, tree: &Tree) -> Result<Vec<u8>, OutOfMemory>
    ensures { IfOk result (λ text. text.items ≡ listing (flat_of tree.now)) }
{
    let flat = flatten_tree(alloc, tree)?;
    let mut text = Vec::new(alloc);
    print_flat(alloc, &flat, &mut text)?;
    Ok(text)
}
