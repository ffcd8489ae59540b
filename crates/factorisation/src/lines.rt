//! The lines that feed the body of a repetition, in the order in which they stand in the text. `pass` puts them in
//! order, and `frontier` looks for the place of one.
ghost use Rattle.std.specs.Prelude.{◌≡◌, ◌≤◌, ◌<◌, IfOk, length, map};
ghost use Rattle.std.specs.List.{insert};
ghost use Rattle.algo_tree.specs.Well.{fork_names};
ghost use Rattle.flat_laws.specs.Lines.{fork_place, in_line_order as ordered, outer_of as outer_input, put_line};

use algo_tree::Feed;
use std::alloc::Global;
use syn_base::OutOfMemory;

/// The outer input that a line names.
fn outer_of(line: &Feed) -> u32
    ensures { result ≡ outer_input line.now }
{
    match line {
        Feed::Fork(_, input, _) => *input,
        Feed::Diffuse(input) => *input,
        Feed::Iterate(input, _) => *input,
    }
}

/// The place of a line among these: before the first that does not stand before it.
fn place_for(line: &Feed, lines: &[&Feed]) -> usize
    ensures within { result ≤ length lines.now }
    ensures put { insert (map (λ f. f.now) lines.now) result line.now ≡ put_line line.now (map (λ f. f.now) lines.now) }
{
    let mut place = 0;
    while place < lines.len() && outer_of(lines[place]) < outer_of(line) {
        place += 1;
    }
    place
}

/// The lines in order: a tree has them by the inputs of the body, and numbers the outer inputs line by
/// line.
pub fn in_line_order(alloc: Global, feeds: &[Feed]) -> Result<Vec<&Feed>, OutOfMemory>
    ensures { IfOk result (λ lines. map (λ f. f.now) lines.items ≡ ordered feeds.now) }
{
    let mut lines = Vec::new(alloc);
    for left in (0..feeds.len()).rev() {
        let line = &feeds[left];
        let place = place_for(line, &lines);
        lines.insert(place, line)?;
    }
    Ok(lines)
}

/// The number of the fork line of this outer port among the fork lines.
pub fn place_of(name: &[u8], lines: &[&Feed]) -> u32
    requires { length (fork_names (map (λ f. f.now) lines.now)) ≤ 2048 }
    ensures { result ≡ fork_place name.now (map (λ f. f.now) lines.now) }
{
    let mut place = 0;
    for line in lines {
        if let Feed::Fork(port, ..) = line {
            if name == port.as_slice() {
                return place;
            }
            place += 1;
        }
    }
    place
}
