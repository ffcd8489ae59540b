//! The lengths of the values in a level, by their sources: for whoever checks a tree, or lays out its values.
ghost use Rattle.std.specs.Prelude.{◌≡◌, [], IfOk, map, slice_index_or};
ghost use Rattle.algo_tree.specs.Typed.{outs_of, source_length, fed_length};
ghost use Rattle.algo_tree.specs.View.{vertices_view};

use crate::vertex::Vertex;
use level_meaning::{Feed, Source};
use std::alloc::Global;
use syn_base::{OutOfMemory, len_at};

/// The length of the value of a source, 0 where there is none.
pub fn source_len(own: &[u32], vertices: &[Vertex], source: Source) -> u32
    ensures { result ≡ source_length own.now (outs_of (vertices_view vertices.now)) source }
{
    match source {
        Source::Own(input) => len_at(own, input as usize),
        Source::Of(vertex, port) => output_len(vertices, vertex as usize, port as usize),
    }
}

/// The length of an output of a vertex, 0 where there is none.
fn output_len(vertices: &[Vertex], vertex: usize, port: usize) -> u32
    ensures { result ≡ slice_index_or (slice_index_or (outs_of (vertices_view vertices.now)) vertex []) port 0 }
{
    if vertex < vertices.len() {
        len_at(vertices[vertex].outs.as_slice(), port)
    } else {
        0
    }
}

/// The lengths of the values of these sources.
pub fn source_lens(
    alloc: Global,
    own: &[u32],
    vertices: &[Vertex],
    sources: &[Source],
) -> Result<Vec<u32>, OutOfMemory>
    ensures { IfOk result (λ lens. lens.items ≡
        map (source_length own.now (outs_of (vertices_view vertices.now))) sources.now) }
{
    let mut lens = Vec::new(alloc);
    for source in sources {
        lens.push(source_len(own, vertices, *source))?;
    }
    Ok(lens)
}

/// The lengths of the inputs of a body that these lines feed.
pub fn fed_lens(alloc: Global, lens: &[u32], feeds: &[Feed]) -> Result<Vec<u32>, OutOfMemory>
    ensures { IfOk result (λ fed. fed.items ≡ map (fed_length lens.now) feeds.now) }
{
    let mut fed = Vec::new(alloc);
    for feed in feeds {
        fed.push(fed_len(lens, feed))?;
    }
    Ok(fed)
}

/// The length of the input of a body that this line feeds.
fn fed_len(lens: &[u32], feed: &Feed) -> u32
    ensures { result ≡ fed_length lens.now feed.now }
{
    match feed {
        Feed::Fork(_, _, len) => *len,
        Feed::Diffuse(input) => len_at(lens, *input as usize),
        Feed::Iterate(input, _) => len_at(lens, *input as usize),
    }
}
