//! The lengths of outputs and sources. `valid`, `forms` and `twins` call it.
ghost use Rattle.std.specs.Prelude.{◌≡◌, ◌==◌, ◌&&◌, length, nat_le, slice_index_or, sum};
ghost use Rattle.std.specs.List.{list_all, sum_by};
ghost use Rattle.flat_graph.specs.Graph.{len_of, lens_of};
ghost use Rattle.flat_graph.specs.Valid.{are_equal, is_len, is_only};

use crate::vertex::{Source, Vertex};
use syn_base::len_at;

/// The most elements of an output, and the most outputs.
const MOST: usize = 64;

/// The length of a source, 0 where there is none.
pub fn len_of(vertices: &[Vertex], source: Source) -> u32
    ensures { result ≡ len_of vertices.now source }
{
    match vertices.get(source.vertex as usize) {
        Some(vertex) => len_at(vertex.outs.as_slice(), source.port as usize),
        None => 0,
    }
}

/// Whether there are at most 64 outputs of 1 to 64 elements.
pub fn are_lens(lens: &[u32]) -> bool
    ensures { result ≡ (nat_le (length lens.now) 64 && list_all is_len lens.now) }
{
    lens.len() <= MOST && are_all_lens(lens)
}

/// Whether each length is from 1 to 64.
fn are_all_lens(lens: &[u32]) -> bool
    ensures { result ≡ list_all is_len lens.now }
{
    lens.iter().all(|len| is_len(*len))
}

/// Whether this is a length from 1 to 64.
fn is_len(len: u32) -> bool
    ensures { result ≡ is_len len }
{
    1 <= len && (len as usize) <= MOST
}

/// Whether each source is there.
pub fn are_there(vertices: &[Vertex], sources: &[Source]) -> bool
    ensures { result ≡ list_all (nat_le 1) (lens_of vertices.now sources.now) }
{
    for source in sources {
        if len_of(vertices, *source) < 1 {
            return false;
        }
    }
    true
}

/// Whether this is the one length.
pub fn is_only(len: usize, lens: &[u32]) -> bool
    ensures { result ≡ is_only len lens.now }
{
    match lens {
        [only] => *only as usize == len,
        _ => false,
    }
}

/// Whether the lengths add up to this one.
pub fn adds_up(len: u32, parts: &[u32]) -> bool
    ensures { result ≡ (len == sum parts.now) }
{
    let mut left = len;
    for part in parts {
        if left < *part {
            return false;
        }
        left -= *part;
    }
    left == 0
}

/// Whether the lengths of the sources add up to this one.
pub fn sources_add_up(vertices: &[Vertex], len: u32, sources: &[Source]) -> bool
    ensures { result ≡ (len == sum_by (len_of vertices.now) sources.now) }
{
    let mut left = len;
    for source in sources {
        let part = len_of(vertices, *source);
        if left < part {
            return false;
        }
        left -= part;
    }
    left == 0
}

/// Whether all of these lengths are the same.
pub fn are_equal(lens: &[u32]) -> bool
    ensures { result ≡ are_equal lens.now }
{
    match lens {
        [] => true,
        [first, others @ ..] => are_all(*first, others),
    }
}

/// Whether each of these is this length.
fn are_all(len: u32, lens: &[u32]) -> bool
    ensures { result ≡ list_all (λ n. n == len) lens.now }
{
    lens.iter().all(|other| *other == len)
}

/// Whether all of these sources have the same length.
pub fn are_equally_long(vertices: &[Vertex], sources: &[Source]) -> bool
    ensures { result ≡ are_equal (lens_of vertices.now sources.now) }
{
    match sources {
        [] => true,
        [first, others @ ..] => have_length(vertices, len_of(vertices, *first), others),
    }
}

/// Whether each source has this length.
fn have_length(vertices: &[Vertex], len: u32, sources: &[Source]) -> bool
    ensures { result ≡ list_all (λ s. len_of vertices.now s == len) sources.now }
{
    sources
        .iter()
        .all(|source| len_of(vertices, *source) == len)
}
