//! What a word of a line is: a name, a number, a version or an end of an edge. The readers of all kinds of
//! lines call it.
ghost use Rattle.std.specs.Prelude.{◌≡◌, position};
ghost use Rattle.std.specs.List.{before_first, after_first};
ghost use Rattle.text_lines.specs.Refusals.{Has};
ghost use Rattle.algo_lines.specs.Given.{IsNamed};
ghost use Rattle.algo_text.specs.Words.{number_of, count_of, period_of, end_of, is_dot};
ghost use Rattle.algo_text.specs.Text.{version_of};

use crate::fault::bad_name;
use algo_text::{AlgoError, End};
use std::alloc::Global;
use syn_base::{Name, read_int};
use text_lines::read_name;

/// The name that a word of a line is, or the line's refusal where it is none.
pub fn line_name(alloc: Global, number: u32, w: &[u8]) -> Result<Name, AlgoError>
    ensures { IsNamed result number w.now }
{
    match read_name(alloc, w)? {
        Some(name) => Ok(name),
        None => Err(bad_name(alloc, number, w)),
    }
}

/// The number that a word is, if it is one.
pub fn read_number(w: &[u8]) -> Option<i64>
    ensures { result ≡ number_of w.now }
{
    match read_int(w) {
        Ok(v) => Some(v),
        Err(_) => None,
    }
}

/// The length or the number of copies that a word is: a number that is not below 1.
pub fn read_count(w: &[u8]) -> Option<u64>
    ensures { result ≡ count_of w.now }
{
    match read_number(w) {
        Some(v) => { if v > 0 { Some(v as u64) } else { None } }
        None => None,
    }
}

/// The number of a mark that a word is, from 1 to 16.
pub fn read_period(w: &[u8]) -> Option<u32>
    ensures { result ≡ period_of w.now }
{
    match read_count(w) {
        Some(n) => { if n <= 16 { Some(n as u32) } else { None } }
        None => None,
    }
}

/// The version that a word is, if there is such a version.
pub fn read_version(w: &[u8]) -> Option<u32>
    ensures { result ≡ version_of w.now }
{
    match w {
        b"1" => Some(1),
        b"2" => Some(2),
        b"3" => Some(3),
        _ => None,
    }
}

/// The place of the first dot.
fn dot_in(w: &[u8]) -> Option<usize>
    ensures { result ≡ position is_dot w.now }
{
    w.iter().position(|b| *b == b'.')
}

/// What stands before the first dot and what stands after it, or all and nothing where there is none.
fn around_dot(w: &[u8]) -> (&[u8], &[u8])
    ensures before { result.0.now ≡ before_first is_dot w.now }
    ensures after { result.1.now ≡ after_first is_dot w.now }
{
    match dot_in(w) {
        Some(dot) => (&w[..dot], &w[dot + 1..]),
        None => (w, &[]),
    }
}

/// The end of an edge, or none where the word is no end.
pub fn read_end(alloc: Global, w: &[u8]) -> Result<Option<End>, AlgoError>
    ensures { Has result (end_of w.now) }
{
    if let Some(port) = read_name(alloc, w)? {
        return Ok(Some(End { owner: None, port }));
    }
    let (owner, port) = around_dot(w);
    let Some(owner) = read_name(alloc, owner)? else {
        return Ok(None);
    };
    let Some(port) = read_name(alloc, port)? else {
        return Ok(None);
    };
    Ok(Some(End {
        owner: Some(owner),
        port,
    }))
}
