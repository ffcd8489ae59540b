//! The expression of an output, for the line of an output of a function.
ghost use Rattle.std.specs.Prelude.{◌≡◌, ◌≤◌, length, map, position, drop};
ghost use Rattle.syn_base.specs.Limits.{most_in_text};
ghost use Rattle.text_lines.specs.Refusals.{Gives};
ghost use Rattle.algo_text.specs.Formulas.{formula_of};
ghost use Rattle.algo_lines.specs.Lines.{name_length, name_from, is_other};

use crate::fault::{bad_expression, unknown};
use algo_text::{AlgoError, Formula, Port};
use body_text::{BodyFault, read_body};
use std::alloc::Global;

/// Whether a byte may stand in no name.
fn is_other_byte(b: u8) -> bool
    ensures { result ≡ is_other b }
{
    !(b.is_ascii_alphanumeric() || b == b'_')
}

/// The place of the first byte that may stand in no name.
fn other_in(text: &[u8]) -> Option<usize>
    ensures { result ≡ position is_other text.now }
{
    text.iter().position(|b| is_other_byte(*b))
}

/// How many bytes at the front may be a name's, up to 32.
#[tactic(auto, using(crate::proofs::FrontNames::found_length, crate::proofs::FrontNames::missing_length))]
fn name_length(text: &[u8]) -> usize
    ensures length { result ≡ name_length text.now }
    ensures within { result ≤ length text.now }
{
    match other_in(text) {
        Some(n) => n.min(32),
        None => text.len().min(32),
    }
}

/// The bytes from a place on.
fn text_from(text: &[u8], place: usize) -> &[u8]
    requires { place ≤ length text.now }
    ensures { result.now ≡ drop place text.now }
{
    &text[place..]
}

/// The bytes at the front that may be a name's, up to 32.
fn name_in_front(text: &[u8]) -> &[u8]
    ensures { result.now ≡ name_from text.now 0 }
{
    &text[..name_length(text)]
}

/// The name that stands at a place of a text.
fn name_at(text: &[u8], place: usize) -> &[u8]
    ensures { result.now ≡ name_from text.now place }
{
    if place >= text.len() {
        return &[];
    }
    name_in_front(text_from(text, place))
}

/// The expression that a text is over these ports, or the line's refusal.
pub fn read_formula(
    alloc: Global,
    number: u32,
    ports: &[Port],
    text: &[u8],
) -> Result<Formula, AlgoError>
    requires { length ports.now ≤ most_in_text }
    ensures { Gives result (formula_of number (map (λ p. p.name) ports.now) text.now) }
{
    match read_body(alloc, text, ports) {
        Ok(expr) => Ok(Formula::new(expr)),
        Err(BodyFault::Limit(fault)) => Err(AlgoError::Limit(fault)),
        Err(BodyFault::BadExpression(place)) => Err(bad_expression(number, place)),
        Err(BodyFault::UnknownPort(place)) => Err(unknown(alloc, number, name_at(text, place))),
        Err(BodyFault::OutOfMemory) => Err(AlgoError::OutOfMemory),
    }
}
