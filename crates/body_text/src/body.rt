//! Reading the text of an expression: `read_body`, for the reader of algorithm texts.
ghost use Rattle.std.specs.Prelude.{◌≡◌, ◌≤◌, length, map, slice_get};
ghost use Rattle.syn_base.specs.Limits.{most_in_text};
ghost use Rattle.body_text.specs.Cut.{placed_view};
ghost use Rattle.body_text.specs.Answers.{IsKnown};
ghost use Rattle.body_text.specs.Reads.{Reads, place_or};

use crate::fault::BodyFault;
use crate::read::{Read, Reader, Stop};
use crate::token::{Placed, count, tokens};
use body_lang::{Expr, Port};
use std::alloc::Global;
use syn_base::{LimitFault, LimitKind};

/// The expression of a text over these input ports, of which there are at most 4,000,000,000.
///
/// The refusals come in this order, whatever the text has further on: Limit where it has more than
/// 512 tokens, counted over the whole text, a bad token as one; BadExpression at the place of the
/// first token with which no expression's tokens can begin, or at the text's length where the tokens
/// end too early; UnknownPort at the place of the first name of a port that is none of the inputs.
/// OutOfMemory may come in place of anything but a Limit.
pub fn read_body(alloc: Global, text: &[u8], ports: &[Port]) -> Result<Expr, BodyFault>
    requires { length ports.now ≤ most_in_text }
    ensures { Reads (map (λ p. p.name) ports.now) text.now result }
{
    let count = count(text);
    let bound = LimitKind::Tokens.bound();
    if count as u128 > bound {
        return Err(BodyFault::Limit(LimitFault {
            which: LimitKind::Tokens,
            count: count as u128,
            bound,
        }));
    }
    let Ok(tokens) = tokens(alloc, text) else {
        return Err(BodyFault::OutOfMemory);
    };
    let placed = tokens.as_slice();
    let reader = Reader {
        alloc,
        tokens: placed,
        ports,
    };
    match reader.whole() {
        Ok(read) => with_known_ports(read, placed, text.len()),
        Err(Stop::At(at)) => Err(BodyFault::BadExpression(place(placed, at, text.len()))),
        Err(Stop::OutOfMemory) => Err(BodyFault::OutOfMemory),
    }
}

/// The expression that was read, or the place of the first name in it of a port that is none.
fn with_known_ports(read: Read, tokens: &[Placed<'_>], end: usize) -> Result<Expr, BodyFault>
    ensures { IsKnown (map placed_view tokens.now) end read result }
{
    match read.unknown {
        Some(token) => Err(BodyFault::UnknownPort(place(tokens, token, end))),
        None => Ok(read.value),
    }
}

/// The place of a token, or the end of the text after the last one.
fn place(tokens: &[Placed<'_>], token: usize, end: usize) -> usize
    ensures { result ≡ place_or end (slice_get (map placed_view tokens.now) token) }
{
    if token < tokens.len() {
        tokens[token].place
    } else {
        end
    }
}
