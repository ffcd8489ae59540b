//! The values of a constant or a delay, and the depth of a delay, for the lines of these definitions.
ghost use Rattle.std.specs.Prelude.{◌≡◌, ◌≤◌, length, drop, IfOk};
ghost use Rattle.text_lines.specs.Refusals.{GivesList, Steps};
ghost use Rattle.algo_text.specs.Text.{deep_delay, numbers_of};
ghost use Rattle.algo_text.specs.declared.definition.Body.TheVariants.{Delay};

use crate::fault::{bad_delay, bad_number};
use crate::word::read_number;
use algo_text::AlgoError;
use std::alloc::Global;
use syn_base::LimitKind;
use text_lines::{Words, check_limit};

/// The numbers that the words are from one on, or the first word that is none.
pub fn read_values(
    alloc: Global,
    number: u32,
    words: &Words,
    from: usize,
) -> Result<Vec<i64>, AlgoError>
    requires { from ≤ length words.now }
    ensures { GivesList result (numbers_of number (drop from words.now)) }
{
    let mut values = Vec::new(alloc);
    let mut at = from;
    while at < words.len() {
        let Some(value) = read_number(words.get(at)) else {
            return Err(bad_number(alloc, number, words.get(at)));
        };
        values.push(value)?;
        at += 1;
    }
    Ok(values)
}

/// The depth, from 1, of a delay with these values, or why the values are not as many groups of equal
/// length within the bounds.
pub fn delay_depth(number: u32, depth: u64, values: &[i64]) -> Result<u32, AlgoError>
    requires { 1 ≤ depth }
    ensures delay { Steps result (Delay depth values.now) (deep_delay number depth values.now) }
    ensures depth { IfOk result (λ d. d ≡ depth) }
{
    check_limit(LimitKind::Delay, u128::from(depth))?;
    let count = values.len() as u64;
    if count % depth != 0 {
        return Err(bad_delay(number));
    }
    let len = u128::from(count / depth);
    check_limit(LimitKind::PortLength, len)?;
    Ok(depth as u32)
}
