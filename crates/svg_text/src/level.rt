//! The heights of values.
ghost use Rattle.std.specs.Prelude.{◌≡◌, ◌≤◌, ◌<◌, ◌^◌};
ghost use Rattle.svg_text.specs.Level.{level, raised};

use crate::range::Range;

/// Half of all values of 64 bits.
const HALF: u64 = 9_223_372_036_854_775_808;

/// The height of a value, down from the top of its panel.
pub fn level(range: Range, value: i64) -> u64
    ensures { result ≡ level range value }
{
    let low = raised(range.low);
    let rise = raised(value).saturating_sub(low);
    let whole = raised(range.high).saturating_sub(low).max(1);
    120u128.saturating_sub(120 * rise as u128 / whole as u128) as u64
}

/// How far a value of 64 bits is above the least one that there is.
fn raised(value: i64) -> u64
    ensures { result ≡ raised value }
{
    if value < 0 {
        HALF - value.unsigned_abs()
    } else {
        HALF + value.unsigned_abs()
    }
}
