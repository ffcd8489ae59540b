//! Integers as texts: `read_int` and `print_int`, for the readers and writers of texts.
ghost use Rattle.std.specs.Prelude.{◌≡◌, ◌+◌, ◌*◌, ◌++◌, ◌^◌, ◌<◌, ◌≤◌, OnOk, OnErr, FitsSigned, ℤ, min, length, None, true, false};
ghost use Rattle.std.specs.Fmt.{signed_decimal};
ghost use Rattle.std.specs.Int.{w64};
ghost use Rattle.std.specs.List.{list_all};
ghost use Rattle.syn_base.specs.Name.{is_digit};
ghost use Rattle.syn_base.specs.Integer.{integer_of, signed, first_other, number_of, too_large, with_sign};

use crate::memory::OutOfMemory;
use itoa::Buffer;

/// Why a text is no integer.
#[derive(Clone, Copy, Debug, PartialEq, Eq)]
pub enum NumFault {
    /// Every byte fits, and there is no digit.
    Empty,
    /// The place of the first byte that is no digit, a `-` in place 0 aside.
    NotDigit(usize),
    /// The digits give a number outside the 64-bit signed ones.
    TooLarge,
}

/// A magnitude that no 64-bit signed number has.
const TOO_LARGE: u64 = 9_223_372_036_854_775_809;

/// The number of an optional `-` and one or more digits, leading zeros allowed. It takes no memory.
pub fn read_int(text: &[u8]) -> Result<i64, NumFault>
    ensures { result ≡ integer_of text.now }
{
    match text {
        [b'-', digits @ ..] => read_digits(true, 1, digits),
        _ => read_digits(false, 0, text),
    }
}

/// The number of digits after a sign, where the first digit has the place `from` in the text: a fault
/// tells the place of a byte in the whole text.
fn read_digits(negative: bool, from: usize, digits: &[u8]) -> Result<i64, NumFault>
    requires { from + length digits.now < 2 ^ 64 }
    ensures { result ≡ signed negative from digits.now }
{
    match other_byte(from, digits) {
        Some(place) => Err(NumFault::NotDigit(place)),
        None if digits.is_empty() => Err(NumFault::Empty),
        None => sign(negative, magnitude(digits)),
    }
}

/// The place of the first byte that is no digit, where the first byte has the place `from`.
fn other_byte(from: usize, digits: &[u8]) -> Option<usize>
    requires { from + length digits.now < 2 ^ 64 }
    ensures { result ≡ first_other from digits.now }
{
    for (i, byte) in digits.iter().enumerate() {
        if !byte.is_ascii_digit() {
            return Some(from + i);
        }
    }
    None
}

/// The number of the digits, or a magnitude that is too large where it is.
fn magnitude(digits: &[u8]) -> u64
    requires { list_all is_digit digits.now ≡ true }
    ensures { result ≡ min (number_of digits.now) too_large }
{
    let mut number = 0;
    for byte in digits {
        number = with_digit(number, u64::from(*byte - b'0'));
    }
    number
}

/// The number with one digit more, or `TOO_LARGE` where it is at least that: so no sum overflows,
/// however long the text is.
fn with_digit(number: u64, digit: u64) -> u64
    requires number { number ≤ too_large }
    requires digit { digit < 10 }
    ensures { result ≡ min (10 * number + digit) too_large }
{
    if number > (TOO_LARGE - digit) / 10 {
        TOO_LARGE
    } else {
        10 * number + digit
    }
}

/// The number with this sign and magnitude, where 64 bits hold it.
fn sign(negative: bool, magnitude: u64) -> Result<i64, NumFault>
    ensures { result ≡ with_sign negative magnitude }
{
    match (negative, magnitude) {
        (true, 9_223_372_036_854_775_808) => Ok(i64::MIN),
        (true, 0..=9_223_372_036_854_775_807) => Ok(-(magnitude as i64)),
        (false, 0..=9_223_372_036_854_775_807) => Ok(magnitude as i64),
        _ => Err(NumFault::TooLarge),
    }
}

/// Appends the shortest decimal of a number. After want of memory the text is as before.
pub fn print_int(v: i64, out: &mut Vec<u8>) -> Result<(), OutOfMemory>
    ensures ok { OnOk result (out.new.items ≡ out.old.items ++ signed_decimal v) }
    ensures err { OnErr result (out.new.items ≡ out.old.items) }
{
    let mut buffer = Buffer::new();
    out.extend_from_slice(buffer.format(v).as_bytes())?;
    Ok(())
}

/// What is printed is read back as the same number.
#[tactic(auto, using(crate::proofs::Decimal::reads_back))]
pub fn printed_reads_back()
    ensures { (v : ℤ) → FitsSigned w64 v → integer_of (signed_decimal v) ≡ Ok v }
{}
