//! The least and the greatest value of an actuator.
ghost use Rattle.std.specs.Prelude.{◌≡◌, ◌<◌, pos, length, slice_index_or, int_lt, if◌then◌else◌};
ghost use Rattle.syn_base.specs.Rows.{element};
ghost use Rattle.svg_text.specs.Level.{greatest, greatest_in, least, least_in, range_of};

use syn_base::ActRows;

/// From the least to the greatest value of an actuator.
#[derive(Clone, Copy, Debug, PartialEq, Eq)]
pub struct Range {
    pub low: i64,
    pub high: i64,
}

/// The range of the values of an actuator, 0 to 0 where it has none.
pub fn range_of(rows: &ActRows, actuator: usize) -> Range
    requires { actuator < length rows.now.lens }
    ensures { result ≡ range_of actuator rows.now.reactions }
{
    let first = first_of(rows, actuator);
    Range {
        low: least_in(rows, actuator, first),
        high: greatest_in(rows, actuator, first),
    }
}

/// The first value of an actuator, or 0.
fn first_of(rows: &ActRows, actuator: usize) -> i64
    requires { actuator < length rows.now.lens }
    ensures { result ≡ element rows.now.reactions 0 actuator 0 }
{
    value_of(rows, 0, actuator, 0)
}

/// An element of an actuator in a reaction, 0 where there is none.
pub fn value_of(rows: &ActRows, reaction: usize, actuator: usize, place: usize) -> i64
    requires { actuator < length rows.now.lens }
    ensures { result ≡ element rows.now.reactions reaction actuator place }
{
    if reaction < rows.count() {
        value_at(rows.vector(reaction, actuator), place)
    } else {
        0
    }
}

/// The value at a place, 0 where there is none.
fn value_at(values: &[i64], place: usize) -> i64
    ensures { result ≡ slice_index_or values.now place (pos 0) }
{
    if place < values.len() {
        values[place]
    } else {
        0
    }
}

/// The least of a value and of all values of an actuator.
fn least_in(rows: &ActRows, actuator: usize, first: i64) -> i64
    requires { actuator < length rows.now.lens }
    ensures { result ≡ least_in actuator first rows.now.reactions }
{
    let mut low = first;
    for k in 0..rows.count() {
        low = least(rows.vector(k, actuator), low);
    }
    low
}

/// The greatest of a value and of all values of an actuator.
fn greatest_in(rows: &ActRows, actuator: usize, first: i64) -> i64
    requires { actuator < length rows.now.lens }
    ensures { result ≡ greatest_in actuator first rows.now.reactions }
{
    let mut high = first;
    for k in 0..rows.count() {
        high = greatest(rows.vector(k, actuator), high);
    }
    high
}

/// The least of a value and of these.
fn least(values: &[i64], first: i64) -> i64
    ensures { result ≡ least first values.now }
{
    let mut low = first;
    for value in values {
        low = lesser(*value, low);
    }
    low
}

/// The greatest of a value and of these.
fn greatest(values: &[i64], first: i64) -> i64
    ensures { result ≡ greatest first values.now }
{
    let mut high = first;
    for value in values {
        high = greater(*value, high);
    }
    high
}

/// The value, where it is less than the other.
fn lesser(value: i64, low: i64) -> i64
    ensures { result ≡ (if int_lt value low then value else low) }
{
    if value < low { value } else { low }
}

/// The value, where it is greater than the other.
fn greater(value: i64, high: i64) -> i64
    ensures { result ≡ (if int_lt high value then value else high) }
{
    if high < value { value } else { high }
}
