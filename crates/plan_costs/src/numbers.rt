//! Places of tables that may not be there: what is read past the end is the greatest number, and what
//! is written there is lost. So the untrusted part of the search is safe whatever it computes.

/// What stands where there is no operation and no operator.
pub const NOBODY: u32 = u32::MAX;

/// The date of what does not happen.
pub const NEVER: u64 = u64::MAX;

/// The most operators of an architecture, and the most media of one: so long is a table of either.
pub const PLACES: usize = 16;

/// The same number, by which operators are counted.
pub(crate) const MOST_OPERATORS: u32 = 16;

/// The place of an output on an operator in a table of copies, which has `PLACES` places for each output.
pub(crate) fn place_of(output: u32, operator: u32) -> u32 {
    if operator >= MOST_OPERATORS {
        return NOBODY;
    }
    output
        .saturating_mul(MOST_OPERATORS)
        .saturating_add(operator)
}

/// The number at a place, `NOBODY` where there is none.
pub fn number_at(numbers: &[u32], place: u32) -> u32 {
    match numbers.get(place as usize) {
        Some(number) => *number,
        None => NOBODY,
    }
}

/// The date at a place, `NEVER` where there is none.
pub fn date_at(dates: &[u64], place: u32) -> u64 {
    match dates.get(place as usize) {
        Some(date) => *date,
        None => NEVER,
    }
}

/// Writes a number at a place, if there is one.
pub fn put_number(numbers: &mut [u32], place: u32, number: u32) {
    if let Some(it) = numbers.get_mut(place as usize) {
        *it = number;
    }
}

/// Writes a date at a place, if there is one.
pub fn put_date(dates: &mut [u64], place: u32, date: u64) {
    if let Some(it) = dates.get_mut(place as usize) {
        *it = date;
    }
}

/// Writes the same date at each place.
pub(crate) fn put_dates(dates: &mut [u64], date: u64) {
    for it in dates.iter_mut() {
        *it = date;
    }
}

/// Writes the same number at each place.
pub(crate) fn put_numbers(numbers: &mut [u32], number: u32) {
    for it in numbers.iter_mut() {
        *it = number;
    }
}

/// Copies numbers over as many others.
pub(crate) fn copy_numbers(numbers: &mut [u32], others: &[u32]) {
    if numbers.len() == others.len() {
        numbers.copy_from_slice(others);
    }
}
