//! A list of distinct names, in which a name is found: it has the words of expressions and of
//! macro-code.
//!
//! A `CaseTable` gives the place of a name, and `case_arms!` the case that stands at a place.
#![tactic(auto)]

mod table;

pub use table::CaseTable;

/// The case at a place: `case_arms!(place; first, second; else other)` is
/// `match place { 0 => first, 1 => second, _ => other }`.
///
/// It takes at most 64 cases. Only the case that is chosen is evaluated, so that it may also be a
/// `return`.
#[macro_export]
macro_rules! case_arms {
    ($place:expr; $($case:expr),+ $(,)?; else $other:expr) => {
        $crate::case_arms!(@number
            [0 1 2 3 4 5 6 7 8 9 10 11 12 13 14 15 16 17 18 19 20 21 22 23 24 25 26 27 28 29 30 31
            32 33 34 35 36 37 38 39 40 41 42 43 44 45 46 47 48 49 50 51 52 53 54 55 56 57 58 59 60 61 62 63]
            [$($case),+] [] $place; $other)
    };
    // The first case that is left gets the first number that is left.
    (@number [$number:literal $($numbers:literal)*] [$case:expr $(, $cases:expr)*] [$($arms:tt)*] $place:expr; $other:expr) => {
        $crate::case_arms!(@number [$($numbers)*] [$($cases),*] [$($arms)* $number => $case,] $place; $other)
    };
    (@number [] [$($cases:expr),+] [$($arms:tt)*] $place:expr; $other:expr) => {
        compile_error!("`case_arms!` takes at most 64 cases")
    };
    (@number [$($numbers:literal)*] [] [$($arms:tt)*] $place:expr; $other:expr) => {
        match $place {
            $($arms)*
            _ => $other,
        }
    };
}
