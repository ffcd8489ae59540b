//! A list of distinct names: `CaseTable`, in which the words of expressions and of macro-code are found.

ghost use Rattle.std.specs.Prelude.{◌≡◌, ◌↔◌, ◌<◌, ◌≤◌, ◌++◌, ◌∷◌, [], ℕ, Some, false, length, slice_get, bytes_eq, position};
ghost use Rattle.std.specs.List.{list_any};
ghost use Rattle.case_table.specs.Distinct.{AreDistinct};

use arrayvec::ArrayVec;
use std::marker::Model;

/// A list of distinct names, at most `N` of them, in a value that takes no memory. Contracts see the
/// list of the names' bytes.
#[derive(Drop)]
pub struct CaseTable<'a, const N: usize> {
    names: ArrayVec<&'a [u8], N>,
}

impl<'a, const N: usize> Model for CaseTable<'a, N> {
    ghost use Rattle.std.specs.Prelude.{List, ℕ, map, length, ◌≤◌};
    ghost use Rattle.case_table.specs.Distinct.{AreDistinct};

    ghost Value = { List (List ℕ) };

    ghost view = { λ t. map (λ name. name.now) t.names.items };

    ghost invariant = { λ t. (length t.names.items ≤ N) × AreDistinct (map (λ name. name.now) t.names.items) };
}

impl<'a, const N: usize> CaseTable<'a, N> {
    /// The empty table, for at most 64 names. It takes no memory.
    pub fn new() -> Self
        requires { N ≤ 64 }
        ensures { result ≡ [] }
    {
        CaseTable {
            names: ArrayVec::new(),
        }
    }

    /// Puts a name last, which has to differ from those that are there. It takes no memory.
    pub fn add(&mut self, name: &'a [u8])
        requires room { length self.old < N }
        requires other { list_any (bytes_eq name.now) self.old ≡ false }
        ensures { self.new ≡ self.old ++ name.now ∷ [] }
    {
        self.names.push(name);
    }

    /// The place of a name, counted from 0, and `None` exactly where it is not there. It takes no
    /// memory.
    pub fn find(&self, name: &[u8]) -> Option<usize>
        ensures { (i : ℕ) → (result ≡ Some i) ↔ (slice_get self.now i ≡ Some name.now) }
    {
        place_in(self.names.as_slice(), name)
    }

    /// That the names are distinct.
    pub fn is_distinct(&self)
        ensures { AreDistinct self.now }
    {
        // What holds of every table is known where a field is named.
        let _ = &self.names;
    }
}

/// The place of a name in a list.
fn place_in(names: &[&[u8]], name: &[u8]) -> Option<usize>
    ensures { result ≡ position (λ known. bytes_eq known.now name.now) names.now }
{
    names.iter().position(|known| *known == name)
}
