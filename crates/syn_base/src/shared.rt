//! A list with several owners: `Shared`.
ghost use Rattle.std.specs.Prelude.{◌≡◌, [], IfOk};

use crate::memory::OutOfMemory;
use std::alloc::Global;
use std::marker::Model;
use std::sync::Arc;

/// A list of values that is made once and shared; the last owner frees it. Two of them are equal in
/// contracts exactly where their elements are, whatever memory holds them.
#[derive(Drop)]
pub struct Shared<T: Drop> {
    items: Arc<Vec<T>, Global>,
}

impl<T: Drop> Model for Shared<T> {
    ghost use Rattle.std.specs.Prelude.{List};
    ghost use Rattle.std.specs.Arc.{arc_value};

    ghost Value = { List T };

    ghost view = { λ s. (arc_value s.items).items };
}

impl<T: Drop> Shared<T> {
    /// The list of these elements. Besides them it takes memory for one block.
    pub fn new(alloc: Global, items: Vec<T>) -> Result<Shared<T>, OutOfMemory>
        ensures { IfOk result (λ s. s ≡ items.items) }
    {
        let items = Arc::new(alloc, items)?;
        Ok(Shared { items })
    }

    /// A list without elements. It takes memory for one block.
    pub fn empty(alloc: Global) -> Result<Shared<T>, OutOfMemory>
        ensures { IfOk result (λ s. s ≡ []) }
    {
        Shared::new(alloc, Vec::new(alloc))
    }

    /// The same list once more. It takes no memory; `OutOfMemory` comes only where the list has as many
    /// owners as can be counted.
    pub fn share(&self) -> Result<Shared<T>, OutOfMemory>
        ensures { IfOk result (λ s. s ≡ self.now) }
    {
        let items = Arc::try_clone(&self.items)?;
        Ok(Shared { items })
    }

    /// A list without elements: this one again where it has none, which takes no memory.
    pub fn emptied(&self, alloc: Global) -> Result<Shared<T>, OutOfMemory>
        ensures { IfOk result (λ s. s ≡ []) }
    {
        if self.as_slice().is_empty() {
            self.share()
        } else {
            Shared::empty(alloc)
        }
    }

    /// The elements. It takes no memory.
    pub fn as_slice(&self) -> &[T]
        ensures { result.now ≡ self.now }
    {
        self.items.as_slice()
    }
}
