//! A list of numbers for each number, for the flat tables of the search.
use std::alloc::Global;
use syn_base::OutOfMemory;

/// For each number from 0 on a list of numbers.
#[derive(Drop)]
pub struct Lists {
    lists: Vec<Vec<u32>>,
}

impl Lists {
    /// This many empty lists.
    pub fn new(alloc: Global, count: usize) -> Result<Lists, OutOfMemory> {
        let mut lists = Vec::with_capacity(alloc, count)?;
        for _ in 0..count {
            lists.push(Vec::new(alloc))?;
        }
        Ok(Lists { lists })
    }

    /// The list of a number, which is empty where there is none.
    pub fn of(&self, number: u32) -> &[u32] {
        let place = number as usize;
        if place < self.lists.len() {
            return self.lists[place].as_slice();
        }
        &[]
    }

    /// How many items all lists have.
    pub fn total(&self) -> usize {
        let mut total = 0usize;
        for list in &self.lists {
            total = total.saturating_add(list.len());
        }
        total
    }

    /// Adds an item at the end of the list of a number, unless it is there.
    pub fn add(&mut self, number: u32, item: u32) -> Result<(), OutOfMemory> {
        let place = number as usize;
        if place < self.lists.len() {
            add_once(&mut self.lists[place], item)?;
        }
        Ok(())
    }
}

/// Adds an item at the end of a list, unless it is there.
fn add_once(list: &mut Vec<u32>, item: u32) -> Result<(), OutOfMemory> {
    if !list.as_slice().contains(&item) {
        list.push(item)?;
    }
    Ok(())
}
