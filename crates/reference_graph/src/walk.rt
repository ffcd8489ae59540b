//! A walk over all vertices, each left after those that it refers to.
ghost use Rattle.std.specs.Prelude.{◌≤◌, length};
ghost use Rattle.syn_base.specs.Limits.{most_in_text};

use std::alloc::Global;
use syn_base::{Items, OutOfMemory};

/// What is known of a vertex on the walk.
#[derive(Clone, Copy)]
struct Mark {
    /// When it was entered, counted from 1; 0 before.
    entered: u32,
    /// The earliest time at which a vertex was entered that it is known to lead to.
    earliest: u32,
    /// How many of its references were followed.
    followed: usize,
}

/// A walk that follows the references of each vertex before it leaves it. Its order and its ranks
/// carry no clause: those who use them check what they show.
#[derive(Drop)]
pub struct Walk {
    marks: Vec<Mark>,
    /// For each vertex when its component was complete, counted from 1; 0 before. Vertices that reach
    /// each other are of one component.
    ranks: Vec<u32>,
    /// The vertices entered and not left, each a reference of the one before.
    path: Vec<u32>,
    /// The vertices entered whose component is not complete.
    held: Vec<u32>,
    /// The vertices left, in that order.
    order: Vec<u32>,
    entries: u32,
    components: u32,
}

impl Walk {
    /// The walk over all vertices, in time and memory in proportion to vertices and links.
    pub fn over(alloc: Global, links: &[Items<u32>]) -> Result<Walk, OutOfMemory>
        requires { length links.now ≤ most_in_text }
    {
        let mut walk = Walk::start(alloc, links.len())?;
        let steps = steps_of(links);
        for root in 0..links.len() {
            walk.walk_from(links, root as u32, steps)?;
        }
        Ok(walk)
    }

    /// The vertices, each after those that it refers to where nothing reaches itself.
    pub fn order(&self) -> &[u32] {
        &self.order
    }

    /// For each vertex a number that no reference raises, and that a reference keeps only where it
    /// leads back.
    pub fn ranks(&self) -> &[u32] {
        &self.ranks
    }

    /// A walk that has entered no vertex.
    fn start(alloc: Global, count: usize) -> Result<Walk, OutOfMemory> {
        let unseen = Mark {
            entered: 0,
            earliest: 0,
            followed: 0,
        };
        Ok(Walk {
            marks: vec![in alloc; unseen; count]?,
            ranks: vec![in alloc; 0u32; count]?,
            path: Vec::new(alloc),
            held: Vec::new(alloc),
            order: Vec::new(alloc),
            entries: 0,
            components: 0,
        })
    }

    /// Enters a vertex, where that has not happened, and goes on until all that was entered is left.
    fn walk_from(
        &mut self,
        links: &[Items<u32>],
        root: u32,
        steps: usize,
    ) -> Result<(), OutOfMemory> {
        if self.mark(root).entered == 0 {
            self.enter(root)?;
        }
        for _step in 0..steps {
            let Some(a) = self.top() else {
                break;
            };
            self.step(links, a)?;
        }
        Ok(())
    }

    /// Follows the next reference of a vertex, or leaves it where none is left.
    fn step(&mut self, links: &[Items<u32>], a: u32) -> Result<(), OutOfMemory> {
        match self.next_reference(links, a) {
            Some(b) => self.follow(a, b),
            None => self.leave(a),
        }
    }

    /// The next reference of a vertex, which is followed with this.
    fn next_reference(&mut self, links: &[Items<u32>], a: u32) -> Option<u32> {
        let refs = links.get(a as usize)?.as_slice();
        let mark = self.marks.get_mut(a as usize)?;
        let b = refs.get(mark.followed)?;
        mark.followed = mark.followed.saturating_add(1);
        Some(*b)
    }

    /// Enters the target of a reference, or notes that the vertex leads back to it.
    fn follow(&mut self, a: u32, b: u32) -> Result<(), OutOfMemory> {
        let entered = self.mark(b).entered;
        if entered == 0 {
            return self.enter(b);
        }
        if self.rank(b) == 0 {
            self.leads_to(a, entered);
        }
        Ok(())
    }

    /// Enters a vertex: it is last on the path, and its component is not complete.
    fn enter(&mut self, a: u32) -> Result<(), OutOfMemory> {
        self.entries = self.entries.saturating_add(1);
        let entered = self.entries;
        if let Some(mark) = self.marks.get_mut(a as usize) {
            mark.entered = entered;
            mark.earliest = entered;
        }
        self.path.push(a)?;
        self.held.push(a)?;
        Ok(())
    }

    /// Leaves the last vertex of the path, and completes its component where it is the first of it.
    fn leave(&mut self, a: u32) -> Result<(), OutOfMemory> {
        let _left = self.path.pop();
        self.order.push(a)?;
        let mark = self.mark(a);
        if mark.earliest == mark.entered {
            self.complete(a);
        }
        if let Some(before) = self.top() {
            self.leads_to(before, mark.earliest);
        }
        Ok(())
    }

    /// Completes the component of a vertex: those held since it was entered.
    fn complete(&mut self, a: u32) {
        self.components = self.components.saturating_add(1);
        let rank = self.components;
        while let Some(member) = self.held.pop() {
            if let Some(place) = self.ranks.get_mut(member as usize) {
                *place = rank;
            }
            if member == a {
                break;
            }
        }
    }

    /// Notes that a vertex leads to one that was entered at this time.
    fn leads_to(&mut self, a: u32, entered: u32) {
        if let Some(mark) = self.marks.get_mut(a as usize) {
            mark.earliest = mark.earliest.min(entered);
        }
    }

    /// The last vertex of the path.
    fn top(&self) -> Option<u32> {
        self.path.last().copied()
    }

    /// What is known of a vertex.
    fn mark(&self, a: u32) -> Mark {
        match self.marks.get(a as usize) {
            Some(mark) => *mark,
            None => Mark {
                entered: 0,
                earliest: 0,
                followed: 0,
            },
        }
    }

    /// When the component of a vertex was complete; 0 before.
    fn rank(&self, a: u32) -> u32 {
        self.ranks.get(a as usize).copied().unwrap_or(0)
    }
}

/// How many steps a walk makes at most: each vertex is left once, and each reference followed once.
fn steps_of(links: &[Items<u32>]) -> usize {
    let mut steps = links.len();
    for row in links {
        steps = steps.saturating_add(row.as_slice().len());
    }
    steps
}
