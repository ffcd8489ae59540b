//! The place of a group, from which workers take it and to which they put it back.
ghost use Rattle.std.specs.Prelude.{◌≡◌, ◌<◌, IfSome};
ghost use Rattle.executive_run.specs.Places.{IsAtHome, IsPlaceOf};

use crate::group::Group;
use counted_slot::{Counted, FREE, Fits, MARKED, PRESENT, TAKEN};
use std::snapshot::Snapshot;
use std::sync::Wait;
use word_table::Fabric;

/// Whose place it is: the group of this number of a fabric.
#[derive(Drop)]
pub struct Home<'a> {
    pub fabric: Snapshot<Fabric<'a>>,
    pub group: u32,
}

impl<'a> Fits for Group<'a> {
    type Tag = Home<'a>;

    ghost fits = { λ home group. IsAtHome home group };
}

/// The place of a group. Its word is `FREE` while the group stands here and has steps to make, `MARKED` while a
/// worker has it, and `PRESENT` once it is finished and stands here.
#[derive(Drop)]
pub struct Place<'a> {
    pub(crate) slot: Counted<Option<Group<'a>>>,
}

impl<'a> Place<'a> {
    /// The place of a group, where it stands.
    pub fn new(fabric: &Fabric<'a>, group: Group<'a>) -> Place<'a>
        requires { group.driver.fabric ≡ fabric.now }
        ensures { IsPlaceOf fabric.now group.entry.driver.group result }
    {
        let home = Home {
            fabric: Snapshot::of(fabric),
            group: group.driver.group(),
        };
        Place {
            slot: Counted::new(Some(group), &home),
        }
    }

    /// Takes the group where the word is this one.
    fn take_at(&self, word: u64) -> Option<Group<'a>>
        requires { word < 2 }
        ensures { IfSome result (λ group. IsAtHome self.now.slot group) }
    {
        if self.slot.load() != word {
            return None;
        }
        let (found, claim) = self.slot.turn(word, TAKEN);
        if found != word {
            claim.done();
            return None;
        }
        claim.put(None, MARKED)
    }

    /// Takes the group, unless a worker has it or it is finished.
    pub fn take(&self) -> Option<Group<'a>>
        ensures { IfSome result (λ group. IsAtHome self.now.slot group) }
    {
        self.take_at(FREE)
    }

    /// Takes the group once it is finished.
    pub fn take_finished(&self) -> Option<Group<'a>>
        ensures { IfSome result (λ group. IsAtHome self.now.slot group) }
    {
        self.take_at(PRESENT)
    }

    /// Puts a group back that was taken, finished or to be taken again. No clause says that the word is still
    /// as the taking left it, so this tries until it is let, which is at once.
    pub fn put_back<R: Wait>(&self, rt: &R, group: Group<'a>, is_finished: bool)
        requires { IsAtHome self.now.slot group }
    {
        let word = if is_finished { PRESENT } else { FREE };
        'tries: for _ in rt.forever() {
            let (found, claim) = self.slot.turn(MARKED, TAKEN);
            if found == MARKED {
                claim.put(Some(group), word);
                return;
            }
            claim.done();
        }
        unreachable!()
    }
}
