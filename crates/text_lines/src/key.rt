//! The key of the hash by which a table of names finds them.
ghost use Rattle.std.specs.Iterator.{IsFinite};

use sha2::{Digest, Sha256};
use std::hash::{BuildHasher, DefaultHasher, Hasher};

/// What ends a name in what a key is made of. No name has it, so that the names cannot be cut anew
/// without another key.
const NAME_END: &[u8] = b"\n";

/// The key of a hash of names. It comes from a digest of all that is put in, so that whoever chooses
/// names which collide would have to choose their digest as well.
#[derive(Clone, Copy)]
pub struct TableKey {
    /// The hash of each name goes on from here, where the key is taken in.
    keyed: DefaultHasher,
}

impl TableKey {
    /// The key for names that stand in a text.
    pub fn of_text(text: &[u8]) -> TableKey {
        TableKey::of_digest(Sha256::digest(text))
    }

    /// The key for these names, where they stand in no text.
    pub fn of_names<'a, I: Iterator<Item = &'a [u8]> + Drop>(names: I) -> TableKey
        requires can { I.can_next names }
        requires finite { IsFinite (I.remaining names) }
    {
        let mut digest = Sha256::new();
        for name in names {
            digest.update(name);
            digest.update(NAME_END);
        }
        TableKey::of_digest(digest.finalize())
    }

    /// The key that a digest begins with, in eight bytes.
    fn of_digest(digest: [u8; 32]) -> TableKey {
        let mut keyed = DefaultHasher::new();
        keyed.write(&digest[..8]);
        TableKey { keyed }
    }
}

impl BuildHasher for TableKey {
    type Hasher = DefaultHasher;

    ghost build_hasher = { λ k. k.keyed };

    fn build_hasher(&self) -> DefaultHasher {
        self.keyed
    }
}
