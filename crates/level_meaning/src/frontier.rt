//! The frontier of a repetition: how fork, diffuse, iterate and join lines feed its copies and give its outputs.
use syn_base::Items;

/// How an input of a repeated body is fed in each copy.
#[derive(Drop)]
pub enum Feed {
    /// Fork: copy i takes part i of an outer input. The outer port's name, the outer input's
    /// number and the length of a part.
    Fork(Items<u8>, u32, u32),
    /// Diffuse: each copy takes the outer input of this number.
    Diffuse(u32),
    /// Iterate: copy 0 takes the outer input of the first number, copy i + 1 the body's output of
    /// the second number in copy i.
    Iterate(u32, u32),
}

/// An output of a repetition, from the body's output of a number.
#[derive(Drop)]
pub enum Give {
    /// Iterate: that output of the last copy.
    Last(u32),
    /// Join: that output of all copies, one after another. The outer port's name stands first.
    Join(Items<u8>, u32),
}
