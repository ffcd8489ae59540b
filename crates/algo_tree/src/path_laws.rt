//! Laws of the texts of paths, each the contract of a function that does nothing.
ghost use Rattle.algo_tree.specs.Named.{TextsTellPaths};

/// Two paths of names and of numbers of 32 bits that have one text are one path.
pub fn texts_tell_paths()
    ensures { TextsTellPaths }
{}
