//! The resolved algorithm: the main graph with everything inside it, its synchronous meaning, and what every
//! pass of flattening keeps of it.
//!
//! `Vertex` and `Kind` are its parts, built by `algo_resolve` and by the passes of flattening; `Tree` is a
//! whole one, kept with its validity. `count_operations` says how many flat operations a vertex becomes, before
//! they are made. What the uses of a definition have in common, its name, its ports and its kind, stands in
//! memory once: resolving and the passes of flattening make vertices that share it (`syn_base` `Shared`,
//! `share_vertex`).
//!
//! The path of an operation is written as a text (`path_text`). Words stand where names are asked for
//! (`Named`), and numbers have 32 bits (`Bounded`): under these no two paths have one text, `texts_tell_paths`.
//! The laws of the passes say that both are kept; `flat_laws` names operations by these texts.
//!
//! `KeepsMeaning` says what a pass keeps: the meaning of the algorithm, and the values that are kept, path by
//! path. Beside it stands what the laws of several passes share: trees without repetitions, vertices of which
//! the kind alone is changed, lists and the parts of a level. The laws of the passes in `flat_laws` rest on it.
#![tactic(auto)]

mod count;
mod label_copies;
mod lens;
mod pass_laws;
mod path_laws;
mod shares;
mod tree;
mod vertex;

pub use count::count_operations;
pub use label_copies::{copy_bytes, copy_guards, copy_lens, copy_numbers, copy_part};
pub use lens::{fed_lens, source_len, source_lens};
pub use pass_laws::{same_nodes_keep_the_meaning, steps_keep_the_meaning};
pub use path_laws::texts_tell_paths;
pub use shares::{rebuild, share_each, share_kind, share_vertex, with_inside};
pub use tree::Tree;
pub use vertex::{Kind, Vertex};

// What the clauses here speak of: levels.
pub use level_meaning::{Feed, Give, Guard, Part, Source};
