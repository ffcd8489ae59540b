//! The architecture, kept whole: its operators, its media and the depth of its buffers, valid.
//! Every crate that places, builds or runs takes one.
use crate::medium::{Medium, Seq};
use crate::sequences::all_sequences;
use std::alloc::Global;
use std::marker::Model;
use syn_base::{Name, OutOfMemory};

/// Operators and media that are valid, as `is_archi` tells, and the depth of the buffers: how many
/// places a buffer between two sequences has, 1 to 4. Operators and media are numbered from 0 in
/// order. Contracts see the operators' names, the media and the depth.
pub struct Archi {
    operators: Vec<Name>,
    media: Vec<Medium>,
    depth: u32,
}

/// By hand, so that a proof walks through what it drops here alone, and not on each way out of each
/// function that owns one.
impl Drop for Archi {
    fn drop(self) {
        let Archi {
            operators: _,
            media: _,
            depth: _,
        } = self;
    }
}

impl Model for Archi {
    ghost use Rattle.std.specs.Prelude.{IsTrue};
    ghost use Rattle.archi_graph.specs.Archi.{Architecture, is_archi, is_depth};

    ghost Value = { Architecture };

    ghost view = { λ s. record { operators = s.operators.items; media = s.media.items; depth = s.depth } };

    ghost invariant = { λ s. record {
      valid : IsTrue (is_archi s.operators.items s.media.items);
      depth : IsTrue (is_depth s.depth);
    } };
}

impl Archi {
    ghost use Rattle.std.specs.Prelude.{◌≡◌, IsTrue, IfOk};
    ghost use Rattle.archi_graph.specs.Archi.{is_archi, is_depth};
    ghost use Rattle.archi_graph.specs.Sequences.{sequences};

    /// The architecture of these operators and media, whose buffers have one place. It takes no
    /// memory.
    pub fn new(operators: Vec<Name>, media: Vec<Medium>) -> Archi
        requires { IsTrue (is_archi operators.items media.items) }
        ensures { result ≡ record { operators = operators.items; media = media.items; depth = 1 } }
    {
        Archi::with_depth(operators, media, 1)
    }

    /// The architecture of these operators and media, whose buffers have 1 to 4 places. It takes no
    /// memory.
    pub fn with_depth(operators: Vec<Name>, media: Vec<Medium>, depth: u32) -> Archi
        requires valid { IsTrue (is_archi operators.items media.items) }
        requires depth { IsTrue (is_depth depth) }
        ensures { result ≡ record { operators = operators.items; media = media.items; depth = depth } }
    {
        Archi {
            operators,
            media,
            depth,
        }
    }

    /// The operators' names.
    pub fn operators(&self) -> &[Name]
        ensures same { result.now ≡ self.now.operators }
        ensures valid { IsTrue (is_archi self.now.operators self.now.media) }
    {
        self.operators.as_slice()
    }

    /// The media.
    pub fn media(&self) -> &[Medium]
        ensures same { result.now ≡ self.now.media }
        ensures valid { IsTrue (is_archi self.now.operators self.now.media) }
    {
        self.media.as_slice()
    }

    /// How many places a buffer between two sequences has, 1 to 4. It takes no memory.
    pub fn depth(&self) -> u32
        ensures same { result ≡ self.now.depth }
        ensures valid { IsTrue (is_depth self.now.depth) }
    {
        self.depth
    }

    /// The sequences, by their number: operator by operator its computation sequence, then its
    /// communicators by the number of the medium.
    pub fn sequences(&self, alloc: Global) -> Result<Vec<Seq>, OutOfMemory>
        ensures { IfOk result (λ s. s.items ≡ sequences self.now) }
    {
        all_sequences(alloc, self.operators.len(), self.media.as_slice())
    }
}
