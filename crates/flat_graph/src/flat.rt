//! The flat graph as one value, which is valid as long as it lives.
use crate::vertex::Vertex;
use body_lang::Body;
use std::marker::Model;

/// Operations and bodies that are valid, as `is_flat` decides. Operations are numbered from 0 in order,
/// and bodies may be shared with others. Contracts see the list of the operations, and the bodies as
/// plain expressions.
pub struct Flat {
    vertices: Vec<Vertex>,
    bodies: Vec<Body>,
}

/// By hand, so that a proof walks through what it drops here alone, and not on each way out of each
/// function that owns one.
impl Drop for Flat {
    fn drop(self) {
        let Flat {
            vertices: _,
            bodies: _,
        } = self;
    }
}

impl Model for Flat {
    ghost use Rattle.flat_graph.specs.Graph.{Graph, graph_code};
    ghost use Rattle.body_lang.specs.Code.{expr_code};
    ghost use Rattle.std.specs.Coded.{codes};

    ghost Value = { Graph };

    ghost coded = { graph_code (Prim.hlevel codes) (expr_code (Prim.hlevel codes)) };

    ghost use Rattle.std.specs.Prelude.{IsTrue};
    ghost use Rattle.flat_graph.specs.Valid.{is_flat};

    ghost view = { λ s. record { vertices = s.vertices.items; bodies = s.bodies.items } };

    ghost invariant = { λ s. IsTrue (is_flat (record { vertices = s.vertices.items; bodies = s.bodies.items })) };
}

impl Flat {
    ghost use Rattle.std.specs.Prelude.{◌≡◌, IsTrue};
    ghost use Rattle.flat_graph.specs.Valid.{is_flat};

    /// The flat graph of these operations and bodies. It takes no memory.
    pub fn new(vertices: Vec<Vertex>, bodies: Vec<Body>) -> Flat
        requires { IsTrue (is_flat (record { vertices = vertices.items; bodies = bodies.items })) }
        ensures { result ≡ record { vertices = vertices.items; bodies = bodies.items } }
    {
        Flat { vertices, bodies }
    }

    /// The operations.
    pub fn vertices(&self) -> &[Vertex]
        ensures same { result.now ≡ self.now.vertices }
        ensures valid { IsTrue (is_flat self.now) }
    {
        self.vertices.as_slice()
    }

    /// The bodies of functions.
    pub fn bodies(&self) -> &[Body]
        ensures { result.now ≡ self.now.bodies }
    {
        self.bodies.as_slice()
    }
}
