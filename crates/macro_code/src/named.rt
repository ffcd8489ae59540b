//! The names of operations, operators and media, for the lines that name them. What is not there has an empty name.
ghost use Rattle.std.specs.Prelude.{◌≡◌};
ghost use Rattle.macro_code.specs.Text.{medium_name, names_of, operation_name, operator_name};

use executive_program::{Medium, Vertex};
use syn_base::Name;

/// The operations, the operators' names and the media, by number.
#[derive(Clone, Copy)]
pub struct Named<'a> {
    pub vertices: &'a [Vertex],
    pub operators: &'a [Name],
    pub media: &'a [Medium],
}

impl<'a> Named<'a> {
    /// The name of an operation.
    pub fn operation(&self, operation: u32) -> &'a [u8]
        ensures { result.now ≡ operation_name (names_of self.now) operation }
    {
        match self.vertices.get(operation as usize) {
            Some(vertex) => vertex.name.as_slice(),
            None => b"",
        }
    }

    /// The name of an operator.
    pub fn operator(&self, operator: usize) -> &'a [u8]
        ensures { result.now ≡ operator_name (names_of self.now) operator }
    {
        if operator < self.operators.len() {
            self.operators[operator].as_bytes()
        } else {
            b""
        }
    }

    /// The name of a medium.
    pub fn medium(&self, medium: u32) -> &'a [u8]
        ensures { result.now ≡ medium_name (names_of self.now) medium }
    {
        match self.media.get(medium as usize) {
            Some(medium) => medium.name.as_bytes(),
            None => b"",
        }
    }
}
