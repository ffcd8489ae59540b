//! The numbering of sensors and of actuators, each from 0 in order. `valid` calls it.
ghost use Rattle.std.specs.Prelude.{◌≡◌};
ghost use Rattle.flat_graph.specs.Valid.{actuators_from, kinds_of, sensors_from};

use crate::vertex::{Kind, Vertex};

/// Whether the sensors are numbered from 0, in order.
pub fn are_sensors_numbered(vertices: &[Vertex]) -> bool
    ensures { result ≡ sensors_from 0 (kinds_of vertices.now) }
{
    let mut next: usize = 0;
    for vertex in vertices {
        if let Kind::Sensor(number) = &vertex.kind {
            if *number as usize != next {
                return false;
            }
            next += 1;
        }
    }
    true
}

/// Whether the actuators are numbered from 0, in order.
pub fn are_actuators_numbered(vertices: &[Vertex]) -> bool
    ensures { result ≡ actuators_from 0 (kinds_of vertices.now) }
{
    let mut next: usize = 0;
    for vertex in vertices {
        if let Kind::Actuator(number) = &vertex.kind {
            if *number as usize != next {
                return false;
            }
            next += 1;
        }
    }
    true
}
