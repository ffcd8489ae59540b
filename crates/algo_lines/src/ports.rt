//! The ports of a block, and the line that gives one, for functions, graphs and switches.
ghost use Rattle.std.specs.Prelude.{◌≡◌, ◌<◌, ◌≤◌, length, map, [], IfOk};
ghost use Rattle.syn_base.specs.Limits.{bound_of};
ghost use Rattle.text_lines.specs.Refusals.{Gives, Adds};
ghost use Rattle.algo_text.specs.Among.{is_among};
ghost use Rattle.algo_lines.specs.Lines.{port_of};

use crate::fault::bad_number;
use crate::word::{line_name, read_count};
use algo_text::{AlgoError, Port};
use std::alloc::Global;
use std::marker::Model;
use syn_base::{Items, LimitKind};
use text_lines::{Words, check_limit};

/// Ports up to their bound, seen as their list.
#[derive(Drop)]
pub struct Ports {
    ports: Vec<Port>,
}

impl Model for Ports {
    ghost use Rattle.std.specs.Prelude.{List, length, ◌≤◌};
    ghost use Rattle.syn_base.specs.Limits.{bound_of};
    ghost use Rattle.syn_base.specs.declared.limits.LimitKind.TheVariants.{Ports as PortCount};
    ghost use Rattle.algo_text.specs.declared.Port.{Port};

    ghost Value = { List Port };

    ghost view = { λ s. s.ports.items };

    ghost invariant = { λ s. length s.ports.items ≤ bound_of PortCount };
}

impl Ports {
    /// No ports. It takes no memory.
    pub fn new(alloc: Global) -> Ports
        ensures { result ≡ [] }
    {
        Ports {
            ports: Vec::new(alloc),
        }
    }

    /// The ports.
    pub fn as_slice(&self) -> &[Port]
        ensures same { result.now ≡ self.now }
        ensures few { length self.now ≤ bound_of LimitKind.Ports }
    {
        self.ports.as_slice()
    }

    /// How many ports there are.
    pub fn len(&self) -> usize
        ensures { result ≡ length self.now }
    {
        self.ports.len()
    }

    /// Whether a port has this name.
    pub fn has(&self, name: &[u8]) -> bool
        ensures { result ≡ is_among name.now (map (λ p. p.name) self.now) }
    {
        has_port(self.ports.as_slice(), name)
    }

    /// Adds a port at the end.
    pub fn add(&mut self, port: Port) -> Result<(), AlgoError>
        requires { length self.old < bound_of LimitKind.Ports }
        ensures { Adds result self.old port self.new }
    {
        self.ports.push(port)?;
        Ok(())
    }

    /// The ports, handed back.
    pub fn into_items(self) -> Items<Port>
        ensures { result ≡ self }
    {
        Items::new(self.ports)
    }
}

/// Whether one of these ports has this name.
fn has_port(ports: &[Port], name: &[u8]) -> bool
    ensures { result ≡ is_among name.now (map (λ p. p.name) ports.now) }
{
    for port in ports {
        if name == port.name.as_bytes() {
            return true;
        }
    }
    false
}

/// The port that P LEN after `in` or `out` gives, where this many such lines stand before, or the line's refusal.
#[tactic(auto, unfolding(crate::specs::Lines::port_of))]
pub fn read_port(
    alloc: Global,
    number: u32,
    before: usize,
    words: &Words,
) -> Result<Port, AlgoError>
    requires { length words.now ≡ 3 }
    ensures port { Gives result (port_of number before words.now) }
    ensures few { IfOk result (λ _. before < bound_of LimitKind.Ports) }
{
    let name = line_name(alloc, number, words.get(1))?;
    let Some(len) = read_count(words.get(2)) else {
        return Err(bad_number(alloc, number, words.get(2)));
    };
    check_limit(LimitKind::Ports, before as u128 + 1)?;
    check_limit(LimitKind::PortLength, u128::from(len))?;
    Ok(Port {
        name,
        len: len as u32,
    })
}
