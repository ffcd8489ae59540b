//! The ports of a definition.
ghost use Rattle.std.specs.Prelude.{◌≡◌, ◌++◌, ◌∷◌, ◌≤◌, ◌/◌, [], IfOk, IsTrue, OnOk, codes, length, map};
ghost use Rattle.std.specs.List.{flat_map};
ghost use Rattle.algo_rules.specs.Ports.{port, ports_by, outer_ins, outer_outs, outer_ports};
ghost use Rattle.body_check.specs.Bounds.{HasShortPorts, IsBounded};
ghost use Rattle.syn_base.specs.Name.{is_name};

use crate::lookup::len_of;
use algo_rules::{Body, Frontier, FrontierLine, Output, Port, Ports};
use std::alloc::Global;
use syn_base::{Items, Name, OutOfMemory};

/// The ports of a definition, those of a repetition from `inner`, the ports of its body. For any
/// other definition `inner` does not matter.
pub fn ports_of_body(alloc: Global, body: &Body, inner: &Ports) -> Result<Ports, OutOfMemory>
    requires { IsBounded inner.now body.now }
    ensures { IfOk result (λ p. p ≡ ports_by (λ w. inner.now) body.now) }
{
    match body {
        Body::Sensor(len) => Ok(both(Vec::new(alloc), one_port(alloc, b"o", *len)?)),
        Body::Actuator(len) => Ok(both(one_port(alloc, b"i", *len)?, Vec::new(alloc))),
        Body::Constant(values) => {
            let len = values.as_slice().len() as u32;
            Ok(both(Vec::new(alloc), one_port(alloc, b"o", len)?))
        }
        Body::Delay(depth, values) => delay_ports(alloc, group_len(*depth, values.as_slice())),
        Body::Function { ins, outs } => function_ports(alloc, ins, outs),
        Body::Graph { ins, outs, .. } => graph_ports(alloc, ins, outs),
        Body::Switch { on, ins, outs, .. } => switch_ports(alloc, on, ins, outs),
        Body::Repeat { copies, lines, .. } => repeat_ports(alloc, *copies, inner, lines.as_slice()),
    }
}

/// The ports with these inputs and outputs.
fn both(ins: Vec<Port>, outs: Vec<Port>) -> Ports
    ensures { result ≡ record { ins = ins.items; outs = outs.items } }
{
    Ports {
        ins: Items::new(ins),
        outs: Items::new(outs),
    }
}

/// The ports of a delay of values of this length.
fn delay_ports(alloc: Global, len: u32) -> Result<Ports, OutOfMemory>
    ensures { IfOk result (λ p. p ≡ record { ins = port (codes "i") len ∷ []; outs = port (codes "o") len ∷ [] }) }
{
    let ins = one_port(alloc, b"i", len)?;
    let outs = one_port(alloc, b"o", len)?;
    Ok(both(ins, outs))
}

/// The ports of a function.
fn function_ports(
    alloc: Global,
    ins: &Items<Port>,
    outs: &Items<Output>,
) -> Result<Ports, OutOfMemory>
    ensures { IfOk result (λ p. p ≡ record { ins = ins.now; outs = map (λ o. o.port) outs.now }) }
{
    let ins = copy_ports(alloc, ins.as_slice())?;
    let outs = output_ports(alloc, outs.as_slice())?;
    Ok(both(ins, outs))
}

/// The ports of a graph.
fn graph_ports(alloc: Global, ins: &Items<Port>, outs: &Items<Port>) -> Result<Ports, OutOfMemory>
    ensures { IfOk result (λ p. p ≡ record { ins = ins.now; outs = outs.now }) }
{
    let ins = copy_ports(alloc, ins.as_slice())?;
    let outs = copy_ports(alloc, outs.as_slice())?;
    Ok(both(ins, outs))
}

/// The ports of a switch.
fn switch_ports(
    alloc: Global,
    on: &Name,
    ins: &Items<Port>,
    outs: &Items<Port>,
) -> Result<Ports, OutOfMemory>
    ensures { IfOk result (λ p. p ≡ record { ins = port on.now 1 ∷ ins.now; outs = outs.now }) }
{
    let ins = switch_ins(alloc, on, ins.as_slice())?;
    let outs = copy_ports(alloc, outs.as_slice())?;
    Ok(both(ins, outs))
}

/// The ports of a repetition.
fn repeat_ports(
    alloc: Global,
    copies: u32,
    inner: &Ports,
    lines: &[FrontierLine],
) -> Result<Ports, OutOfMemory>
    requires few { copies ≤ 64 }
    requires lens { HasShortPorts inner.now }
    ensures { IfOk result (λ p. p ≡ outer_ports copies inner.now lines.now) }
{
    let ins = repeat_ins(alloc, copies, inner, lines)?;
    let outs = repeat_outs(alloc, copies, inner, lines)?;
    Ok(both(ins, outs))
}

/// The length of each group of a delay's values.
fn group_len(depth: u32, values: &[i64]) -> u32
    requires some { 1 ≤ depth }
    requires short { length values.now / depth ≤ 64 }
    ensures { result ≡ length values.now / depth }
{
    (values.len() / depth as usize) as u32
}

/// A port alone. Only memory can be short, since this is a name.
fn one_port(alloc: Global, name: &[u8], len: u32) -> Result<Vec<Port>, OutOfMemory>
    requires { IsTrue (is_name name.now) }
    ensures { IfOk result (λ v. v.items ≡ port name.now len ∷ []) }
{
    let mut ports = Vec::new(alloc);
    match Name::new(alloc, name) {
        Ok(name) => ports.push(Port { name, len })?,
        Err(_) => return Err(OutOfMemory),
    }
    Ok(ports)
}

/// A copy of a port.
fn copy_port(alloc: Global, port: &Port) -> Result<Port, OutOfMemory>
    ensures { IfOk result (λ p. p ≡ port.now) }
{
    Ok(Port {
        name: port.name.copy(alloc)?,
        len: port.len,
    })
}

/// A copy of each of these ports, in order.
fn copy_ports(alloc: Global, ports: &[Port]) -> Result<Vec<Port>, OutOfMemory>
    ensures { IfOk result (λ v. v.items ≡ ports.now) }
{
    let mut copies = Vec::new(alloc);
    add_ports(alloc, ports, &mut copies)?;
    Ok(copies)
}

/// Adds a copy of each port.
fn add_ports(alloc: Global, ports: &[Port], copies: &mut Vec<Port>) -> Result<(), OutOfMemory>
    ensures { OnOk result (copies.new.items ≡ copies.old.items ++ ports.now) }
{
    for port in ports {
        copies.push(copy_port(alloc, port)?)?;
    }
    Ok(())
}

/// The ports of a function's outputs.
fn output_ports(alloc: Global, outs: &[Output]) -> Result<Vec<Port>, OutOfMemory>
    ensures { IfOk result (λ v. v.items ≡ map (λ o. o.port) outs.now) }
{
    let mut ports = Vec::new(alloc);
    for out in outs {
        ports.push(copy_port(alloc, &out.port)?)?;
    }
    Ok(ports)
}

/// The conditioning input before the others.
fn switch_ins(alloc: Global, on: &Name, ins: &[Port]) -> Result<Vec<Port>, OutOfMemory>
    ensures { IfOk result (λ v. v.items ≡ port on.now 1 ∷ ins.now) }
{
    let mut ports = Vec::new(alloc);
    ports.push(Port {
        name: on.copy(alloc)?,
        len: 1,
    })?;
    add_ports(alloc, ins, &mut ports)?;
    Ok(ports)
}

/// The outer inputs of the lines, in order.
fn repeat_ins(
    alloc: Global,
    copies: u32,
    inner: &Ports,
    lines: &[FrontierLine],
) -> Result<Vec<Port>, OutOfMemory>
    requires few { copies ≤ 64 }
    requires lens { HasShortPorts inner.now }
    ensures { IfOk result (λ v. v.items ≡ flat_map (λ l. outer_ins copies inner.now l.frontier) lines.now) }
{
    let mut ports = Vec::new(alloc);
    for line in lines {
        add_in(alloc, copies, inner, &line.frontier, &mut ports)?;
    }
    Ok(ports)
}

/// The outer outputs of the lines, in order.
fn repeat_outs(
    alloc: Global,
    copies: u32,
    inner: &Ports,
    lines: &[FrontierLine],
) -> Result<Vec<Port>, OutOfMemory>
    requires few { copies ≤ 64 }
    requires lens { HasShortPorts inner.now }
    ensures { IfOk result (λ v. v.items ≡ flat_map (λ l. outer_outs copies inner.now l.frontier) lines.now) }
{
    let mut ports = Vec::new(alloc);
    for line in lines {
        add_out(alloc, copies, inner, &line.frontier, &mut ports)?;
    }
    Ok(ports)
}

/// Adds the outer input of a line, if it has one.
fn add_in(
    alloc: Global,
    copies: u32,
    inner: &Ports,
    frontier: &Frontier,
    ports: &mut Vec<Port>,
) -> Result<(), OutOfMemory>
    requires few { copies ≤ 64 }
    requires lens { HasShortPorts inner.now }
    ensures { OnOk result (ports.new.items ≡ ports.old.items ++ outer_ins copies inner.now frontier.now) }
{
    let (name, len) = match frontier {
        Frontier::Fork {
            outer,
            inner: input,
        } => { (outer, copies * len_of(inner.ins.as_slice(), input)) }
        Frontier::Diffuse {
            outer,
            inner: input,
        }
        | Frontier::Iterate {
            outer,
            inner: input,
            ..
        } => (outer, len_of(inner.ins.as_slice(), input)),
        Frontier::Join { .. } => return Ok(()),
    };
    ports.push(Port {
        name: name.copy(alloc)?,
        len,
    })?;
    Ok(())
}

/// Adds the outer output of a line, if it has one.
fn add_out(
    alloc: Global,
    copies: u32,
    inner: &Ports,
    frontier: &Frontier,
    ports: &mut Vec<Port>,
) -> Result<(), OutOfMemory>
    requires few { copies ≤ 64 }
    requires lens { HasShortPorts inner.now }
    ensures { OnOk result (ports.new.items ≡ ports.old.items ++ outer_outs copies inner.now frontier.now) }
{
    let (name, len) = match frontier {
        Frontier::Iterate { given, last, .. } => (last, len_of(inner.outs.as_slice(), given)),
        Frontier::Join { given, outer } => {
            (outer, copies * len_of(inner.outs.as_slice(), given))
        }
        Frontier::Fork { .. } | Frontier::Diffuse { .. } => return Ok(()),
    };
    ports.push(Port {
        name: name.copy(alloc)?,
        len,
    })?;
    Ok(())
}
