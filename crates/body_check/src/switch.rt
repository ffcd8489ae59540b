//! The check of a switch.
ghost use Rattle.std.specs.Prelude.{◌≡◌, ◌<◌, ◌&&◌, ◌==◌, ◌++◌, ◌∷◌, [], length, map, slice_index_or};
ghost use Rattle.std.specs.Str.{bytes_eq};
ghost use Rattle.algo_rules.specs.Frontiers.{case_fault, fits, has_value, switch_fault};
ghost use Rattle.algo_rules.specs.Placed.{Checks, ArePlaced};
ghost use Rattle.algo_rules.specs.Ports.{no_ports, ports_of, same_ports};

use algo_rules::{AlgoCause, AlgoError, Case, Def, Port, Ports};
use syn_base::Name;
use text_lines::refused_at;

/// A switch, with the definitions of its text.
#[derive(Clone, Copy)]
pub struct SwitchParts<'a> {
    /// The inputs, without the conditioning one.
    pub ins: &'a [Port],
    pub outs: &'a [Port],
    pub cases: &'a [Case],
    pub otherwise: &'a Name,
    pub otherwise_line: u32,
    pub defs: &'a [Def],
    /// The ports of each definition, by its place.
    pub table: &'a [Ports],
    /// The places of the definitions of the cases, and last that of `otherwise`.
    pub places: &'a [u32],
}

/// Whether the cases of a switch have values of their own and its ports, in names, lengths and
/// order, and `otherwise` likewise. BadCase comes at the first line that fails. It takes no memory.
pub fn check_switch(switch: &SwitchParts) -> Result<(), AlgoError>
    requires placed { ArePlaced switch.now.defs.now switch.now.table.now (map (λ c. c.def)
        switch.now.cases.now ++ switch.now.otherwise.now ∷ []) switch.now.places.now }
    ensures { Checks result (switch_fault (ports_of switch.now.defs.now) switch.now.ins.now
        switch.now.outs.now switch.now.cases.now switch.now.otherwise.now
        switch.now.otherwise_line) }
{
    let SwitchParts {
        ins,
        outs,
        cases,
        table,
        places,
        ..
    } = *switch;
    for (at, case) in cases.iter().enumerate() {
        let ports = ports_at(table, places[at]);
        check_case(ins, outs, &cases[..at], case, ports)?;
    }
    let ports = ports_at(table, places[cases.len()]);
    if !fits(ins, outs, ports) {
        return Err(refused_at(switch.otherwise_line, AlgoCause::BadCase));
    }
    Ok(())
}

/// The ports at a place of the table.
fn ports_at(table: &[Ports], place: u32) -> &Ports
    requires { place < length table.now }
    ensures { result.now ≡ slice_index_or table.now place no_ports }
{
    &table[place as usize]
}

/// Checks a case after others, of a definition with these ports.
pub fn check_case(
    ins: &[Port],
    outs: &[Port],
    before: &[Case],
    case: &Case,
    ports: &Ports,
) -> Result<(), AlgoError>
    ensures { Checks result (case_fault (λ w. ports.now) ins.now outs.now (map (λ c. c.value) before.now) case.now) }
{
    if has_value(before, case.value) || !fits(ins, outs, ports) {
        return Err(refused_at(case.line, AlgoCause::BadCase));
    }
    Ok(())
}

/// Whether one of these cases has this value.
fn has_value(cases: &[Case], value: i64) -> bool
    ensures { result ≡ has_value (map (λ c. c.value) cases.now) value }
{
    for case in cases {
        if case.value == value {
            return true;
        }
    }
    false
}

/// Whether a definition with these ports has the inputs and outputs of the switch.
fn fits(ins: &[Port], outs: &[Port], ports: &Ports) -> bool
    ensures { result ≡ fits ins.now outs.now ports.now }
{
    same_ports(ports.ins.as_slice(), ins) && same_ports(ports.outs.as_slice(), outs)
}

/// Whether ports have the same names and lengths in the same order.
#[tactic(auto, using(crate::proofs::Same::other_lengths))]
fn same_ports(ports: &[Port], others: &[Port]) -> bool
    ensures { result ≡ same_ports ports.now others.now }
{
    if ports.len() != others.len() {
        return false;
    }
    for (at, port) in ports.iter().enumerate() {
        if !same_port(port, &others[at]) {
            return false;
        }
    }
    true
}

/// Whether two ports have the same name and length.
fn same_port(port: &Port, other: &Port) -> bool
    ensures { result ≡ (bytes_eq port.now.name other.now.name && (port.now.len == other.now.len)) }
{
    port.name.as_bytes() == other.name.as_bytes() && port.len == other.len
}
