//! The check of a definition by itself, and its ports once it has passed, for the table of all definitions.
ghost use Rattle.std.specs.Prelude.{◌≡◌, ◌∷◌, [], IfOk, None};
ghost use Rattle.std.specs.List.{All};
ghost use Rattle.algo_check.specs.Linked.{named};
ghost use Rattle.algo_rules.specs.Placed.{ArePlaced, Checks};
ghost use Rattle.algo_rules.specs.Ports.{no_ports, ports_by, ports_of};
ghost use Rattle.algo_rules.specs.Resolved.{body_fault};
ghost use Rattle.algo_rules.specs.WellRead.{IsWellRead};
ghost use Rattle.algo_check.specs.Tables.{IsSmall};

use algo_rules::{AlgoError, Body, Def, Ports};
use body_check::{GraphParts, SwitchParts, check_graph, check_repeat, check_switch, ports_of_body};
use std::alloc::Global;
use syn_base::{Items, Name, OutOfMemory};

/// Checks a body by itself: its frontier lines, its cases, or its edges, open ends and cycles. The definitions that it
/// names stand at `places` of `defs`, their ports there in `table`.
pub fn check_body(
    alloc: Global,
    defs: &[Def],
    table: &[Ports],
    places: &[u32],
    line: u32,
    body: &Body,
) -> Result<(), AlgoError>
    requires read { IsWellRead body.now }
    requires placed { ArePlaced defs.now table.now (named body.now) places.now }
    requires small { All IsSmall table.now }
    ensures { Checks result (body_fault defs.now line body.now) }
{
    match body {
        Body::Repeat { copies, def, lines } => {
            let inner = inner_ports(defs, table, places, def);
            check_repeat(line, *copies, inner, lines.as_slice())
        }
        Body::Switch {
            ins,
            outs,
            cases,
            otherwise,
            otherwise_line,
            ..
        } => check_switch(&SwitchParts {
            ins: ins.as_slice(),
            outs: outs.as_slice(),
            cases: cases.as_slice(),
            otherwise,
            otherwise_line: *otherwise_line,
            defs,
            table,
            places,
        }),
        Body::Graph {
            ins,
            outs,
            references,
            edges,
        } => check_graph(
            alloc,
            &GraphParts {
                line,
                ins: ins.as_slice(),
                outs: outs.as_slice(),
                references: references.as_slice(),
                edges: edges.as_slice(),
                defs,
                table,
                places,
            },
        ),
        _ => Ok(()),
    }
}

/// The ports of the body of a repetition, the only definition that it names.
fn inner_ports<'a>(defs: &[Def], table: &'a [Ports], places: &[u32], name: &Name) -> &'a Ports
    requires placed { ArePlaced defs.now table.now (name.now ∷ []) places.now }
    requires small { All IsSmall table.now }
    ensures ports { result.now ≡ ports_of defs.now name.now }
    ensures small { IsSmall result.now }
{
    &table[places[0] as usize]
}

/// The ports of a body that has passed its check.
pub fn ports_of_checked(
    alloc: Global,
    defs: &[Def],
    table: &[Ports],
    places: &[u32],
    line: u32,
    body: &Body,
) -> Result<Ports, OutOfMemory>
    requires read { IsWellRead body.now }
    requires placed { ArePlaced defs.now table.now (named body.now) places.now }
    requires small { All IsSmall table.now }
    requires passed { body_fault defs.now line body.now ≡ None }
    ensures ports { IfOk result (λ p. p ≡ ports_by (ports_of defs.now) body.now) }
    ensures small { IfOk result IsSmall }
{
    match body {
        Body::Repeat { def, .. } => {
            ports_of_body(alloc, body, inner_ports(defs, table, places, def))
        }
        _ => ports_of_body(alloc, body, &no_ports(alloc)),
    }
}

/// No ports at all. It takes no memory.
pub fn no_ports(alloc: Global) -> Ports
    ensures { result ≡ no_ports }
{
    Ports {
        ins: Items::new(Vec::new(alloc)),
        outs: Items::new(Vec::new(alloc)),
    }
}
