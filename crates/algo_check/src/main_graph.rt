//! The check of the main graph.
ghost use Rattle.std.specs.Prelude.{◌≡◌, None, Some};
ghost use Rattle.text_lines.specs.Refusals.{stop};
ghost use Rattle.algo_rules.specs.declared.AlgoCause.TheVariants.{NoMain};
ghost use Rattle.algo_rules.specs.Placed.{Checks};
ghost use Rattle.algo_rules.specs.Resolved.{is_main_graph, no_main, no_main_by};

use algo_rules::{AlgoCause, AlgoError, Body, Def};
use text_lines::refused_at;

/// Checks that there is a graph `main` without ports; the refusal is NoMain, at line 0. It takes no memory.
pub fn check_main(defs: &[Def]) -> Result<(), AlgoError>
    ensures { Checks result (no_main defs.now) }
{
    for def in defs {
        if b"main".as_slice() == def.name.as_bytes() {
            return check_main_def(def);
        }
    }
    Err(no_main())
}

/// Checks that the definition of `main` is a graph without ports.
fn check_main_def(def: &Def) -> Result<(), AlgoError>
    ensures { Checks result (no_main_by (Some def.now)) }
{
    if is_main_graph(&def.body) {
        Ok(())
    } else {
        Err(no_main())
    }
}

/// The refusal of definitions without a main graph.
fn no_main() -> AlgoError
    ensures { result ≡ stop 0 NoMain }
{
    refused_at(0, AlgoCause::NoMain)
}

/// Whether a body is a graph without ports.
fn is_main_graph(body: &Body) -> bool
    ensures { result ≡ is_main_graph body.now }
{
    match body {
        Body::Graph { ins, outs, .. } => ins.as_slice().is_empty() && outs.as_slice().is_empty(),
        _ => false,
    }
}
