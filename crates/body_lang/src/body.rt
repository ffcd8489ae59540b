//! The expressions of a function, which all uses of the function share.
use crate::expression::Expr;
use std::alloc::Global;
use std::marker::Model;
use std::sync::Arc;
use syn_base::OutOfMemory;

/// What a function computes: one expression for each output. It is built once and shared, by threads
/// too; the last owner frees it. Contracts see the list of the expressions, and two bodies are equal
/// there exactly where their expressions are, whatever memory holds them.
#[derive(Drop)]
pub struct Body {
    outputs: Arc<Vec<Expr>, Global>,
}

impl Model for Body {
    ghost use Rattle.std.specs.Prelude.{List, map};
    ghost use Rattle.std.specs.Arc.{arc_value};
    ghost use Rattle.std.specs.Coded.{codes, coded_list};
    ghost use Rattle.body_lang.specs.Code.{expr_code};
    ghost use Rattle.body_lang.specs.Expr.{Expr as Plain, view as plain};

    ghost Value = { List Plain };

    ghost coded = { coded_list (expr_code (Prim.hlevel codes)) };

    ghost view = { λ s. map plain (arc_value s.outputs).items };
}

impl Body {
    ghost use Rattle.std.specs.Prelude.{◌≡◌, IfOk, map};
    ghost use Rattle.body_lang.specs.Expr.{view};

    /// The body of a function with these expressions, one for each output in order. Besides the
    /// expressions it takes memory for one block.
    pub fn new(alloc: Global, outputs: Vec<Expr>) -> Result<Body, OutOfMemory>
        ensures { IfOk result (λ b. b ≡ map view outputs.items) }
    {
        let outputs = Arc::new(alloc, outputs)?;
        Ok(Body { outputs })
    }

    /// The same body once more. It takes no memory; `OutOfMemory` comes only where the body has as
    /// many owners as can be counted.
    pub fn share(&self) -> Result<Body, OutOfMemory>
        ensures { IfOk result (λ b. b ≡ self.now) }
    {
        let outputs = Arc::try_clone(&self.outputs)?;
        Ok(Body { outputs })
    }

    /// The expressions, one for each output in order. It takes no memory.
    pub fn outputs(&self) -> &[Expr]
        ensures { map view result.now ≡ self.now }
    {
        self.outputs.as_slice()
    }
}
