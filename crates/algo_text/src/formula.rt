//! The formula of an output: an expression that contracts see as plain data.
use body_lang::Expr;
use std::marker::Model;

/// The expression of an output. Two formulas are equal in contracts exactly where they are the same
/// expression, whatever memory holds it.
#[derive(Drop)]
pub struct Formula {
    expr: Expr,
}

impl Model for Formula {
    ghost use Rattle.std.specs.Coded.{codes};
    ghost use Rattle.body_lang.specs.Code.{expr_code};
    ghost use Rattle.body_lang.specs.Expr.{Expr, view as plain};

    ghost Value = { Expr };

    ghost coded = { expr_code (Prim.hlevel codes) };

    ghost view = { λ s. plain s.expr };
}

impl Formula {
    ghost use Rattle.std.specs.Prelude.{◌≡◌};
    ghost use Rattle.body_lang.specs.Expr.{view};

    /// The formula of an expression. It takes no memory.
    pub fn new(expr: Expr) -> Formula
        ensures { result ≡ view expr }
    {
        Formula { expr }
    }

    /// The expression.
    pub fn expr(&self) -> &Expr
        ensures { view result.now ≡ self.now }
    {
        &self.expr
    }
}
