//! The law of what the grammar of expressions says of the texts of formulas.
ghost use Rattle.std.specs.Prelude.{◌≡◌, ◌↔◌, ℕ, List, Result};
ghost use Rattle.body_lang.specs.Expr.{Expr};
ghost use Rattle.syn_base.specs.Bytes.{Bytes};
ghost use Rattle.algo_text.specs.Refusals.{AlgoRefusal};
ghost use Rattle.algo_text.specs.Formulas.{formula_of};
ghost use Rattle.algo_text.specs.Grammatical.{IsFormula};

/// What a text gives the output of a function is what the grammar of expressions says of it, for all
/// texts and ports: the expression exactly where its tokens are written so and it names ports alone;
/// BadExpression exactly at the place where the grammar fails; UnknownName exactly of the first name
/// that is no port; and Limit exactly where there are more than 512 tokens, with their number.
#[tactic(auto, using(crate::proofs::Judged::formula_law))]
pub fn formulas_are_grammatical()
    ensures { (line : ℕ) (ports : List Bytes) (text : Bytes) (r : Result Expr AlgoRefusal) →
        (formula_of line ports text ≡ r) ↔ IsFormula ports text line r }
{}
