//! What the grammar settles: laws that nothing runs.
ghost use Rattle.std.specs.Prelude.{◌≡◌, ◌≢◌, ℕ, List, Ok, Err};
ghost use Rattle.body_lang.specs.Expr.{view};
ghost use Rattle.body_lang.specs.declared.expression.Expr.{Expr};
ghost use Rattle.body_text.specs.declared.fault.BodyFault.{BodyFault};
ghost use Rattle.body_text.specs.declared.fault.BodyFault.TheVariants.{OutOfMemory};
ghost use Rattle.syn_base.specs.Bytes.{Bytes};
ghost use Rattle.body_text.specs.Tokens.{Token};
ghost use Rattle.body_text.specs.Grammar.{Written, AreWritten, IsExpression, FailsAt};
ghost use Rattle.body_text.specs.Reads.{Reads};

/// Tokens write at most one expression.
#[tactic(auto, using(crate::proofs::Complete::one_expression))]
pub fn one_expression_for_tokens()
    ensures { (ts : List Token) (v w : Written) → AreWritten ts v → AreWritten ts w → v ≡ w }
{}

/// Tokens fail to begin an expression's at one place at most, and at none where they are an
/// expression's.
pub fn one_place_fails()
    ensures place { (ts : List Token) (i k : ℕ) → FailsAt ts i → FailsAt ts k → i ≡ k }
    ensures none { (ts : List Token) (i : ℕ) → FailsAt ts i → IsExpression ts → ⊥ }
{}

/// A text comes to one thing over the same ports, want of memory aside: one expression, or one fault
/// at one place.
pub fn one_answer_for_text()
    ensures expression { (ports : List Bytes) (text : Bytes) (d e : Expr) →
        Reads ports text (Ok d) → Reads ports text (Ok e) → view d ≡ view e }
    ensures either { (ports : List Bytes) (text : Bytes) (e : Expr) (f : BodyFault) →
        Reads ports text (Ok e) → Reads ports text (Err f) → f ≡ OutOfMemory }
    ensures fault { (ports : List Bytes) (text : Bytes) (f g : BodyFault) → f ≢ OutOfMemory →
        g ≢ OutOfMemory → Reads ports text (Err f) → Reads ports text (Err g) → f ≡ g }
{}
