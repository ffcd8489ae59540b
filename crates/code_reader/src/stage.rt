//! The tests of the stage of a processor's text, for the macros that may stand there.
ghost use Rattle.std.specs.Prelude.{◌≡◌};
ghost use Rattle.macro_code.specs.ReadText.{is_declared, is_ended, is_named, is_outside, is_prologue, is_threaded, is_turn};

use macro_code::Stage;

/// No processor was begun, or the last one has ended.
pub fn is_outside(stage: Stage) -> bool
    ensures { result ≡ is_outside stage }
{
    matches!(stage, Stage::Outside)
}

/// The processor was named.
pub fn is_named(stage: Stage) -> bool
    ensures { result ≡ is_named stage }
{
    matches!(stage, Stage::Named)
}

/// Its pairs were declared, and some of its buffers.
pub fn is_declared(stage: Stage) -> bool
    ensures { result ≡ is_declared stage }
{
    matches!(stage, Stage::Declared)
}

/// A thread has ended.
pub fn is_threaded(stage: Stage) -> bool
    ensures { result ≡ is_threaded stage }
{
    matches!(stage, Stage::Threaded)
}

/// A sequence has begun, and its loop has not.
pub fn is_prologue(stage: Stage) -> bool
    ensures { result ≡ is_prologue stage }
{
    matches!(stage, Stage::Prologue)
}

/// A loop has begun.
pub fn is_turn(stage: Stage) -> bool
    ensures { result ≡ is_turn stage }
{
    matches!(stage, Stage::Turn)
}

/// A loop has ended.
pub fn is_ended(stage: Stage) -> bool
    ensures { result ≡ is_ended stage }
{
    matches!(stage, Stage::Ended)
}
