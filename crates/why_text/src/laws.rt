//! The lines that are found are right.
ghost use Rattle.why_text.specs.Said.{LinesSay};

/// Where a text has a program, the line that is found of each of its instructions says it.
pub fn lines_say()
    ensures { LinesSay }
{}
