//! What is found is right: it explains the first cause, and there is none exactly where the program is well formed.
ghost use Rattle.check_places.specs.Shown.{WhyExplains, WhyIsExact};

/// Where a program has a cause, a reason is found. It shows what is wrong, and it is the first of that cause.
pub fn why_explains()
    ensures { WhyExplains }
{}

/// No reason is found exactly where the program is well formed.
pub fn why_is_exact()
    ensures { WhyIsExact }
{}
