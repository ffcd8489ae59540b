//! What it means that an operation depends on another one.
ghost use Rattle.self_timed.specs.PathLaws.{LeadsAlongPaths};

/// An operation depends on another one exactly where a path of sources goes from the other one to it, of
/// whatever length.
pub fn leads_along_paths()
    ensures { LeadsAlongPaths }
{}
