// Worked versions, computed from the definitions.
ghost use Rattle.version_model.specs.Examples.{VersionsAreWorked};

/// The line grammar as a version of two grammars: in one it keeps its cycles, and in the other a later production closes a cycle.
pub fn versions_are_worked()
    ensures { VersionsAreWorked }
{}
