// Worked texts, computed from the definitions.
ghost use Rattle.wf_package.specs.Examples.{TextsAreWorked};

/// The texts of the packages of three views: one that expands nothing, one that cuts a cycle, and one that expands all.
pub fn texts_are_worked()
    ensures { TextsAreWorked }
{}
