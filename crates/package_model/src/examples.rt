// Worked packages, computed from the definitions.
ghost use Rattle.package_model.specs.Examples.{PackagesAreWorked};

/// The packages of three views: one that expands nothing, one that expands all, and one that cuts a cycle, with labels that are read over them and their verdicts.
pub fn packages_are_worked()
    ensures { PackagesAreWorked }
{}
