// A law of the bytes of packages: the contract of a function that does nothing.
ghost use Rattle.package_file.specs.OutcomeLaw.{PackageOrFaultLaw};

/// Bytes tell the parts of a package, or there is a reason why they are none.
pub fn package_or_fault_law()
    ensures { PackageOrFaultLaw }
{}
