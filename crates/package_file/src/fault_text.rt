// How bytes that are no package are told.
ghost use Rattle.std.specs.Prelude.{◌≡◌};
ghost use Rattle.package_file.specs.FaultText.{pack_name};

use crate::fault::PackFault;

impl PackFault {
    /// The name of the fault in messages.
    pub fn name(self) -> &'static [u8]
        ensures { result.now ≡ pack_name self }
    {
        match self {
            PackFault::NotJson => b"NotJson",
            PackFault::NotPackage => b"NotPackage",
            PackFault::BadPackage => b"BadPackage",
            PackFault::NoMemory => b"NoMemory",
        }
    }
}
