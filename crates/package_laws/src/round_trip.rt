// A package is written of a view, and read back.
ghost use Rattle.std.specs.Prelude.{◌≡◌, IfOk, IfErr};
ghost use Rattle.package_file.specs.declared.fault.PackFault.TheVariants.{NoMemory};
ghost use Rattle.package_laws.specs.ReadBack.{IsPackageOfView};

use crate::law::read_back_law;
use package_file::{PackFault, Package, read_package_with_key};
use std::alloc::Global;
use wf_package::write_package;
use wf_safe::SafeView;

/// The package of a safe view, written and read back; its names are hashed with this key.
///
/// The only error is that memory is refused. Cost: those of `write_package` and `read_package_with_key`.
pub fn read_back(alloc: Global, key: u64, v: &SafeView<'_>) -> Result<Package, PackFault>
    ensures shown { IfOk result (λ p. IsPackageOfView v.now.accepted.grammar.core v.now.view.core p) }
    ensures memory { IfErr result (λ f. f ≡ NoMemory) }
{
    read_back_law();
    let _safe = v.accepted();
    let text = write_package(alloc, v)?;
    read_package_with_key(alloc, key, &text)
}
