// Laws of packages that are written and read: each is the contract of a function that does nothing.
ghost use Rattle.package_laws.specs.ConsultWritten.{ConsultWrittenLaw};
ghost use Rattle.package_laws.specs.ReadBack.{ReadBackLaw};

use package_model::{consult_law, package_law, package_loops_law, seen_lists_law};

/// The text of the package of a safe view of an accepted grammar is read as the package of what the view shows.
///
/// It tells this package, with its grammar and its loops, and no other; and it has no fault, so a reader that refuses it wants memory.
pub fn read_back_law()
    ensures { ReadBackLaw }
{
    package_law();
    package_loops_law();
    seen_lists_law();
}

/// Two labels of the grammar have by the package that is read from the text the verdict that they have under the view.
///
/// So a package answers as the view does, from the bytes that are written of it alone.
pub fn consult_written_law()
    ensures { ConsultWrittenLaw }
{
    read_back_law();
    consult_law();
}
