// Names that have to be those of composite modules.
ghost use Rattle.std.specs.Prelude.{◌≡◌};
ghost use Rattle.wf_spec.specs.FirstFaults.{each, IsFirstFailing};
ghost use Rattle.wf_view.specs.Rules.{number_in, IsCompositeName};
ghost use Rattle.wf_model.specs.Composite.{is_composite};
ghost use Rattle.wf_view.specs.declared.fault.ViewFault.TheVariants.{NotComposite};

use wf_spec::{Grammar, Name};

/// Whether a name is that of a composite module.
fn is_composite_name(g: &Grammar, name: &[u8]) -> bool
    ensures { result ≡ is_composite g.now.core (number_in g.now.core name.now) }
{
    let _formed = g.start();
    match g.find(name) {
        Some(m) => g.is_composite(m),
        None => false,
    }
}

/// The first name that is that of no composite module.
///
/// Cost: for each name one look-up by hashing.
pub fn first_atomic_name(g: &Grammar, names: &[Name]) -> Option<usize>
    ensures { IsFirstFailing (each names.now (IsCompositeName g.now.core) NotComposite) result }
{
    names
        .iter()
        .position(|name| !is_composite_name(g, name.bytes()))
}
