// Views built from parts.
ghost use Rattle.std.specs.Prelude.{◌≡◌, ◌⊎◌, IfOk, IfErr};
ghost use Rattle.wf_view.specs.Viewing.{view_of};
ghost use Rattle.wf_view.specs.Rules.{IsViewed, IsFaultOf};
ghost use Rattle.wf_view.specs.Held.{IsHeldFor};
ghost use Rattle.wf_view.specs.declared.fault.ViewFault.TheVariants.{NoMemory};

use crate::assemble::assemble;
use crate::checks::{check_lists, check_names};
use crate::fault::ViewFault;
use crate::marks::expanded_marks;
use crate::view::View;
use std::alloc::Global;
use wf_spec::{Grammar, ViewParts};

impl View {
    /// The view that parts describe: it expands the named modules, all composite ones where there is no list, and shows the pairs that deps parts give. Where none are given, an atomic module keeps the pairs of the grammar, and a composite one has all pairs. A deps part without pairs gives none.
    ///
    /// A name in `parts` may hold any bytes; this call is the test. Errors: the fault of the first rule that the parts break, at the first place, in the order of `ViewFault`; `NoMemory` may come at any time.
    ///
    /// Cost: linear in the size of the parts and of the grammar, as a module is found by hashing and a port among at most 64.
    ///
    /// Source of the idea: Bao, Davidson, Milo, "Labeling Workflow Views with Fine-Grained Dependencies", VLDB 2012 (workflow views).
    pub fn build(alloc: Global, g: &Grammar, parts: &ViewParts) -> Result<View, ViewFault>
        ensures accepted { IfOk result (λ v. (v.core ≡ view_of g.now.core parts.now) × IsViewed g.now.core parts.now) }
        ensures held { IfOk result (λ v. IsHeldFor g.now.core v) }
        ensures refused { IfErr result (λ f. (f ≡ NoMemory) ⊎ IsFaultOf g.now.core parts.now f) }
    {
        check_names(g, parts)?;
        let marks = expanded_marks(alloc, g, parts)?;
        check_lists(alloc, g, parts, &marks)?;
        let view = assemble(alloc, g, parts, marks)?;
        Ok(view)
    }
}
