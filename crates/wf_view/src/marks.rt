// Flags of the modules that parts of a view expand.
ghost use Rattle.std.specs.Prelude.{◌≡◌, ◌<◌, ◌||◌, ℕ, Some, None, false, bytes_eq, get_or, length, IfOk};
ghost use Rattle.wf_view.specs.Marks.{AreMarks, AreMarksOf};
ghost use Rattle.wf_view.specs.Viewing.{name_of};

use std::alloc::{AllocError, Global};
use wf_spec::{Grammar, ModNo, Name, ViewParts};

/// Sets the flag of the module of a name.
fn mark(g: &Grammar, marks: &mut [bool], name: &[u8])
    requires { length marks.old ≡ length g.now.core.modules }
    ensures { (m : ℕ) → m < length g.now.core.modules → get_or marks.new m false ≡ get_or marks.old m false || bytes_eq (name_of g.now.core m) name.now }
{
    let _formed = g.start();
    if let Some(m) = g.find(name) {
        marks[m.0 as usize] = true;
    }
}

/// Flags that are set at the modules that have one of these names.
fn named_marks(alloc: Global, g: &Grammar, names: &[Name]) -> Result<Vec<bool>, AllocError>
    ensures { IfOk result (λ marks. AreMarksOf g.now.core (Some names.now) marks.items) }
{
    let mut marks = vec![in alloc; false; g.modules().len()]?;
    for name in names {
        mark(g, &mut marks, name.bytes());
    }
    Ok(marks)
}

/// Flags that are set at the composite modules.
fn composite_marks(alloc: Global, g: &Grammar) -> Result<Vec<bool>, AllocError>
    ensures { IfOk result (λ marks. AreMarksOf g.now.core None marks.items) }
{
    let mut marks = Vec::new(alloc);
    for m in 0..g.modules().len() {
        marks.push(g.is_composite(ModNo(m as u16)))?;
    }
    Ok(marks)
}

/// A flag for each module, that is set where the parts expand it: where they name it, or name none at all and it is composite.
///
/// Cost: for each name one look-up by hashing, and one look at each module.
pub fn expanded_marks(
    alloc: Global,
    g: &Grammar,
    parts: &ViewParts,
) -> Result<Vec<bool>, AllocError>
    ensures { IfOk result (λ marks. AreMarks g.now.core parts.now marks.items) }
{
    match &parts.expand {
        Some(names) => named_marks(alloc, g, names.items()),
        None => composite_marks(alloc, g),
    }
}
