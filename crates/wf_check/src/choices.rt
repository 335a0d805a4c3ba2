// The productions that attain the ranks of their heads.
ghost use Rattle.std.specs.Prelude.{◌≡◌, ◌<◌, ℕ, length, map, get_or, IfOk};
ghost use Rattle.wf_model.specs.Grammar.{IsComposite};
ghost use Rattle.wf_model.specs.WellFormed.{IsWellFormed};
ghost use Rattle.wf_check.specs.Improper.{IsProductive};
ghost use Rattle.wf_check.specs.Proper.{IsChoice};
ghost use Rattle.wf_check.specs.Ranks.{AreRanks};

use crate::ranks::least_lower;
use std::alloc::{AllocError, Global};
use wf_spec::{Grammar, ModNo, ProdNo};

/// The least production of a composite module that attains its rank. It says nothing of an atomic module, or of one without a rank.
fn choice(g: &Grammar, ranks: &[Option<u32>], m: ModNo) -> ProdNo
    requires module_no { m.0 < length g.now.core.modules }
    requires ranks { AreRanks g.now.core ranks.now }
    requires formed { IsWellFormed g.now.core }
    ensures { IsComposite g.now.core m.0 → IsProductive g.now.core m.0 → IsChoice g.now.core m.0 result.0 }
{
    match ranks[m.0 as usize] {
        Some(rank) => least_lower(g, m, ranks, rank).unwrap_or(ProdNo(0)),
        None => ProdNo(0),
    }
}

/// The choice of each module. Fails only for want of memory.
///
/// Cost: at most one look at each position of each body.
pub fn choices(alloc: Global, g: &Grammar, ranks: &[Option<u32>]) -> Result<Vec<ProdNo>, AllocError>
    requires { AreRanks g.now.core ranks.now }
    ensures one_each { IfOk result (λ list. length list.items ≡ length g.now.core.modules) }
    ensures choices { IfOk result (λ list. (m : ℕ) → IsComposite g.now.core m → IsProductive g.now.core m →
        IsChoice g.now.core m (get_or (map (λ p. p.0) list.items) m 0)) }
{
    let mut list = Vec::new(alloc);
    for m in 0..g.modules().len() {
        list.push(choice(g, ranks, ModNo(m as u16)))?;
    }
    Ok(list)
}
