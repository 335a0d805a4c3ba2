// The pending instances of a generated run.
ghost use Rattle.std.specs.Prelude.{◌≡◌, ◌<◌, ◌≤◌, ◌+◌, ◌++◌, ◌∷◌, ◌^◌, [], length, swap_remove, vec_len, vec_capacity, OnOk, OnErr};
ghost use Rattle.wf_model.specs.Grammar.{body_of};
ghost use Rattle.wf_gen.specs.Turns.{no_pending, pending_from};
ghost use Rattle.wf_gen.specs.Held.{all_pending};

use std::alloc::AllocError;
use wf_recur::target;
use wf_spec::{Grammar, ModNo, PosNo, ProdNo, Step};

/// An instance of a composite module that is not expanded: its number in the order of making, and its module.
#[derive(Clone, Copy, Drop)]
pub(crate) struct Pending {
    pub(crate) number: u32,
    pub(crate) module: ModNo,
}

/// Appends an instance, where there is room for it.
fn put(pending: &mut Vec<Pending>, one: Pending)
    requires { vec_len pending.old < vec_capacity pending.old }
    ensures items { pending.new.items ≡ pending.old.items ++ one ∷ [] }
    ensures len { vec_len pending.new ≡ vec_len pending.old + 1 }
    ensures capacity { vec_capacity pending.old ≤ vec_capacity pending.new }
{
    if pending.push(one).is_err() {
        unreachable!();
    }
}

/// Appends the instance of a number, if its module is composite, where there is room for it.
pub(crate) fn put_composite(g: &Grammar, pending: &mut Vec<Pending>, number: u32, m: ModNo)
    requires in_range { m.0 < length g.now.core.modules }
    requires room { vec_len pending.old < vec_capacity pending.old }
    ensures items { all_pending pending.new.items ≡ all_pending pending.old.items ++ pending_from g.now.core number (m.0 ∷ []) }
    ensures len { vec_len pending.new ≤ vec_len pending.old + 1 }
    ensures capacity { vec_capacity pending.old ≤ vec_capacity pending.new }
{
    if g.is_composite(m) {
        put(pending, Pending { number, module: m });
    }
}

/// Appends the children that a production makes, numbered from `first` on, as far as their modules are composite, where there is room for all.
fn put_children(g: &Grammar, pending: &mut Vec<Pending>, p: ProdNo, first: u32)
    requires production { p.0 < length g.now.core.productions }
    requires numbers { first + length (body_of g.now.core p.0) < 2 ^ 32 }
    requires room { vec_len pending.old + length (body_of g.now.core p.0) ≤ vec_capacity pending.old }
    ensures { all_pending pending.new.items ≡ all_pending pending.old.items ++ pending_from g.now.core first (body_of g.now.core p.0) }
{
    let count = g.production(p).positions().len();
    for k in 0..count {
        let step = Step {
            production: p,
            position: PosNo(k as u8),
        };
        put_composite(g, pending, first + k as u32, target(g, step));
    }
}

/// Takes an instance out of the list, whose last one takes its place, and appends the composite children that its production makes, numbered from `first` on.
///
/// The only error is that memory is refused, and then the list is as it was.
pub(crate) fn replace(
    g: &Grammar,
    pending: &mut Vec<Pending>,
    place: usize,
    p: ProdNo,
    first: u32,
) -> Result<(), AllocError>
    requires place { place < length pending.old.items }
    requires production { p.0 < length g.now.core.productions }
    requires numbers { first + length (body_of g.now.core p.0) < 2 ^ 32 }
    ensures replaced { OnOk result (all_pending pending.new.items ≡ swap_remove (all_pending pending.old.items) place no_pending ++
        pending_from g.now.core first (body_of g.now.core p.0)) }
    ensures unchanged { OnErr result (pending.new.items ≡ pending.old.items) }
{
    let count = g.production(p).positions().len();
    pending.reserve(count)?;
    pending.swap_remove(place);
    put_children(g, pending, p, first);
    Ok(())
}
