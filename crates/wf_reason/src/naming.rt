// What the names in the lines of a chain name in a run.
ghost use Rattle.std.specs.Prelude.{◌≡◌, ◌<◌, length, IfSome, IsNone};
ghost use Rattle.wf_model.specs.Lists.{IsIn};
ghost use Rattle.wf_model.specs.Run.{Instance};
ghost use Rattle.wf_model.specs.Items.{Item as ItemSeen, items, IsVisible};
ghost use Rattle.wf_flat.specs.Graph.{inst_at};
ghost use Rattle.chain_model.specs.Chains.{IsStepFrom, Consumes};
ghost use Rattle.wf_chain.specs.ViewedRuns.{grammar_in, view_in, full_in, events_in, item_in, IsVisibleIn};
ghost use Rattle.wf_chain.specs.Steps.{GoesOn};
ghost use Rattle.wf_reason.specs.Standing.{IsConsumer};

use wf_chain::ViewedRun;
use wf_flat::{Item, Port};

/// An instance that consumes an item: its number, and the input at which it does.
#[derive(Clone, Copy)]
pub(crate) struct Consumer {
    pub(crate) via: u32,
    pub(crate) input: Port,
}

/// The visible item of a name.
pub(crate) fn visible_item(run: &ViewedRun<'_>, name: &[u8]) -> Option<Item>
    ensures visible { IfSome result (IsVisibleIn run.now) }
    ensures named { IfSome result (λ i. (item_in run.now i).name ≡ name.now) }
    ensures none { IsNone result → (t : ItemSeen) → IsIn t (items (grammar_in run.now) (grammar_in run.now).start (events_in run.now)) →
        IsVisible (grammar_in run.now) (view_in run.now) (grammar_in run.now).start (events_in run.now) t → t.name ≡ name.now → ⊥ }
{
    // Two items of a run differ in their names.
    let _run = run.run();
    let item = run.find_item(0, name)?;
    if !run.shows(&item) {
        return None;
    }
    Some(item)
}

/// The instance of a name, if it consumes a visible item.
pub(crate) fn find_consumer(run: &ViewedRun<'_>, item: &Item, name: &[u8]) -> Option<Consumer>
    requires { IsVisibleIn run.now item.now }
    ensures consumes { IfSome result (IsConsumer run.now item.now) }
    ensures named { IfSome result (λ c. (inst_at run.now.run.instances c.via).name ≡ name.now) }
    ensures none { IsNone result → (n : Instance) → Consumes (grammar_in run.now) (view_in run.now) (grammar_in run.now).start (events_in run.now) (item_in run.now item.now) n →
        n.name ≡ name.now → ⊥ }
{
    // Two instances of a run differ in their names.
    let _run = run.run();
    let near = match item.to {
        Some(port) => port.instance,
        None => 0,
    };
    let via = run.find_instance(near, name)?;
    let input = run.consumes(item, via)?;
    Some(Consumer { via, input })
}

/// The visible item of a name, if an item leads to it through the instance that consumes it.
pub(crate) fn next_item(
    run: &ViewedRun<'_>,
    first: &Item,
    by: Consumer,
    name: &[u8],
) -> Option<Item>
    requires { IsConsumer run.now first.now by }
    ensures visible { IfSome result (IsVisibleIn run.now) }
    ensures named { IfSome result (λ i. (item_in run.now i).name ≡ name.now) }
    ensures leads { IfSome result (λ i. GoesOn run.now first.now (record { via = by.via; item = i })) }
    ensures none { IsNone result → (t : ItemSeen) → IsStepFrom (grammar_in run.now) (view_in run.now) (full_in run.now) (grammar_in run.now).start (events_in run.now)
        (item_in run.now first.now) (record { via = inst_at run.now.run.instances by.via; item = t }) → t.name ≡ name.now → ⊥ }
{
    // Two items of a run differ in their names.
    let _run = run.run();
    let item = run.find_item(by.via, name)?;
    if !run.leads_to(by.input, &item) {
        return None;
    }
    Some(item)
}
