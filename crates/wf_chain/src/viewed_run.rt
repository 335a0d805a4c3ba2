// A run under a safe view.
ghost use Rattle.std.specs.Prelude.{◌≡◌, ◌<◌, ◌↔◌, ℕ, [], false, length, get_or, IfOk, IfSome, IsNone, IsTrue, MatchOption, Some};
ghost use Rattle.wf_model.specs.Run.{opens, seen_in};
ghost use Rattle.wf_model.specs.Items.{IsVisible};
ghost use Rattle.wf_safe.specs.SafeViews.{IsSafeView};
ghost use Rattle.wf_flat.specs.Table.{IsTableOf, names_in, no_instance};
ghost use Rattle.wf_flat.specs.Graph.{inst_at};
ghost use Rattle.wf_flat.specs.Item.{HasNoItem};
ghost use Rattle.wf_chain.specs.HeldItems.{item_name};
ghost use Rattle.wf_chain.specs.ViewedRuns.{grammar_in, view_in, events_in, item_in, IsItemIn};
ghost use Rattle.wf_chain.specs.Steps.{IsOpenIn};

use std::alloc::{AllocError, Global};
use std::marker::Model;
use wf_flat::{Item, PlainRun, find_item, open_flags};
use wf_safe::SafeView;
use wf_spec::ProdNo;

/// Whether a flag is set. Past the end none is.
fn is_set(flags: &[bool], k: usize) -> bool
    ensures { result ≡ get_or flags.now k false }
{
    k < flags.len() && flags[k]
}

/// A run of a grammar under a safe view, with a flag for each instance: whether it is open once it is expanded.
#[derive(Drop)]
pub struct ViewedRun<'r> {
    pub(crate) viewed: &'r SafeView<'r>,
    pub(crate) run: &'r PlainRun,
    flags: Vec<bool>,
}

impl<'r> Model for ViewedRun<'r> {
    ghost use Rattle.wf_chain.specs.ViewedRuns.{ViewedRunValue, IsViewedRun};

    ghost Value = { ViewedRunValue };

    ghost view = { λ v. record { viewed = v.viewed.now; run = v.run.now } };

    ghost invariant = { λ v. IsViewedRun (record { viewed = v.viewed.now; run = v.run.now }) v.flags.items };
}

impl<'r> ViewedRun<'r> {
    /// A run under a safe view of its grammar.
    ///
    /// Cost: linear in the run. Beside these two it holds a byte for each instance. Fails only for want of memory.
    pub fn of(
        alloc: Global,
        viewed: &'r SafeView<'r>,
        run: &'r PlainRun,
    ) -> Result<ViewedRun<'r>, AllocError>
        requires { IsTableOf viewed.now.accepted.grammar.core run.now }
        ensures viewed { IfOk result (λ v. v.viewed ≡ viewed.now) }
        ensures run { IfOk result (λ v. v.run ≡ run.now) }
    {
        let flags = open_flags(alloc, viewed.grammar(), run, viewed.view().marks())?;
        Ok(ViewedRun { viewed, run, flags })
    }

    /// The run.
    pub fn run(&self) -> &'r PlainRun
        ensures run { result.now ≡ self.now.run }
        ensures safe { IsSafeView self.now.viewed }
        ensures table { IsTableOf (grammar_in self.now) self.now.run }
    {
        self.run
    }

    /// The item of a name, which may be that of the instance `near`.
    ///
    /// Cost: that of `wf_flat::find_item`. Takes no memory.
    pub fn find_item(&self, near: u32, name: &[u8]) -> Option<Item>
        ensures found { IfSome result (IsItemIn self.now) }
        ensures named { IfSome result (λ i. item_name (grammar_in self.now) self.now.run i ≡ name.now) }
        ensures none { IsNone result → HasNoItem (grammar_in self.now) self.now.run name.now }
    {
        find_item(self.viewed.grammar(), self.run, near, name)
    }

    /// The number of the instance of a name, which may be `near`.
    ///
    /// Cost: where it is another, one look-up by hashing. Takes no memory.
    pub fn find_instance(&self, near: u32, name: &[u8]) -> Option<u32>
        ensures there { IfSome result (λ k. k < length self.now.run.instances) }
        ensures named { IfSome result (λ k. (inst_at self.now.run.instances k).name ≡ name.now) }
        ensures none { IsNone result → (k : ℕ) → k < length self.now.run.instances → (inst_at self.now.run.instances k).name ≡ name.now → ⊥ }
    {
        self.run.find_near(near, name)
    }

    /// Whether the view shows an item of the run: a port of the root, or made by an open instance.
    ///
    /// Cost: one flag is looked at. Takes no memory.
    pub fn shows(&self, item: &Item) -> bool
        requires { IsItemIn self.now item.now }
        ensures { IsTrue result ↔ IsVisible (grammar_in self.now) (view_in self.now) (grammar_in self.now).start (events_in self.now) (item_in self.now item.now) }
    {
        let Some(k) = item.maker else {
            return true;
        };
        self.opens(k)
    }

    /// Whether the instance of a number is open once it is expanded.
    fn opens(&self, k: u32) -> bool
        requires { k < length self.now.run.instances }
        ensures { result ≡ opens (view_in self.now) (seen_in (grammar_in self.now) (view_in self.now) (grammar_in self.now).start (events_in self.now))
            (get_or (names_in self.now.run.instances) k []) }
    {
        is_set(&self.flags, k as usize)
    }

    /// The production by which the instance of a number is expanded, if it is open.
    pub(crate) fn opened_by(&self, k: u32) -> Option<ProdNo>
        requires { k < length self.now.run.instances }
        ensures { MatchOption result (IsOpenIn self.now k → ⊥) (λ p. IsOpenIn self.now k × ((get_or self.now.run.instances k no_instance).production ≡ Some p)) }
    {
        let run = self.run;
        if !self.opens(k) {
            return None;
        }
        run.instances()[k as usize].production
    }
}
