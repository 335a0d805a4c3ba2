// A run as a view shows it.
ghost use Rattle.std.specs.Prelude.{◌≡◌, ◌<◌, ℕ, List, Option, length, IfOk};
ghost use Rattle.wf_model.specs.Lists.{IsIn};
ghost use Rattle.wf_model.specs.Meaning.{pairs_of};
ghost use Rattle.wf_flat.specs.Table.{IsTableOf};
ghost use Rattle.wf_flat.specs.Graph.{flag_of, links_among};
ghost use Rattle.wf_flat.specs.Flat.{AreWithin};
ghost use Rattle.wf_flat.specs.Seeing.{AreSeenBy, AreLinksBy, AreOpenBy};

use crate::open::opens;
use crate::seen::{is_set, seen};
use crate::table::PlainRun;
use std::alloc::{AllocError, Global};
use std::marker::Model;
use wf_spec::Grammar;

/// A run as a view shows it: the marks of the modules that are expanded, the numbers of the instances that are seen, and a flag for each instance: whether it is seen and of a marked module. Its links are those that `add_links` adds for each of these numbers.
#[derive(Drop)]
pub struct RunView<'v> {
    expanded: &'v [bool],
    seen: Vec<u32>,
    opens: Vec<bool>,
}

impl<'v> Model for RunView<'v> {
    ghost use Rattle.wf_flat.specs.Shown.{RunSeen};

    ghost Value = { RunSeen };

    ghost view = { λ v. record { marks = v.expanded.now; numbers = v.seen.items; opens = v.opens.items } };
}

impl<'v> RunView<'v> {
    /// A run as a view shows it.
    ///
    /// Cost: linear in the run. Fails only for want of memory.
    pub fn of(
        alloc: Global,
        g: &Grammar,
        run: &PlainRun,
        expanded: &'v [bool],
    ) -> Result<RunView<'v>, AllocError>
        requires { IsTableOf g.now.core run.now }
        ensures marks { IfOk result (λ v. v.marks ≡ expanded.now) }
        ensures seen { IfOk result (λ v. AreSeenBy g.now.core run.now expanded.now v.numbers) }
        ensures there { IfOk result (λ v. (k : ℕ) → IsIn k v.numbers → k < length run.now.instances) }
        ensures links { IfOk result (λ v. (leaf : List (Option (List ℕ))) →
            AreLinksBy g.now.core run.now expanded.now (pairs_of leaf) (links_among g.now.core expanded.now leaf run.now.instances v.numbers)) }
        ensures within { IfOk result (λ v. (leaf : List (Option (List ℕ))) → AreWithin (length run.now.instances) (links_among g.now.core expanded.now leaf run.now.instances v.numbers)) }
        ensures opens { IfOk result (λ v. AreOpenBy g.now.core run.now expanded.now v.opens) }
    {
        // A grammar is well-formed, and a run has fewer than 2^32 instances.
        let _formed = g.start();
        let _few = run.instances();
        let all = seen(alloc, g, run, expanded)?;
        let opens = opens(alloc, run, &all, expanded)?;
        Ok(RunView {
            expanded,
            seen: all,
            opens,
        })
    }

    /// The marks of the modules that are expanded.
    pub fn marks(&self) -> &[bool]
        ensures { result.now ≡ self.now.marks }
    {
        self.expanded
    }

    /// The numbers of the instances that are seen, in order of making.
    pub fn seen(&self) -> &[u32]
        ensures { result.now ≡ self.now.numbers }
    {
        &self.seen
    }

    /// Whether the instance of a number is seen and of a marked module: once it is expanded, it is open.
    pub fn opens(&self, k: u32) -> bool
        ensures { result ≡ flag_of self.now.opens k }
    {
        is_set(&self.opens, k as usize)
    }
}
