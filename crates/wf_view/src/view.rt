// Views.
ghost use Rattle.std.specs.Prelude.{◌≡◌, ◌<◌, ℕ, [], false, length, get_or, map};
ghost use Rattle.wf_model.specs.View.{expands};
ghost use Rattle.wf_view.specs.Held.{held_by};

use std::marker::Model;
use wf_spec::ModNo;

/// Whether the flag of a module is set.
pub(crate) fn is_flagged(flags: &[bool], m: ModNo) -> bool
    ensures { result ≡ get_or flags.now m.0 false }
{
    let m = m.0 as usize;
    m < flags.len() && flags[m]
}

/// A view of a grammar.
#[derive(Drop)]
pub struct View {
    expanded: Vec<bool>,
    seen: Vec<bool>,
    /// The pairs that are shown of each module: a row for each input, in which bit `o` stands for output `o`. A module that is expanded has no rows.
    rows: Vec<Vec<u64>>,
}

impl Model for View {
    ghost use Rattle.std.specs.Prelude.{map};
    ghost use Rattle.wf_view.specs.Held.{HeldView, held_by};

    ghost Value = { HeldView };

    ghost view = { λ v. held_by v.expanded.items v.seen.items (map (λ r. r.items) v.rows.items) };
}

impl View {
    pub(crate) fn of_tables(expanded: Vec<bool>, seen: Vec<bool>, rows: Vec<Vec<u64>>) -> View
        ensures { result ≡ held_by expanded.items seen.items (map (λ r. r.items) rows.items) }
    {
        View {
            expanded,
            seen,
            rows,
        }
    }

    /// Whether the view expands a module: an instance of it, once it is expanded in a run, is shown with its inner steps.
    pub fn expanded(&self, m: ModNo) -> bool
        ensures { result ≡ expands self.now.core m.0 }
    {
        is_flagged(self.expanded.as_slice(), m)
    }

    /// Flags of the modules that the view expands, by number.
    pub fn marks(&self) -> &[bool]
        ensures { (m : ℕ) → expands self.now.core m ≡ get_or result.now m false }
    {
        self.expanded.as_slice()
    }

    /// Whether instances of a module may be seen: it is the start module, or stands in a body of a seen module that is expanded.
    pub fn seen(&self, m: ModNo) -> bool
        requires { m.0 < length self.now.seen }
        ensures { result ≡ get_or self.now.seen m.0 false }
    {
        self.seen[m.0 as usize]
    }

    /// The pairs that are shown of a module that is not expanded: a row for each input, in which bit `o` stands for output `o`.
    pub fn shown_rows(&self, m: ModNo) -> &[u64]
        requires in_range { m.0 < length self.now.rows }
        requires shown { expands self.now.core m.0 ≡ false }
        ensures { result.now ≡ get_or self.now.rows m.0 [] }
    {
        &self.rows[m.0 as usize]
    }
}
