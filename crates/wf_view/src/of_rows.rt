// Views from rows that are known to fit.
ghost use Rattle.std.specs.Prelude.{◌≡◌, IfOk, map};
ghost use Rattle.wf_view.specs.FitRows.{FitGrammar, IsViewOfRows};
ghost use Rattle.wf_view.specs.Held.{IsHeldFor, view_of_rows};

use crate::seen::seen_marks;
use crate::view::View;
use std::alloc::{AllocError, Global};
use wf_spec::Grammar;

impl View {
    /// The view that expands the flagged modules, and shows of each other module the pairs in its rows: a row for each input, in which bit `o` stands for output `o`.
    ///
    /// This is for a caller that knows modules and ports by number; `rows_fit` tells whether its flags and rows fit. `View::build` finds modules and ports by name, and tests what it is given. The only error is that memory is refused.
    ///
    /// Cost: at most two looks at each position of each body of an expanded module. The rows are kept as they are, and not read.
    pub fn of_rows(
        alloc: Global,
        g: &Grammar,
        expanded: Vec<bool>,
        rows: Vec<Vec<u64>>,
    ) -> Result<View, AllocError>
        requires { FitGrammar g.now.core expanded.items (map (λ r. r.items) rows.items) }
        ensures core { IfOk result (λ v. v.core ≡ view_of_rows expanded.items (map (λ r. r.items) rows.items)) }
        ensures in_words { IfOk result (λ v. IsViewOfRows expanded.items (map (λ r. r.items) rows.items) v.core) }
        ensures rows { IfOk result (λ v. v.rows ≡ map (λ r. r.items) rows.items) }
        ensures held { IfOk result (λ v. IsHeldFor g.now.core v) }
    {
        let _formed = g.start();
        let seen = seen_marks(alloc, g, &expanded)?;
        Ok(View::of_tables(expanded, seen, rows))
    }
}
