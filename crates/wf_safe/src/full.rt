// The full assignment of a safe view.
ghost use Rattle.std.specs.Prelude.{◌≡◌, Some, get_or, None, length};
ghost use Rattle.wf_model.specs.Grammar.{Grammar as GrammarSeen};
ghost use Rattle.wf_body.specs.Matrices.{HasRows};

use std::marker::Model;
use wf_spec::{Deps, ModNo};

/// The rows of a module that has them.
pub(crate) fn rows_of(deps: &Deps, m: ModNo) -> &[u64]
    requires { (g : GrammarSeen) × HasRows g deps.now m.0 }
    ensures { Some result.now ≡ get_or deps.now m.0 None }
{
    match deps.rows(m) {
        Some(rows) => rows,
        None => &[],
    }
}

/// The pairs that every expansion of a module joins, for each module that is seen under a safe view.
#[derive(Drop)]
pub struct FullDeps {
    deps: Deps,
}

impl Model for FullDeps {
    ghost use Rattle.std.specs.Prelude.{ℕ, List, Option};

    ghost Value = { List (Option (List ℕ)) };

    ghost view = { λ f. f.deps };
}

impl FullDeps {
    pub(crate) fn of_rows(deps: Deps) -> FullDeps
        ensures { result ≡ deps }
    {
        FullDeps { deps }
    }

    /// The pairs of a module that has rows, as each seen module has: a row for each input, in which bit `o` stands for output `o`.
    pub fn rows(&self, m: ModNo) -> &[u64]
        requires { (g : GrammarSeen) × HasRows g self.now m.0 }
        ensures { Some result.now ≡ get_or self.now m.0 None }
    {
        rows_of(&self.deps, m)
    }

    /// The rows of all seen modules.
    pub fn deps(&self) -> &Deps
        ensures { result.now ≡ self.now }
    {
        &self.deps
    }
}
