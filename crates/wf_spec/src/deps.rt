// Pairs of modules, as rows of bits.
ghost use Rattle.std.specs.Prelude.{◌≡◌, ◌<◌, ℕ, List, Option, Some, None, length, get_or, set, replicate, option_map, OnOk, OnErr, IfOk};

use std::alloc::{AllocError, Global};
use std::marker::Model;
use wf_model::ModNo;

/// An optional matrix for each module.
#[derive(Drop)]
pub struct Deps {
    alloc: Global,
    modules: Vec<Option<Vec<u64>>>,
}

impl Model for Deps {
    ghost use Rattle.std.specs.Prelude.{ℕ, List, Option, map, option_map};

    ghost Value = { List (Option (List ℕ)) };

    ghost view = { λ d. map (option_map (λ r. r.items)) d.modules.items };
}

impl Deps {
    /// No rows for any of so many modules.
    pub fn new(alloc: Global, modules: u16) -> Result<Deps, AllocError>
        ensures { IfOk result (λ d. d ≡ replicate modules None) }
    {
        let mut list = Vec::new(alloc);
        for k in 0..modules {
            list.push(None)?;
        }
        Ok(Deps {
            alloc,
            modules: list,
        })
    }

    /// The rows that were set last for a module.
    pub fn rows(&self, m: ModNo) -> Option<&[u64]>
        requires { m.0 < length self.now }
        ensures { option_map (λ r. r.now) result ≡ get_or self.now m.0 None }
    {
        match &self.modules[m.0 as usize] {
            None => None,
            Some(rows) => Some(rows.as_slice()),
        }
    }

    /// Sets the rows of a module, in place of those that were set before. After an error all rows are as before.
    pub fn set(&mut self, m: ModNo, rows: &[u64]) -> Result<(), AllocError>
        requires { m.0 < length self.old }
        ensures set { OnOk result (self.new ≡ set self.old m.0 (Some rows.now)) }
        ensures unchanged { OnErr result (self.new ≡ self.old) }
    {
        let kept = Vec::from_slice(self.alloc, rows)?;
        self.modules[m.0 as usize] = Some(kept);
        Ok(())
    }
}
