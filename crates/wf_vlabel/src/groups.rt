// Matrices in groups.
ghost use Rattle.std.specs.Prelude.{◌≡◌, ◌<◌, ◌↔◌, ℕ, IsTrue, length, map, option_map};
ghost use Rattle.wf_vlabel.specs.Groups.{HasGroup, matrix_of};

use bool_mat::{MatNo, MatPool, MatRef};
use std::marker::Model;

/// Matrices in groups, each under a key: those of a group are numbered one after another.
#[derive(Drop)]
pub(crate) struct Groups {
    pool: MatPool,
    first: Vec<Option<MatNo>>,
}

impl Model for Groups {
    ghost use Rattle.std.specs.Prelude.{map, option_map};
    ghost use Rattle.wf_vlabel.specs.Groups.{GroupsSeen};

    ghost Value = { GroupsSeen };

    ghost view = { λ t. record { pool = t.pool; first = map (option_map (λ n. n.0)) t.first.items } };
}

impl Groups {
    /// Groups whose first matrices have these numbers of a pool.
    pub(crate) fn of_pool(pool: MatPool, first: Vec<Option<MatNo>>) -> Groups
        ensures pool { result.pool ≡ pool }
        ensures first { result.first ≡ map (option_map (λ n. n.0)) first.items }
    {
        Groups { pool, first }
    }

    /// How many keys there are.
    pub(crate) fn keys(&self) -> usize
        ensures { result ≡ length self.now.first }
    {
        self.first.len()
    }

    /// Whether a key has a group of so many matrices.
    pub(crate) fn has(&self, key: usize, count: usize) -> bool
        ensures { IsTrue result ↔ HasGroup self.now key count }
    {
        if key >= self.first.len() {
            return false;
        }
        match self.first[key] {
            Some(n) => n.0 <= self.pool.len() && count <= self.pool.len() - n.0,
            None => false,
        }
    }

    /// The matrix at a place of a group that has more matrices than that.
    ///
    /// Constant time.
    pub(crate) fn matrix(&self, key: usize, at: usize) -> MatRef<'_>
        requires { (count : ℕ) × HasGroup self.now key count × (at < count) }
        ensures same { result ≡ matrix_of self.now key at }
    {
        match self.first[key] {
            Some(n) => {
                let _count = self.pool.len();
                self.pool.get(MatNo(n.0 + at))
            }
            None => MatRef {
                rows: &[],
                columns: 0,
            },
        }
    }
}
