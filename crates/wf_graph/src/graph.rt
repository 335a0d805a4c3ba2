// Graphs of numbered vertices, gone through vertex by vertex.
ghost use Rattle.std.specs.Prelude.{◌≡◌, ◌<◌, ◌∷◌, [], ℕ, List, length, drop, MatchOption};
ghost use Rattle.wf_graph.specs.Graph.{nexts};

/// A graph of numbered vertices. Each leads to a list of vertices, which is gone through in order.
pub trait Graph {
    /// How many vertices there are.
    ghost size: { Self → ℕ };

    /// The vertices to which a vertex leads, in order.
    ghost leads: { Self → ℕ → List ℕ };

    /// Of these, those behind a mark.
    ghost rest: { Self → ℕ → ℕ → List ℕ };

    /// How many vertices there are.
    fn size(&self) -> usize
        ensures { result ≡ size self.now };

    /// The mark before all vertices to which a vertex leads.
    fn begin(&self, v: u32) -> usize
        requires { v < size self.now }
        ensures { rest self.now v result ≡ leads self.now v };

    /// The first of the vertices behind a mark to which a vertex leads, with the mark behind it.
    fn next(&self, v: u32, mark: usize) -> Option<(u32, usize)>
        requires { v < size self.now }
        ensures { MatchOption result (rest self.now v mark ≡ []) (λ n. rest self.now v mark ≡ n.0 ∷ rest self.now v n.1) };
}

/// A graph by its rows: for each vertex the list of those to which it leads.
#[derive(Clone, Copy)]
pub struct RowGraph<'r> {
    pub rows: &'r [Vec<u32>],
}

impl Graph for RowGraph<'_> {
    ghost size = { λ g. length g.rows.now };

    ghost leads = { λ g. nexts g.rows.now };

    ghost rest = { λ g v mark. drop mark (nexts g.rows.now v) };

    fn size(&self) -> usize {
        self.rows.len()
    }

    fn begin(&self, _: u32) -> usize {
        0
    }

    fn next(&self, v: u32, mark: usize) -> Option<(u32, usize)> {
        let row = &self.rows[v as usize];
        if mark >= row.len() {
            return None;
        }
        Some((row[mark], mark + 1))
    }
}
