// The ports of a flat graph, as a graph of numbered vertices.
ghost use Rattle.std.specs.Prelude.{length};
ghost use Rattle.wf_flat.specs.Leading.{AreSmall, get_word, led_behind, led_from};

use crate::module_rows::{Row, next_output};
use crate::numbering::PORTS;
use wf_graph::Graph;

/// For each port a word, and the rows that words name. A word below 2^31 is the number of the port to which its port leads; the others are 2^31 and more than the number of the row by which it leads. Past the last row none leads anywhere.
#[derive(Clone, Copy)]
pub struct PortGraph<'a> {
    pub words: &'a [u32],
    pub rows: &'a [Row],
    pub ghost small: { ∥ AreSmall words.now rows.now ∥₁ },
}

impl Graph for PortGraph<'_> {
    ghost size = { λ g. length g.words.now };

    ghost leads = { λ g. led_from g.words.now g.rows.now };

    ghost rest = { λ g p mark. led_behind g.rows.now (get_word g.words.now p) p mark };

    fn size(&self) -> usize {
        self.words.len()
    }

    fn begin(&self, _: u32) -> usize {
        0
    }

    fn next(&self, p: u32, mark: usize) -> Option<(u32, usize)> {
        let word = self.words[p as usize];
        if word < PORTS {
            if mark == 0 {
                return Some((word, 1));
            }
            return None;
        }
        let row = (word - PORTS) as usize;
        if row >= self.rows.len() {
            return None;
        }
        next_output(self.rows[row], p, mark)
    }
}
