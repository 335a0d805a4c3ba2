// The first instance of a run.
ghost use Rattle.std.specs.Prelude.{◌≡◌};
ghost use Rattle.wf_model.specs.WellFormed.{IsWellFormed};
ghost use Rattle.wf_run.specs.Nodes.{node_of, IsFilledPrefix};
ghost use Rattle.wf_run.specs.Opening.{closed_node, root_prefix};

use crate::chain::Chain;
use crate::child::begun;
use crate::node::Node;
use wf_recur::Linear;

/// The root: its prefix has one bit, which is set, and no bits where the start module is atomic.
pub(crate) fn root<'a>(g: Linear<'_>) -> Node<'a>
    ensures node { node_of result ≡ closed_node g.entry.grammar.now.core.start (root_prefix g.entry.grammar.now.core) }
    ensures filled { IsFilledPrefix result }
    ensures formed { IsWellFormed g.entry.grammar.now.core }
{
    let start = g.grammar.start();
    if !g.grammar.is_composite(start) {
        return Node {
            bytes: &[],
            chain: Chain::new(None),
            length: 0,
            first_child: 0,
            module: start,
            children: 0,
        };
    }
    Node {
        bytes: &[128],
        chain: Chain::new(begun(g.cycles, start)),
        length: 1,
        first_child: 0,
        module: start,
        children: 0,
    }
}
